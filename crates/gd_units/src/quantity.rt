//! Quantities of gas: whole dekatherms for one gas day.

ghost use Rattle.std.specs.Prelude.{◌≡◌, ◌≤◌, ◌<◌, ℕ, MatchResult, Some};
ghost use Rattle.std.specs.Fmt.{decimal};
ghost use Rattle.gd_units.specs.Names.{dth_fault_name};

use std::fmt;
use std::marker::Model;

/// Why a number is no quantity. It is printed by its name.
#[derive(Clone, Copy, Debug, PartialEq, Eq)]
pub enum DthFault {
    /// The number is above 1,000,000,000.
    TooLarge,
}

/// Delivered dekatherms for one gas day, 0 to 1,000,000,000 (own limit).
///
/// A contract sees the number.
#[derive(Clone, Copy, Debug, PartialEq, Eq, PartialOrd, Ord, Hash)]
pub struct Dth {
    value: u64,
}

impl Model for Dth {
    ghost Value = { ℕ };

    ghost view = { λ d. d.value };

    ghost invariant = { λ d. d.value ≤ 1_000_000_000 };

    ghost inverse = { λ n. record { value = n } };
}

impl Dth {
    /// The number of dekatherms of the greatest quantity (own limit).
    pub const MAX: u64 = 1_000_000_000;

    /// No gas.
    pub const ZERO: Dth = Dth { value: 0 };

    /// The quantity of this number, where it is not too large.
    pub fn new(value: u64) -> Result<Dth, DthFault>
        ensures { MatchResult result (λ d. (d ≡ value) × (value ≤ Dth.MAX)) (λ e. Dth.MAX < value) }
    {
        if value <= Dth::MAX {
            Ok(Dth { value })
        } else {
            Err(DthFault::TooLarge)
        }
    }

    /// The number of dekatherms.
    pub fn get(self) -> u64
        ensures is { result ≡ self }
        ensures bound { result ≤ Dth.MAX }
    {
        self.value
    }
}

impl fmt::Display for DthFault {
    ghost output = { λ f. Some (dth_fault_name f) };

    fn fmt<W: fmt::Write>(&self, f: &mut fmt::Formatter<W>) -> fmt::Result {
        match self {
            DthFault::TooLarge => f.write_str("TooLarge"),
        }
    }
}

impl fmt::Display for Dth {
    ghost output = { λ d. Some (decimal d) };

    fn fmt<W: fmt::Write>(&self, f: &mut fmt::Formatter<W>) -> fmt::Result {
        let value = self.value;
        write!(f, "{value}")
    }
}
