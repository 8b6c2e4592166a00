//! What a shipper buys: priority classes, rate bands, and the ends of a line.

ghost use Rattle.std.specs.Prelude.{◌≡◌, ◌≤◌, ◌<◌, ℕ, MatchOption, ◌⊎◌, Some};

use std::fmt;
use std::marker::Model;

/// A priority class of the tariff, 1 to 8: 1 to 3 are firm, 4 to 8 interruptible.
///
/// A contract sees the number.
#[derive(Clone, Copy, Debug, PartialEq, Eq, PartialOrd, Ord, Hash)]
pub struct Class {
    number: u8,
}

impl Model for Class {
    ghost Value = { ℕ };

    ghost view = { λ c. c.number };

    ghost invariant = { λ c. (1 ≤ c.number) × (c.number ≤ 8) };

    ghost inverse = { λ n. record { number = n } };
}

impl Class {
    /// The number of the last class (own limit).
    pub const MAX: u8 = 8;

    /// How many there are.
    pub const COUNT: usize = 8;

    /// All of them, in order.
    pub const ALL: [Class; Class::COUNT] = [
        Class { number: 1 },
        Class { number: 2 },
        Class { number: 3 },
        Class { number: 4 },
        Class { number: 5 },
        Class { number: 6 },
        Class { number: 7 },
        Class { number: 8 },
    ];

    /// The class of this number, or `None` at 0 and above 8.
    pub fn new(number: u8) -> Option<Class>
        ensures { MatchOption result ((number ≡ 0) ⊎ (Class.MAX < number))
            (λ class. (class ≡ number) × (1 ≤ number) × (number ≤ Class.MAX)) }
    {
        if 1 <= number && number <= Class::MAX {
            Some(Class { number })
        } else {
            None
        }
    }

    /// The number of the class.
    pub fn number(self) -> u8
        ensures is { result ≡ self }
        ensures bounds { (1 ≤ result) × (result ≤ Class.MAX) }
    {
        self.number
    }
}

/// A rate band of interruptible service, 1 to 5.
///
/// A contract sees the number.
#[derive(Clone, Copy, Debug, PartialEq, Eq, PartialOrd, Ord, Hash)]
pub struct Band {
    number: u8,
}

impl Model for Band {
    ghost Value = { ℕ };

    ghost view = { λ b. b.number };

    ghost invariant = { λ b. (1 ≤ b.number) × (b.number ≤ 5) };

    ghost inverse = { λ n. record { number = n } };
}

impl Band {
    /// The number of the last band (own limit).
    pub const MAX: u8 = 5;

    /// How many there are.
    pub const COUNT: usize = 5;

    /// All of them, in order.
    pub const ALL: [Band; Band::COUNT] = [
        Band { number: 1 },
        Band { number: 2 },
        Band { number: 3 },
        Band { number: 4 },
        Band { number: 5 },
    ];

    /// The band of this number, or `None` at 0 and above 5.
    pub fn new(number: u8) -> Option<Band>
        ensures { MatchOption result ((number ≡ 0) ⊎ (Band.MAX < number))
            (λ band. (band ≡ number) × (1 ≤ number) × (number ≤ Band.MAX)) }
    {
        if 1 <= number && number <= Band::MAX {
            Some(Band { number })
        } else {
            None
        }
    }

    /// The number of the band.
    pub fn number(self) -> u8
        ensures is { result ≡ self }
        ensures bounds { (1 ≤ result) × (result ≤ Band.MAX) }
    {
        self.number
    }
}

/// Which way gas passes at a point.
#[derive(Clone, Copy, Debug, PartialEq, Eq, PartialOrd, Ord, Hash)]
pub enum Kind {
    /// Gas comes into the pipeline.
    Receipt,
    /// Gas leaves the pipeline.
    Delivery,
}

/// One of the two ends of a line.
#[derive(Clone, Copy, Debug, PartialEq, Eq, PartialOrd, Ord, Hash)]
pub enum End {
    /// Where its gas comes into the pipeline or out of a pool.
    Origin,
    /// Where it leaves the pipeline or goes into a pool.
    Dest,
}
