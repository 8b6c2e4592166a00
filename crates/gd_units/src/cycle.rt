//! When: cycles of a gas day, rounds of a question, and moments.

ghost use Rattle.std.specs.Prelude.{◌≡◌, ◌≤◌, ◌<◌, ◌+◌, ℕ, ℤ, pos, ◌<ℤ◌, MatchOption, ◌⊎◌, Some};
ghost use Rattle.std.specs.Fmt.{decimal};

use std::fmt;
use std::marker::Model;

/// A cycle of a gas day (NAESB WGQ 1.3.2): 1 Timely, 2 Evening, 3 to 5 Intraday 1 to 3.
///
/// A contract sees the number.
#[derive(Clone, Copy, Debug, PartialEq, Eq, PartialOrd, Ord, Hash)]
pub struct CycleNo {
    number: u8,
}

impl Model for CycleNo {
    ghost Value = { ℕ };

    ghost view = { λ c. c.number };

    ghost invariant = { λ c. (1 ≤ c.number) × (c.number ≤ 5) };

    ghost inverse = { λ n. record { number = n } };
}

impl CycleNo {
    /// The number of the last cycle (NAESB WGQ 1.3.2).
    pub const MAX: u8 = 5;

    /// How many there are.
    pub const COUNT: usize = 5;

    /// All of them, in order.
    pub const ALL: [CycleNo; CycleNo::COUNT] = [
        CycleNo { number: 1 },
        CycleNo { number: 2 },
        CycleNo { number: 3 },
        CycleNo { number: 4 },
        CycleNo { number: 5 },
    ];

    /// The cycle of this number, or `None` at 0 and above 5.
    pub fn new(number: u8) -> Option<CycleNo>
        ensures { MatchOption result ((number ≡ 0) ⊎ (CycleNo.MAX < number))
            (λ cycle. (cycle ≡ number) × (1 ≤ number) × (number ≤ CycleNo.MAX)) }
    {
        if 1 <= number && number <= CycleNo::MAX {
            Some(CycleNo { number })
        } else {
            None
        }
    }

    /// The number of the cycle.
    pub fn number(self) -> u8
        ensures is { result ≡ self }
        ensures bounds { (1 ≤ result) × (result ≤ CycleNo.MAX) }
    {
        self.number
    }

    /// The cycle after this one, or `None` after Intraday 3.
    pub fn next(self) -> Option<CycleNo>
        ensures { MatchOption result (self ≡ CycleNo.MAX)
            (λ cycle. (cycle ≡ self + 1) × (self < CycleNo.MAX)) }
    {
        let number = self.number;
        if number < CycleNo::MAX {
            Some(CycleNo { number: number + 1 })
        } else {
            None
        }
    }
}

/// The number of a freeze within a gas day, from 1: the round of the question that it asks (own limit 1,000,000).
///
/// A contract sees the number.
#[derive(Clone, Copy, Debug, PartialEq, Eq, PartialOrd, Ord, Hash)]
pub struct Round {
    number: u32,
}

impl Model for Round {
    ghost Value = { ℕ };

    ghost view = { λ r. r.number };

    ghost invariant = { λ r. (1 ≤ r.number) × (r.number ≤ 1_000_000) };

    ghost inverse = { λ n. record { number = n } };
}

impl Round {
    /// The greatest number of a round (own limit).
    pub const MAX: u32 = 1_000_000;

    /// The round of this number, or `None` at 0 and above 1,000,000.
    pub fn new(number: u32) -> Option<Round>
        ensures { MatchOption result ((number ≡ 0) ⊎ (Round.MAX < number))
            (λ round. (round ≡ number) × (1 ≤ number) × (number ≤ Round.MAX)) }
    {
        if 1 <= number && number <= Round::MAX {
            Some(Round { number })
        } else {
            None
        }
    }

    /// The number of the round.
    pub fn number(self) -> u32
        ensures is { result ≡ self }
        ensures bounds { (1 ≤ result) × (result ≤ Round.MAX) }
    {
        self.number
    }
}

/// A moment, in seconds since 1970-01-01T00:00:00Z, 0 to 4,200,000,000.
///
/// A contract sees the number.
#[derive(Clone, Copy, Debug, PartialEq, Eq, PartialOrd, Ord, Hash)]
pub struct Moment {
    seconds: u64,
}

impl Model for Moment {
    ghost Value = { ℕ };

    ghost view = { λ m. m.seconds };

    ghost invariant = { λ m. m.seconds ≤ 4_200_000_000 };

    ghost inverse = { λ n. record { seconds = n } };
}

impl Moment {
    /// The greatest number of seconds (own limit).
    pub const MAX: u64 = 4_200_000_000;

    /// The moment of this number of seconds, or `None` below 0 and above 4,200,000,000.
    pub fn new(seconds: i64) -> Option<Moment>
        ensures { MatchOption result ((seconds <ℤ pos 0) ⊎ (pos Moment.MAX <ℤ seconds))
            (λ moment. (pos moment ≡ seconds) × (moment ≤ Moment.MAX)) }
    {
        match u64::try_from(seconds) {
            Ok(seconds) if seconds <= Moment::MAX => Some(Moment { seconds }),
            _ => None,
        }
    }

    /// The number of seconds.
    pub fn seconds(self) -> i64
        ensures is { result ≡ pos self }
        ensures bound { self ≤ Moment.MAX }
    {
        self.seconds as i64
    }
}

impl fmt::Display for CycleNo {
    ghost output = { λ c. Some (decimal c) };

    fn fmt<W: fmt::Write>(&self, f: &mut fmt::Formatter<W>) -> fmt::Result {
        let number = self.number;
        write!(f, "{number}")
    }
}

impl fmt::Display for Round {
    ghost output = { λ r. Some (decimal r) };

    fn fmt<W: fmt::Write>(&self, f: &mut fmt::Formatter<W>) -> fmt::Result {
        let number = self.number;
        write!(f, "{number}")
    }
}

impl fmt::Display for Moment {
    ghost output = { λ m. Some (decimal m) };

    fn fmt<W: fmt::Write>(&self, f: &mut fmt::Formatter<W>) -> fmt::Result {
        let seconds = self.seconds;
        write!(f, "{seconds}")
    }
}
