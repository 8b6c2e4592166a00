//! A single number.

ghost use Rattle.std.specs.Prelude.{◌≡◌, ℤ};
ghost use Rattle.gd_scale.specs.Words.{word_fits};
ghost use Rattle.gd_scale.specs.Sizes.{whole, word_size, word_rank};
ghost use Rattle.gd_scale.proofs.Words.{whole_lawful};
ghost use Rattle.gd_scale.proofs.Bounds.{whole_bounded, whole_ranked};

use crate::{Cost, word};
use std::cmp::Ordering;

/// One whole number.
#[derive(Clone, Copy, Debug, PartialEq, Eq)]
pub struct One {
    number: i128,
}

impl One {
    ghost use Rattle.gd_cost.specs.Made.{number_of};

    /// The cost of this number.
    pub fn of(number: i128) -> One
        ensures { number_of result ≡ number }
    {
        One { number }
    }

    /// The number.
    pub fn number(self) -> i128
        ensures { result ≡ number_of self }
    {
        self.number
    }
}

impl Cost for One {
    ghost use Rattle.gd_cost.specs.Made.{number_of};

    ghost Meaning = { ℤ };

    ghost meaning = { number_of };

    ghost scale = { whole };

    ghost within = { word_fits };

    ghost size = { word_size };

    ghost rank = { word_rank };

    ghost lawful = { whole_lawful };

    ghost bounded = { whole_bounded };

    ghost ranked = { whole_ranked };

    fn zero() -> One {
        One { number: 0 }
    }

    fn add(self, other: One) -> One {
        One {
            number: word::plus(self.number, other.number),
        }
    }

    fn sub(self, other: One) -> One {
        One {
            number: word::less(self.number, other.number),
        }
    }

    fn times(self, count: i64) -> One {
        One {
            number: word::times(self.number, count),
        }
    }

    fn cmp(self, other: One) -> Ordering {
        self.number.cmp(&other.number)
    }

    fn fits(self, bound: i128) -> bool {
        word::fits(self.number, bound)
    }
}
