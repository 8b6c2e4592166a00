//! What schedules are counted in: values that can be added and compared, exactly.
//!
//! A value means a list of whole numbers. None of these calls takes memory.
#![tactic(auto)]

mod by_class;
mod lex;
mod one;
mod pair;
mod word;

ghost use Rattle.std.specs.Prelude.{◌≡◌, ℕ, ℤ, pos, ◌^◌, Bool, IsTrue};
ghost use Rattle.gd_scale.specs.Scale.{Scale, multiple};
ghost use Rattle.gd_scale.specs.Laws.{IsLawful, IsBounded, IsRanked};

pub use by_class::{ByClass, Tariff};
pub use lex::Lex;
pub use one::One;
pub use pair::Pair;
use std::cmp::Ordering;

/// A value that means a list of whole numbers, with an exact sum, difference, multiple and comparison (own).
///
/// Values are a commutative group with a total order that adding keeps, whatever their kind.
pub trait Cost: Copy {
    /// What a value means, apart from how it is kept.
    ghost Meaning: { Type 0 };

    ghost meaning: { Self → Meaning };

    /// Zero, sum, negative and order of meanings.
    ghost scale: { Scale Meaning };

    /// Whether each whole number is at most the bound in size.
    ghost within: { ℤ → Meaning → Bool };

    /// How many ranks there are for the values that fit a bound.
    ghost size: { ℕ → ℕ };

    /// The rank of a value that fits a bound.
    ghost rank: { ℕ → Meaning → ℕ };

    /// Nothing: all numbers are 0.
    fn zero() -> Self
        ensures { meaning result ≡ scale.none };

    /// The sum of two values that fit 2^100.
    fn add(self, other: Self) -> Self
        requires left { IsTrue (within (pos (2 ^ 100)) (meaning self)) }
        requires right { IsTrue (within (pos (2 ^ 100)) (meaning other)) }
        ensures { meaning result ≡ scale.plus (meaning self) (meaning other) };

    /// The difference of two values that fit 2^100.
    fn sub(self, other: Self) -> Self
        requires left { IsTrue (within (pos (2 ^ 100)) (meaning self)) }
        requires right { IsTrue (within (pos (2 ^ 100)) (meaning other)) }
        ensures { meaning result ≡ scale.plus (meaning self) (scale.minus (meaning other)) };

    /// A value that fits 2^60, taken so many times: as many sums, or the negative of as many where the count is below 0.
    fn times(self, count: i64) -> Self
        requires { IsTrue (within (pos (2 ^ 60)) (meaning self)) }
        ensures { meaning result ≡ multiple scale count (meaning self) };

    /// Which of two values is greater.
    fn cmp(self, other: Self) -> Ordering
        ensures { result ≡ scale.order (meaning self) (meaning other) };

    /// Whether each number is at most the bound in size. None is at most a bound below 0.
    fn fits(self, bound: i128) -> bool
        ensures { result ≡ within bound (meaning self) };

    /// A commutative group with a total order that adding keeps.
    ghost lawful: { IsLawful scale };

    /// Zero fits 0; a sum or difference fits the sum of its parts' bounds, a multiple the bound times the count's size, and what fits a bound fits a wider one.
    ghost bounded: { IsBounded scale within };

    /// The values that fit a bound have ranks below a size, in their order.
    ghost ranked: { IsRanked scale within size rank };
}
