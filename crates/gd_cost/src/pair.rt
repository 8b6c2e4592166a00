//! Pairs of values, of which the first decides before the second.

ghost use Rattle.std.specs.Prelude.{◌≡◌};
ghost use Rattle.gd_scale.specs.Words.{both};
ghost use Rattle.gd_scale.specs.Sizes.{both_fit, both_size, both_rank};
ghost use Rattle.gd_scale.proofs.Words.{both_lawful};
ghost use Rattle.gd_scale.proofs.Bounds.{both_bounded, both_ranked};

use crate::Cost;
use std::cmp::Ordering;

/// Two costs, of which the first decides, and the second where the first are level.
#[derive(Clone, Copy, Debug, PartialEq, Eq)]
pub struct Pair<A, B> {
    first: A,
    second: B,
}

impl<A: Copy, B: Copy> Pair<A, B> {
    ghost use Rattle.gd_cost.specs.Made.{first_of, second_of};

    /// The cost of these two parts.
    pub fn of(first: A, second: B) -> Pair<A, B>
        ensures first { first_of result ≡ first }
        ensures second { second_of result ≡ second }
    {
        Pair { first, second }
    }

    /// The part that decides first.
    pub fn first(self) -> A
        ensures { result ≡ first_of self }
    {
        self.first
    }

    /// The part that decides where the first parts are level.
    pub fn second(self) -> B
        ensures { result ≡ second_of self }
    {
        self.second
    }
}

impl<A: Cost, B: Cost> Cost for Pair<A, B> {
    ghost Meaning = { A.Meaning × B.Meaning };

    ghost meaning = { λ x. (A.meaning x.first, B.meaning x.second) };

    ghost scale = { both A.scale B.scale };

    ghost within = { both_fit A.within B.within };

    ghost size = { both_size A.size B.size };

    ghost rank = { both_rank A.rank B.size B.rank };

    ghost lawful = { both_lawful A.scale B.scale A.lawful B.lawful };

    ghost bounded = { both_bounded A.scale B.scale A.bounded B.bounded };

    ghost ranked = { both_ranked A.scale B.scale A.ranked B.ranked };

    fn zero() -> Pair<A, B> {
        Pair {
            first: A::zero(),
            second: B::zero(),
        }
    }

    fn add(self, other: Pair<A, B>) -> Pair<A, B> {
        Pair {
            first: self.first.add(other.first),
            second: self.second.add(other.second),
        }
    }

    fn sub(self, other: Pair<A, B>) -> Pair<A, B> {
        Pair {
            first: self.first.sub(other.first),
            second: self.second.sub(other.second),
        }
    }

    fn times(self, count: i64) -> Pair<A, B> {
        Pair {
            first: self.first.times(count),
            second: self.second.times(count),
        }
    }

    fn cmp(self, other: Pair<A, B>) -> Ordering {
        let first = self.first.cmp(other.first);
        first.then(self.second.cmp(other.second))
    }

    fn fits(self, bound: i128) -> bool {
        self.first.fits(bound) && self.second.fits(bound)
    }
}
