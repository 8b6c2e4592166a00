//! Lists of numbers, of which the first that differs decides.

ghost use Rattle.std.specs.Prelude.{◌≡◌, ℕ, ℤ, ◌<◌, slice_get};
ghost use Rattle.gd_scale.specs.Words.{words, words_fit};
ghost use Rattle.gd_scale.specs.Sizes.{words_size, words_rank};
ghost use Rattle.gd_scale.proofs.Words.{words_lawful};
ghost use Rattle.gd_scale.proofs.Bounds.{words_bounded, words_ranked};

use crate::{Cost, word};
use std::cmp::Ordering;

/// A list of whole numbers, the words, of which the first that differ decide.
#[derive(Clone, Copy, Debug, PartialEq, Eq)]
pub struct Lex<const L: usize> {
    words: [i128; L],
}

impl<const L: usize> Lex<L> {
    ghost use Rattle.gd_cost.specs.Made.{list_of};

    /// The cost of these words, the one that decides first at the front.
    pub fn of(words: [i128; L]) -> Lex<L>
        ensures { list_of result ≡ words.entry }
    {
        Self { words }
    }

    /// The word of this number, counted from 0, or `None` past the last.
    pub fn word(self, at: usize) -> Option<i128>
        ensures { result ≡ slice_get (list_of self.entry) at }
    {
        self.words.get(at).copied()
    }
}

impl<const L: usize> Cost for Lex<L> {
    ghost use Rattle.gd_cost.specs.Parts.{words_of};

    ghost Meaning = { ℕ → ℤ };

    ghost meaning = { words_of L };

    ghost scale = { words L };

    ghost within = { words_fit L };

    ghost size = { words_size L };

    ghost rank = { words_rank L };

    ghost lawful = { words_lawful L };

    ghost bounded = { words_bounded L };

    ghost ranked = { words_ranked L };

    fn zero() -> Lex<L> {
        Lex { words: [0; L] }
    }

    fn add(self, other: Lex<L>) -> Lex<L> {
        let mut words = [0; L];
        for i in 0..L {
            words[i] = word::plus(self.words[i], other.words[i]);
        }
        Lex { words }
    }

    fn sub(self, other: Lex<L>) -> Lex<L> {
        let mut words = [0; L];
        for i in 0..L {
            words[i] = word::less(self.words[i], other.words[i]);
        }
        Lex { words }
    }

    fn times(self, count: i64) -> Lex<L> {
        let mut words = [0; L];
        for i in 0..L {
            words[i] = word::times(self.words[i], count);
        }
        Lex { words }
    }

    fn cmp(self, other: Lex<L>) -> Ordering {
        let mut answer = Ordering::Equal;
        for i in 0..L {
            answer = answer.then(self.words[i].cmp(&other.words[i]));
        }
        answer
    }

    fn fits(self, bound: i128) -> bool {
        let mut answer = true;
        for i in 0..L {
            answer = answer && word::fits(self.words[i], bound);
        }
        answer
    }
}
