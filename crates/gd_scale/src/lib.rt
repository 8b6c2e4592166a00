//! What schedules are counted in, apart from any tariff: sums, values that can be added and compared, and values of several
//! words. Definitions that the other crates' contracts cite, and what follows from them alone.
#![tactic(auto)]

ghost use Rattle.std.specs.Prelude.{ℕ};
ghost use Rattle.gd_scale.specs.Laws.{IsLawful};
ghost use Rattle.gd_scale.specs.Words.{both, words};
ghost use Rattle.gd_scale.specs.Sizes.{whole};

/// Whole numbers are a commutative group with a total order that adding keeps.
pub fn whole_numbers_are_lawful()
    ensures { IsLawful whole }
{}

/// So are any number of words, which are compared at the first where they differ.
pub fn words_are_lawful()
    ensures { (n : ℕ) → IsLawful (words n) }
{}

/// So are two groups of words, of which the first decides.
pub fn groups_of_words_are_lawful()
    ensures { (m n : ℕ) → IsLawful (both (words m) (words n)) }
{}
