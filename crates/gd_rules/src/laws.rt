//! What holds of questions without floors, and of those whose lines have the first four classes alone.

ghost use Rattle.std.specs.Prelude.{◌≡◌, ◌↔◌, ℕ, ℤ, List, ◌<◌, length, replicate};
ghost use Rattle.gd_rules.specs.Question.{Question, line};
ghost use Rattle.gd_rules.specs.Schedule.{IsAllowed, HasBetterTotals};
ghost use Rattle.gd_rules.specs.Cut.{Side, IsCut};
ghost use Rattle.gd_rules.specs.Limits.{classes};
ghost use Rattle.gd_rules.specs.Tariff.{IsPricedByClasses};
ghost use Rattle.gd_rules.specs.Classes.{HasClasses, HasBetterAmong, IsBestAmong, IsPricedAmong, with_zeros};

/// Where no line has a floor no set is a cut.
pub fn no_cut_without_floors()
    ensures { (q : Question) (side : Side) → ((i : ℕ) → i < length q.lines → (line q i).floor ≡ 0)
        → IsCut q side → ⊥ }
{}

/// Where no line has a floor the zeros are allowed.
pub fn zeros_are_allowed()
    ensures { (q : Question) → ((i : ℕ) → i < length q.lines → (line q i).floor ≡ 0)
        → IsAllowed q (replicate (length q.lines) 0) }
{}

/// Better by eight classes is better by class totals.
pub fn eight_classes_are_all()
    ensures { (q : Question) (a b : List ℕ)
        → (HasBetterAmong classes q a b ↔ HasBetterTotals q a b) }
{}

/// Where all lines have classes 1 to 4, best by these is best by all eight.
pub fn four_classes_are_best_among_eight()
    ensures { (q : Question) (schedule : List ℕ) → HasClasses 4 q
        → (IsBestAmong 4 q schedule ↔ IsBestAmong classes q schedule) }
{}

/// Where all lines have classes 1 to 4, prices of four words are right by classes exactly where they are with four zeros added.
pub fn four_words_price_as_eight()
    ensures { (q : Question) (schedule : List ℕ) (prices : List (ℕ → ℤ)) → HasClasses 4 q
        → (IsPricedAmong 4 q schedule prices ↔ IsPricedByClasses q schedule (with_zeros 4 prices)) }
{}
