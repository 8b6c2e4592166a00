//! What is kept of lines is a book: laws of what lines give.

ghost use Rattle.std.specs.Prelude.{ℕ, List, ◌++◌};
ghost use Rattle.gd_machine.specs.Day.{Day};
ghost use Rattle.gd_machine.specs.History.{History};
ghost use Rattle.gd_serving.specs.Yields.{Yield, LinesGive, rows_of, replies_of};
ghost use Rattle.gd_live.specs.Kept.{AreCalls};
ghost use Rattle.gd_live.specs.Stands.{Stand, IsGroup};
ghost use Rattle.gd_live.specs.Lines.{Gives};

/// What is kept of lines are calls of the book, told as a run of them tells. So a file that keeps it is a text of that day
/// behind its opening, with the answer of `day` beside it, whatever faults came in between.
pub fn what_is_kept_are_calls()
    ensures { (s t : Stand) (lines : List (List ℕ)) (ys : List Yield) → IsGroup s.number s.group
        → LinesGive Gives s lines t ys → AreCalls s.day s.history (rows_of ys) (replies_of ys) t.history }
{}

/// Calls that follow calls are calls of one run.
pub fn calls_go_on()
    ensures { (day : Day) (h between after : History) (rows replies more told : List ℕ)
        → AreCalls day h rows replies between → AreCalls day between more told after
        → AreCalls day h (rows ++ more) (replies ++ told) after }
{}
