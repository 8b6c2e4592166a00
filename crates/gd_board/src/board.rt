//! A board of five cells, each set at most once.

ghost use Rattle.std.specs.Prelude.{◌≡◌, ◌≢◌, ℕ, ◌≤◌, None, Some, IsSome, IfSome, MatchResult};
ghost use Rattle.std.specs.Option.{MatchOption};
ghost use Rattle.once_cell.specs.Once.{Agrees};

use crate::note::BoardNote;
use crate::posting::Posting;
use gd_units::CycleNo;
use once_cell::race::OnceBox;
use std::alloc::Global;
use std::marker::Model;

/// A cell for the posting of each cycle of a gas day.
///
/// A contract sees the cells, which are no other board's.
#[derive(Drop)]
pub struct Board {
    timely: OnceBox<Posting>,
    evening: OnceBox<Posting>,
    intraday_1: OnceBox<Posting>,
    intraday_2: OnceBox<Posting>,
    intraday_3: OnceBox<Posting>,
}

impl Model for Board {
    ghost use Rattle.std.specs.Prelude.{ℕ, List, [], ◌∷◌};
    ghost use Rattle.once_cell.specs.Once.{cell_name};

    ghost Value = { List ℕ };

    ghost view = { λ b. cell_name b.timely ∷ cell_name b.evening ∷ cell_name b.intraday_1
        ∷ cell_name b.intraday_2 ∷ cell_name b.intraday_3 ∷ [] };
}

impl Board {
    ghost use Rattle.gd_board.specs.Known.{known_of};

    /// A board with nothing posted.
    pub fn new(alloc: Global) -> Board {
        Board {
            timely: OnceBox::new(alloc),
            evening: OnceBox::new(alloc),
            intraday_1: OnceBox::new(alloc),
            intraday_2: OnceBox::new(alloc),
            intraday_3: OnceBox::new(alloc),
        }
    }

    /// A note of this board that knows nothing yet.
    pub fn note(&self) -> BoardNote
        ensures board { result.cells ≡ self.now }
        ensures nothing { (cycle : ℕ) → known_of result cycle ≡ None }
    {
        BoardNote {
            timely: self.timely.note(),
            evening: self.evening.note(),
            intraday_1: self.intraday_1.note(),
            intraday_2: self.intraday_2.note(),
            intraday_3: self.intraday_3.note(),
        }
    }

    /// The posting of a cycle, if there is one yet. A note that knows it is never answered `None`. It asks for a note of this
    /// board, which knows the posting from then on.
    pub fn read<'a>(&'a self, cycle: CycleNo, note: &mut BoardNote) -> Option<&'a Posting>
        requires { note.old.cells ≡ self.now }
        ensures board { note.new.cells ≡ note.old.cells }
        ensures others { (other : ℕ) → 1 ≤ other → other ≢ cycle
            → known_of note.new other ≡ known_of note.old other }
        ensures value { MatchOption result
            ((known_of note.old cycle ≡ None) × (known_of note.new cycle ≡ None))
            (λ posting. (known_of note.new cycle ≡ Some posting.now)
            × Agrees (known_of note.old cycle) posting.now) }
    {
        match cycle.number() {
            1 => self.timely.get_as(&mut note.timely),
            2 => self.evening.get_as(&mut note.evening),
            3 => self.intraday_1.get_as(&mut note.intraday_1),
            4 => self.intraday_2.get_as(&mut note.intraday_2),
            _ => self.intraday_3.get_as(&mut note.intraday_3),
        }
    }

    /// Posts what is published of a cycle, for good, or hands it back where something is posted there already. It asks for a
    /// note of this board, which knows the cycle's posting from then on, whoever posted it.
    pub fn post(
        &self,
        cycle: CycleNo,
        note: &mut BoardNote,
        posting: Box<Posting>,
    ) -> Result<(), Box<Posting>>
        requires { note.old.cells ≡ self.now }
        ensures board { note.new.cells ≡ note.old.cells }
        ensures others { (other : ℕ) → 1 ≤ other → other ≢ cycle
            → known_of note.new other ≡ known_of note.old other }
        ensures knows { IsSome (known_of note.new cycle) }
        ensures for_good { IfSome (known_of note.old cycle)
            (λ former. known_of note.new cycle ≡ Some former) }
        ensures value { MatchResult result
            (λ _. (known_of note.new cycle ≡ Some posting.value) × (known_of note.old cycle ≡ None))
            (λ back. back.value ≡ posting.value) }
    {
        match cycle.number() {
            1 => self.timely.set_as(posting, &mut note.timely),
            2 => self.evening.set_as(posting, &mut note.evening),
            3 => self.intraday_1.set_as(posting, &mut note.intraday_1),
            4 => self.intraday_2.set_as(posting, &mut note.intraday_2),
            _ => self.intraday_3.set_as(posting, &mut note.intraday_3),
        }
    }
}
