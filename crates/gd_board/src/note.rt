//! What is known of a board.

ghost use Rattle.std.specs.Prelude.{◌≡◌, ℕ, IfSome};
ghost use Rattle.once_cell.specs.Once.{Agrees};

use crate::posting::Posting;
use once_cell::race::Note;
use std::marker::Model;

/// What somebody has seen of one board: for each cycle its posting, or that there was none yet.
///
/// A contract sees the cells of the board, and what is known of each.
#[derive(Drop)]
pub struct BoardNote {
    pub(crate) timely: Note<Posting>,
    pub(crate) evening: Note<Posting>,
    pub(crate) intraday_1: Note<Posting>,
    pub(crate) intraday_2: Note<Posting>,
    pub(crate) intraday_3: Note<Posting>,
}

impl Model for BoardNote {
    ghost use Rattle.std.specs.Prelude.{[], ◌∷◌};
    ghost use Rattle.gd_board.specs.Known.{Knowledge};

    ghost Value = { Knowledge };

    ghost view = { λ n. record {
      cells = n.timely.cell ∷ n.evening.cell ∷ n.intraday_1.cell ∷ n.intraday_2.cell
          ∷ n.intraday_3.cell ∷ [];
      known = n.timely.known ∷ n.evening.known ∷ n.intraday_1.known ∷ n.intraday_2.known
          ∷ n.intraday_3.known ∷ [];
    } };
}

impl BoardNote {
    ghost use Rattle.gd_board.specs.Known.{known_of};

    /// Two notes of one board that know a posting of a cycle know the same one. The other note is used up.
    pub fn compare(&mut self, other: BoardNote)
        requires { other.cells ≡ self.old.cells }
        ensures same { self.new ≡ self.old }
        ensures agree { (cycle : ℕ)
            → IfSome (known_of other cycle) (Agrees (known_of self.old cycle)) }
    {
        let BoardNote {
            timely,
            evening,
            intraday_1,
            intraday_2,
            intraday_3,
        } = other;
        self.timely.compare(timely);
        self.evening.compare(evening);
        self.intraday_1.compare(intraday_1);
        self.intraday_2.compare(intraday_2);
        self.intraday_3.compare(intraday_3);
    }
}
