//! Who opens the file of an archive, or of a book.

use sqlite::{Alter, Connection, Error};

/// Who opens the file of an order.
pub trait Opener<S: Alter + Drop>: Drop {
    ghost use Rattle.std.specs.Prelude.{Result};
    ghost use Rattle.sqlite.specs.Held.{Held};
    ghost use Rattle.sqlite.specs.declared.error.Error.{Error as AnError};

    // What it may give.
    ghost opens: { Self → Result (Held S) AnError → Type 0 };

    /// The file, or why it can't be opened.
    fn open(self) -> Result<Connection<S>, Error>
        ensures { opens self result };
}
