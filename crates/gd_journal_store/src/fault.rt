//! Why a call is refused.

use sqlite::Error;

/// Why a file is no journal, or a call on it is refused.
#[derive(Debug, Drop)]
pub enum StoreFault {
    /// The file has tables, and they are not a journal's.
    NotAJournal,
    /// A piece is missing, has another number than 1, 2, 3 and so on, or isn't of bytes.
    Damaged,
    /// The call is inside the caller's own transaction, or SQL, memory or the disk failed.
    Store(Error),
}

impl From<Error> for StoreFault {
    ghost use Rattle.std.specs.Prelude.{◌≡◌};
    ghost use Rattle.gd_journal_store.specs.declared.fault.StoreFault.TheVariants.{Store};

    ghost from_gives = { λ error fault. fault ≡ Store error };

    fn from(error: Error) -> StoreFault {
        StoreFault::Store(error)
    }
}
