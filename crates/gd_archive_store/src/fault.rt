//! Why a call is refused.

use sqlite::Error;

/// Why a call is refused that makes an archive or reads one.
#[derive(Debug, Drop)]
pub enum StoreFault {
    /// The version is 1, whatever tables stand behind it.
    OldVersion,
    /// The file is no archive of version 1 or 2, the call is inside the caller's own transaction, or SQL failed.
    Store(Error),
}

/// Why a posting is not kept.
#[derive(Debug, Drop)]
pub enum KeepFault {
    /// The version is 1, whatever tables stand behind it.
    OldVersion,
    /// There is a posting of this book and cycle.
    Kept,
    /// The file is no archive of version 1 or 2, the call is inside the caller's own transaction, or SQL failed.
    Store(Error),
}

/// Why an archive is not migrated.
#[derive(Debug, Drop)]
pub enum MigrateFault {
    /// The version is not 1, whatever tables stand behind it.
    OtherVersion,
    /// The file is no archive of version 1, a row has no book or no cycle, the call is inside the caller's own transaction,
    /// SQL failed, or a body could not be rewritten.
    Store(Error),
}

impl From<Error> for StoreFault {
    ghost use Rattle.std.specs.Prelude.{◌≡◌};
    ghost use Rattle.gd_archive_store.specs.declared.fault.StoreFault.TheVariants.{Store};

    ghost from_gives = { λ error fault. fault ≡ Store error };

    fn from(error: Error) -> StoreFault {
        StoreFault::Store(error)
    }
}

impl From<Error> for KeepFault {
    ghost use Rattle.std.specs.Prelude.{◌≡◌};
    ghost use Rattle.gd_archive_store.specs.declared.fault.KeepFault.TheVariants.{Store};

    ghost from_gives = { λ error fault. fault ≡ Store error };

    fn from(error: Error) -> KeepFault {
        KeepFault::Store(error)
    }
}

impl From<StoreFault> for KeepFault {
    ghost use Rattle.std.specs.Prelude.{◌≡◌};
    ghost use Rattle.gd_archive_store.specs.Calls.{kept_fault};

    ghost from_gives = { λ error fault. fault ≡ kept_fault error };

    fn from(error: StoreFault) -> KeepFault {
        match error {
            StoreFault::OldVersion => KeepFault::OldVersion,
            StoreFault::Store(error) => KeepFault::Store(error),
        }
    }
}

impl From<Error> for MigrateFault {
    ghost use Rattle.std.specs.Prelude.{◌≡◌};
    ghost use Rattle.gd_archive_store.specs.declared.fault.MigrateFault.TheVariants.{Store};

    ghost from_gives = { λ error fault. fault ≡ Store error };

    fn from(error: Error) -> MigrateFault {
        MigrateFault::Store(error)
    }
}
