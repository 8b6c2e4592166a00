//! How a posting is checked, and why a call of an archive is refused.

ghost use Rattle.std.specs.Prelude.{◌≡◌};
ghost use Rattle.gd_archive.specs.Soundness.{number};

use gd_archive_store::StoreFault;
use gd_certificate::CertFault;
use gd_units::{CycleNo, Name};
use sqlite::{Error, ErrorCode};

/// What is told of a row that no archive has.
pub(crate) const NO_ARCHIVE: Error = Error::SqliteFailure(ErrorCode::NotADatabase);

/// What is told where memory is wanting.
pub(crate) const NO_MEMORY: Error = Error::SqliteFailure(ErrorCode::OutOfMemory);

/// The rule that the prices of a posting were made for.
#[derive(Clone, Copy, Debug, PartialEq, Eq)]
pub enum Rule {
    /// Class totals alone, as before the spread: each price is one list of words. Such postings come from archives of version 1.
    Classes,
    /// The tariff in force: class totals, and then an even spread.
    Spread,
}

impl Rule {
    /// The number by which an archive keeps it.
    pub fn number(self) -> u8
        ensures { result ≡ number self }
    {
        match self {
            Rule::Classes => 1,
            Rule::Spread => 2,
        }
    }
}

/// What is wrong with a row of an archive.
#[derive(Clone, Copy, Debug, PartialEq, Eq)]
pub enum Unsound {
    /// Its body is no posting, or one of another book, cycle or round than the row's.
    Damaged,
    /// The posting's schedule or prices don't pass the check of its rule.
    Uncertified(CertFault),
}

/// Why a posting is not fetched.
#[derive(Debug, Drop)]
pub enum FetchFault {
    /// The version is 1, whatever tables stand behind it.
    OldVersion,
    /// The database refused, it is no archive, or its row is none.
    Store(Error),
    /// The body is no posting, or one of another book, cycle or round than the row's.
    Damaged,
}

/// Why an archive is not found sound.
#[derive(Debug, Drop)]
pub enum AuditFault {
    /// The version is 1, whatever tables stand behind it.
    OldVersion,
    /// The database refused, it is no archive, or one of its rows is none.
    Store(Error),
    /// The first row by book, then cycle, that does not hold what it should.
    Unsound(Name, CycleNo, Unsound),
}

impl From<StoreFault> for FetchFault {
    ghost use Rattle.std.specs.Prelude.{◌≡◌};
    ghost use Rattle.gd_archive.specs.Faults.{fetch_fault};

    ghost from_gives = { λ error fault. fault ≡ fetch_fault error };

    fn from(fault: StoreFault) -> FetchFault {
        match fault {
            StoreFault::OldVersion => FetchFault::OldVersion,
            StoreFault::Store(error) => FetchFault::Store(error),
        }
    }
}

impl From<StoreFault> for AuditFault {
    ghost use Rattle.std.specs.Prelude.{◌≡◌};
    ghost use Rattle.gd_archive.specs.Faults.{audit_fault};

    ghost from_gives = { λ error fault. fault ≡ audit_fault error };

    fn from(fault: StoreFault) -> AuditFault {
        match fault {
            StoreFault::OldVersion => AuditFault::OldVersion,
            StoreFault::Store(error) => AuditFault::Store(error),
        }
    }
}

impl From<Error> for AuditFault {
    ghost use Rattle.std.specs.Prelude.{◌≡◌};
    ghost use Rattle.gd_archive.specs.declared.fault.AuditFault.TheVariants.{Store};

    ghost from_gives = { λ error fault. fault ≡ Store error };

    fn from(error: Error) -> AuditFault {
        AuditFault::Store(error)
    }
}

impl From<Error> for FetchFault {
    ghost use Rattle.std.specs.Prelude.{◌≡◌};
    ghost use Rattle.gd_archive.specs.declared.fault.FetchFault.TheVariants.{Store};

    ghost from_gives = { λ error fault. fault ≡ Store error };

    fn from(error: Error) -> FetchFault {
        FetchFault::Store(error)
    }
}
