//! How turns end.

use gd_journal_store::StoreFault;
use std::alloc::AllocError;

/// Why lines are served no longer. The desk is ahead of the journal then, so the caller ends and never tries again.
#[derive(Debug, Drop)]
pub enum Failure {
    /// A read failed. Nothing of it was taken; all that was taken before is kept and told.
    ReadFailed,
    /// Memory ended. All that earlier reads brought is kept and told, and nothing of the last one is.
    OutOfMemory,
    /// The piece of the last read was refused. Nothing of it was told. A crash leaves it or not, as a whole.
    Store(StoreFault),
    /// A write or a flush failed. All that was taken is kept, and only the end of it may not be told. Nothing more is to be written.
    WriteFailed,
}

/// How a run came to the end of its input.
#[derive(Clone, Copy, Debug, PartialEq, Eq)]
pub enum Finish {
    /// Behind a whole line.
    Ended,
    /// Within a line, which was not taken.
    Unfinished,
}

impl From<AllocError> for Failure {
    ghost use Rattle.std.specs.Prelude.{◌≡◌};
    ghost use Rattle.gd_serving.specs.declared.failure.Failure.TheVariants.{OutOfMemory};

    ghost from_gives = { λ error failure. failure ≡ OutOfMemory };

    fn from(_error: AllocError) -> Failure {
        Failure::OutOfMemory
    }
}

impl From<StoreFault> for Failure {
    ghost use Rattle.std.specs.Prelude.{◌≡◌};
    ghost use Rattle.gd_serving.specs.declared.failure.Failure.TheVariants.{Store};

    ghost from_gives = { λ fault failure. failure ≡ Store fault };

    fn from(fault: StoreFault) -> Failure {
        Failure::Store(fault)
    }
}
