//! Why a run ended early.

ghost use Rattle.std.specs.Prelude.{◌≡◌};
ghost use Rattle.gd_office_run.specs.Faults.{fault_of_sending, fault_of_desk};
ghost use Rattle.gd_office_run.specs.declared.fault.RunFault.TheVariants.{OutOfMemory};

use gd_desk::DeskFault;
use gd_office_part::SendFault;
use gd_replies::Reply;
use std::alloc::AllocError;

/// Why a run ended early.
#[derive(Clone, Copy, Debug, PartialEq, Eq, Drop)]
pub enum RunFault {
    /// A thread could not be started.
    NoThread,
    /// As many sessions of a slot are open as may be. A slot that isn't there, which no text names, is told alike.
    TooMany,
    /// Memory was refused.
    OutOfMemory,
}

impl From<AllocError> for RunFault {
    ghost from_gives = { λ _ f. f ≡ OutOfMemory };

    fn from(_e: AllocError) -> RunFault {
        RunFault::OutOfMemory
    }
}

impl From<SendFault> for RunFault {
    ghost from_gives = { λ why f. f ≡ fault_of_sending why };

    fn from(fault: SendFault) -> RunFault {
        match fault {
            SendFault::OtherSlot => RunFault::TooMany,
            SendFault::NoThread => RunFault::NoThread,
            SendFault::OutOfMemory => RunFault::OutOfMemory,
        }
    }
}

impl From<DeskFault> for RunFault {
    ghost from_gives = { λ why f. f ≡ fault_of_desk why };

    fn from(fault: DeskFault) -> RunFault {
        match fault {
            DeskFault::NoThread => RunFault::NoThread,
            DeskFault::OutOfMemory => RunFault::OutOfMemory,
        }
    }
}
