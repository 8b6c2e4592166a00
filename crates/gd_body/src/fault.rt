//! What is wrong with a body.

ghost use Rattle.std.specs.Prelude.{◌≡◌};
ghost use Rattle.gd_body.specs.Body.{fault_from};
ghost use Rattle.gd_body.specs.declared.fault.BodyFault.TheVariants.{OutOfMemory};

use gd_text_part::TextFault;
use std::alloc::{AllocError, AllocFailed};

/// Why a body is not read or not written.
#[derive(Clone, Copy, Debug, PartialEq, Eq)]
pub enum BodyFault {
    /// The text says no posting, or is too long for a text.
    Damaged,
    /// Memory was refused.
    OutOfMemory,
}

impl From<AllocError> for BodyFault {
    ghost from_gives = { λ _ e. e ≡ OutOfMemory };

    fn from(_e: AllocError) -> BodyFault {
        BodyFault::OutOfMemory
    }
}

impl<T: Drop> From<AllocFailed<T>> for BodyFault {
    ghost from_gives = { λ _ e. e ≡ OutOfMemory };

    fn from(_e: AllocFailed<T>) -> BodyFault {
        BodyFault::OutOfMemory
    }
}

impl From<TextFault> for BodyFault {
    ghost from_gives = { λ f e. e ≡ fault_from f };

    fn from(fault: TextFault) -> BodyFault {
        match fault {
            TextFault::OutOfMemory => BodyFault::OutOfMemory,
            _ => BodyFault::Damaged,
        }
    }
}
