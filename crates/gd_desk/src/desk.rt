//! A desk, and why there is none.

ghost use Rattle.std.specs.Prelude.{◌≡◌, Some};
ghost use Rattle.gd_desk.specs.Desks.{desk_fault_name};

use gd_office_part::Receipt;
use gd_question::Question;
use std::alloc::AllocError;
use std::fmt;

/// What the desk of a slot did at a moment.
#[derive(Drop)]
pub struct Desk {
    /// The receipt of its freeze.
    pub froze: Receipt,
    /// The question that was frozen then, by this freeze or by one before it.
    pub question: Option<Question>,
    /// The receipt of its publish or declare, where a question was frozen.
    pub closed: Option<Receipt>,
}

/// Why a slot has no desk. A freeze that was accepted stands all the same. It is printed by its name.
#[derive(Clone, Copy, Debug, PartialEq, Eq, Drop)]
pub enum DeskFault {
    /// A thread could not be started.
    NoThread,
    /// Memory was refused.
    OutOfMemory,
}

impl From<AllocError> for DeskFault {
    fn from(_e: AllocError) -> DeskFault
        ensures { result ≡ DeskFault.OutOfMemory }
    {
        DeskFault::OutOfMemory
    }
}

impl fmt::Display for DeskFault {
    ghost output = { λ f. Some (desk_fault_name f) };

    fn fmt<W: fmt::Write>(&self, f: &mut fmt::Formatter<W>) -> fmt::Result {
        match self {
            DeskFault::NoThread => f.write_str("NoThread"),
            DeskFault::OutOfMemory => f.write_str("OutOfMemory"),
        }
    }
}
