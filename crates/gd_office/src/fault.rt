//! Why an office can't be made, and why the sessions of a slot can't be closed. Faults are printed by their names.

ghost use Rattle.std.specs.Prelude.{Some};
ghost use Rattle.gd_office.specs.Faults.{open_fault_name, close_fault_name};

use std::fmt;

/// How many books an office may have.
pub const MAX_SLOTS: usize = 64;

/// Why books can't be put into an office.
#[derive(Clone, Copy, Debug, PartialEq, Eq, Drop)]
pub enum OpenFault {
    /// There are more than 64 books.
    TooMany,
    /// Two books have one name.
    Duplicate,
    /// Memory was refused.
    OutOfMemory,
}

/// Why the sessions of a slot can't be closed.
#[derive(Clone, Copy, Debug, PartialEq, Eq, Drop)]
pub enum CloseFault {
    /// There is no slot of this number.
    UnknownSlot,
    /// The session at this place, from 0, is the first of another slot.
    WrongSlot(usize),
    /// So many of the open sessions are not handed in. 0 stands for sums that differ from what the book gained.
    Missing(u64),
}

impl fmt::Display for OpenFault {
    ghost output = { λ f. Some (open_fault_name f) };

    fn fmt<W: fmt::Write>(&self, f: &mut fmt::Formatter<W>) -> fmt::Result {
        match self {
            OpenFault::TooMany => f.write_str("TooMany"),
            OpenFault::Duplicate => f.write_str("Duplicate"),
            OpenFault::OutOfMemory => f.write_str("OutOfMemory"),
        }
    }
}

impl fmt::Display for CloseFault {
    ghost output = { λ f. Some (close_fault_name f) };

    fn fmt<W: fmt::Write>(&self, f: &mut fmt::Formatter<W>) -> fmt::Result {
        match self {
            CloseFault::UnknownSlot => f.write_str("UnknownSlot"),
            CloseFault::WrongSlot(_) => f.write_str("WrongSlot"),
            CloseFault::Missing(_) => f.write_str("Missing"),
        }
    }
}
