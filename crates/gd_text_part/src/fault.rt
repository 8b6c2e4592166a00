//! What is wrong with a text.

ghost use Rattle.std.specs.Prelude.{◌≡◌, Some};
ghost use Rattle.gd_text_part.specs.Causes.{cause_text, fault_text};
ghost use Rattle.gd_text_part.specs.declared.fault.TextFault.TheVariants.{OutOfMemory, Row};

use gd_contracts::ContractFault;
use gd_question::{CapacityFault, LineFault};
use gd_system::BuildFault;
use std::alloc::{AllocError, AllocFailed};
use std::error::Error;
use std::fmt;

/// What is wrong with a row of a text (own).
///
/// It is printed as two fields: its name, and the number of the field or nothing. What a crate below refuses is printed by
/// its own name there.
#[derive(Clone, Copy, Debug, PartialEq, Eq)]
pub enum Cause {
    /// The row has not exactly eight fields.
    FieldCount,
    /// The first field names no kind of row.
    UnknownKind,
    /// The command takes no row of this kind, or not here.
    Order,
    /// The least field, the kind being field 1, that is not of its form, out of its range or out of
    /// sequence, or that should be empty.
    BadField(usize),
    /// There is no head, a `question` or `day` row; or a block of an office has none. It is told at one row past the last.
    Missing,
    /// The row begins one more block, or one more session of its phase or slot, than an office may have.
    Limit,
    /// The segment, point or pool is refused; or the pipeline, which has no segment, at one row past the last.
    Build(BuildFault),
    /// The contract is refused.
    Contract(ContractFault),
    /// The capacity is refused.
    Capacity(CapacityFault),
    /// The line is refused.
    Line(LineFault),
    /// Nothing that the row may speak of has this name.
    UnknownElement,
    /// An element's price at this class is given already, or the line's quantity is carried already.
    Duplicate,
}

/// What is wrong with a text, and at which row, counted from 1.
#[derive(Clone, Copy, Debug, PartialEq, Eq)]
pub struct RowFault {
    pub row: u64,
    pub cause: Cause,
}

/// Why a text could not be read.
///
/// It is printed as three fields: the row, 0 where none is blamed, the name, and the number of the field or nothing.
#[derive(Clone, Copy, Debug, PartialEq, Eq)]
pub enum TextFault {
    /// A read failed, for whatever reason.
    ReadFailed,
    /// The text has more bytes or rows than it may have, or takes more reads.
    TooLong,
    /// The first fault of the text, and its row, counted from 1.
    Row { row: u64, cause: Cause },
    /// A growth was refused.
    OutOfMemory,
}

impl Error for TextFault {}

impl TextFault {
    /// What is wrong with a row.
    pub fn at(row: u64, cause: Cause) -> TextFault
        ensures { result ≡ Row row cause }
    {
        TextFault::Row { row, cause }
    }
}

impl From<RowFault> for TextFault {
    ghost from_gives = { λ f e. e ≡ Row f.row f.cause };

    fn from(fault: RowFault) -> TextFault {
        TextFault::at(fault.row, fault.cause)
    }
}

impl From<AllocError> for TextFault {
    ghost from_gives = { λ _ e. e ≡ OutOfMemory };

    fn from(_e: AllocError) -> TextFault {
        TextFault::OutOfMemory
    }
}

impl<T: Drop> From<AllocFailed<T>> for TextFault {
    ghost from_gives = { λ _ e. e ≡ OutOfMemory };

    fn from(_e: AllocFailed<T>) -> TextFault {
        TextFault::OutOfMemory
    }
}

impl fmt::Display for Cause {
    ghost output = { λ c. Some (cause_text c) };

    fn fmt<W: fmt::Write>(&self, f: &mut fmt::Formatter<W>) -> fmt::Result {
        match self {
            Cause::FieldCount => f.write_str("FieldCount,"),
            Cause::UnknownKind => f.write_str("UnknownKind,"),
            Cause::Order => f.write_str("Order,"),
            Cause::BadField(k) => write!(f, "BadField,{k}"),
            Cause::Missing => f.write_str("Missing,"),
            Cause::Limit => f.write_str("Limit,"),
            Cause::Build(fault) => write!(f, "{fault},"),
            Cause::Contract(fault) => write!(f, "{fault},"),
            Cause::Capacity(fault) => write!(f, "{fault},"),
            Cause::Line(fault) => write!(f, "{fault},"),
            Cause::UnknownElement => f.write_str("UnknownElement,"),
            Cause::Duplicate => f.write_str("Duplicate,"),
        }
    }
}

impl fmt::Display for TextFault {
    ghost output = { λ f. Some (fault_text f) };

    fn fmt<W: fmt::Write>(&self, f: &mut fmt::Formatter<W>) -> fmt::Result {
        match self {
            TextFault::ReadFailed => f.write_str("0,ReadFailed,"),
            TextFault::TooLong => f.write_str("0,TooLong,"),
            TextFault::Row { row, cause } => write!(f, "{row},{cause}"),
            TextFault::OutOfMemory => f.write_str("0,OutOfMemory,"),
        }
    }
}
