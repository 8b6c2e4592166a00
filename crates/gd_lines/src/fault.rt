//! Why a nomination is refused.

ghost use Rattle.std.specs.Prelude.{◌≡◌, Some};
ghost use Rattle.gd_lines.specs.Names.{lines_fault_name};
ghost use Rattle.gd_lines.specs.declared.fault.LinesFault.TheVariants.{OutOfMemory};

use std::alloc::AllocError;
use std::fmt;

/// Why a nomination is refused, the first reason in this order. It is printed by its name.
#[derive(Clone, Copy, Debug, PartialEq, Eq, Drop)]
pub enum LinesFault {
    /// It would be the 20,001st line.
    TooManyLines,
    /// Memory was refused.
    OutOfMemory,
}

impl From<AllocError> for LinesFault {
    ghost from_gives = { λ _ e. e ≡ OutOfMemory };

    fn from(_e: AllocError) -> LinesFault {
        LinesFault::OutOfMemory
    }
}

impl fmt::Display for LinesFault {
    ghost output = { λ f. Some (lines_fault_name f) };

    fn fmt<W: fmt::Write>(&self, f: &mut fmt::Formatter<W>) -> fmt::Result {
        match self {
            LinesFault::TooManyLines => f.write_str("TooManyLines"),
            LinesFault::OutOfMemory => f.write_str("OutOfMemory"),
        }
    }
}
