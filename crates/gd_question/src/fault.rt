//! Why another capacity or a line is refused.

ghost use Rattle.std.specs.Prelude.{◌≡◌, Some};
ghost use Rattle.gd_question.specs.Names.{capacity_fault_name, line_fault_name};
ghost use Rattle.gd_question.specs.declared.fault.LineFault.TheVariants.{Route, OutOfMemory};

use gd_system::RouteFault;
use std::alloc::AllocError;
use std::fmt;

/// Why another capacity is refused. It is printed by its name.
#[derive(Clone, Copy, Debug, PartialEq, Eq, Drop)]
pub enum CapacityFault {
    /// No element has this number.
    UnknownElement,
    /// A pool has no capacity.
    IsPool,
}

/// Why a line is refused, the first reason in this order. It is printed by its name, and a refusal of the route by its own.
#[derive(Clone, Copy, Debug, PartialEq, Eq, Drop)]
pub enum LineFault {
    /// There is no route between the ends.
    Route(RouteFault),
    /// The floor is above the ceiling.
    FloorAboveCeiling,
    /// The class is 0 or above 8.
    BadClass,
    /// The 20,001st line.
    TooMany,
    /// Memory was refused.
    OutOfMemory,
}

impl From<RouteFault> for LineFault {
    ghost from_gives = { λ f e. e ≡ Route f };

    fn from(fault: RouteFault) -> LineFault {
        LineFault::Route(fault)
    }
}

impl From<AllocError> for LineFault {
    ghost from_gives = { λ _ e. e ≡ OutOfMemory };

    fn from(_e: AllocError) -> LineFault {
        LineFault::OutOfMemory
    }
}

impl fmt::Display for CapacityFault {
    ghost output = { λ f. Some (capacity_fault_name f) };

    fn fmt<W: fmt::Write>(&self, f: &mut fmt::Formatter<W>) -> fmt::Result {
        match self {
            CapacityFault::UnknownElement => f.write_str("UnknownElement"),
            CapacityFault::IsPool => f.write_str("IsPool"),
        }
    }
}

impl fmt::Display for LineFault {
    ghost output = { λ f. Some (line_fault_name f) };

    fn fmt<W: fmt::Write>(&self, f: &mut fmt::Formatter<W>) -> fmt::Result {
        match self {
            LineFault::Route(fault) => write!(f, "{fault}"),
            LineFault::FloorAboveCeiling => f.write_str("FloorAboveCeiling"),
            LineFault::BadClass => f.write_str("BadClass"),
            LineFault::TooMany => f.write_str("TooMany"),
            LineFault::OutOfMemory => f.write_str("OutOfMemory"),
        }
    }
}
