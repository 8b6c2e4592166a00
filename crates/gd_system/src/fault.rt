//! How refusals come from want of memory, and how they are printed: by their names.

ghost use Rattle.std.specs.Prelude.{◌≡◌, Some};
ghost use Rattle.gd_system.specs.Names.{build_fault_name, route_fault_name};
ghost use Rattle.gd_system.specs.declared.BuildFault.TheVariants as build;
ghost use Rattle.gd_system.specs.declared.RouteFault.TheVariants as route;

use crate::{BuildFault, RouteFault};
use std::alloc::AllocError;
use std::fmt;

impl From<AllocError> for BuildFault {
    ghost from_gives = { λ _ e. e ≡ build.OutOfMemory };

    fn from(_e: AllocError) -> BuildFault {
        BuildFault::OutOfMemory
    }
}

impl fmt::Display for BuildFault {
    ghost output = { λ f. Some (build_fault_name f) };

    fn fmt<W: fmt::Write>(&self, f: &mut fmt::Formatter<W>) -> fmt::Result {
        match self {
            BuildFault::Duplicate => f.write_str("Duplicate"),
            BuildFault::Unjoined => f.write_str("Unjoined"),
            BuildFault::UnknownPlace => f.write_str("UnknownPlace"),
            BuildFault::TooMany => f.write_str("TooMany"),
            BuildFault::NoSegment => f.write_str("NoSegment"),
            BuildFault::OutOfMemory => f.write_str("OutOfMemory"),
        }
    }
}

impl From<AllocError> for RouteFault {
    ghost from_gives = { λ _ e. e ≡ route.OutOfMemory };

    fn from(_e: AllocError) -> RouteFault {
        RouteFault::OutOfMemory
    }
}

impl fmt::Display for RouteFault {
    ghost output = { λ f. Some (route_fault_name f) };

    fn fmt<W: fmt::Write>(&self, f: &mut fmt::Formatter<W>) -> fmt::Result {
        match self {
            RouteFault::UnknownEnd => f.write_str("UnknownEnd"),
            RouteFault::WrongEnd => f.write_str("WrongEnd"),
            RouteFault::SameEnd => f.write_str("SameEnd"),
            RouteFault::NoRoute => f.write_str("NoRoute"),
            RouteFault::OutOfMemory => f.write_str("OutOfMemory"),
        }
    }
}
