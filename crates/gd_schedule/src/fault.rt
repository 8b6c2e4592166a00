//! How a fault comes from want of memory, and how it is printed: by its name alone.

ghost use Rattle.std.specs.Prelude.{◌≡◌, Some};
ghost use Rattle.gd_schedule.specs.Names.{broken_name};
ghost use Rattle.gd_schedule.specs.declared.Broken.TheVariants.{OutOfMemory};

use crate::Broken;
use std::alloc::AllocError;
use std::fmt;

impl From<AllocError> for Broken {
    ghost from_gives = { λ _ e. e ≡ OutOfMemory };

    fn from(_e: AllocError) -> Broken {
        Broken::OutOfMemory
    }
}

impl fmt::Display for Broken {
    ghost output = { λ b. Some (broken_name b) };

    fn fmt<W: fmt::Write>(&self, f: &mut fmt::Formatter<W>) -> fmt::Result {
        match self {
            Broken::Shape => f.write_str("Shape"),
            Broken::BelowFloor(_) => f.write_str("BelowFloor"),
            Broken::AboveCeiling(_) => f.write_str("AboveCeiling"),
            Broken::OverCapacity(_) => f.write_str("OverCapacity"),
            Broken::Unbalanced(_) => f.write_str("Unbalanced"),
            Broken::OutOfMemory => f.write_str("OutOfMemory"),
        }
    }
}
