//! How faults come from those of the crates below, and how they are printed: by their names alone.

ghost use Rattle.std.specs.Prelude.{◌≡◌, Some};
ghost use Rattle.gd_certificate.specs.Names.{cert_fault_name, cut_fault_name};
ghost use Rattle.gd_certificate.specs.declared.CertFault.TheVariants as cert;

use crate::{CertFault, CutFault};
use gd_schedule::Broken;
use std::alloc::AllocError;
use std::fmt;

impl From<Broken> for CertFault {
    ghost from_gives = { λ b e. e ≡ cert.Broken b };

    fn from(broken: Broken) -> CertFault {
        CertFault::Broken(broken)
    }
}

impl From<AllocError> for CertFault {
    ghost from_gives = { λ _ e. e ≡ cert.OutOfMemory };

    fn from(_e: AllocError) -> CertFault {
        CertFault::OutOfMemory
    }
}

impl fmt::Display for CertFault {
    ghost output = { λ f. Some (cert_fault_name f) };

    fn fmt<W: fmt::Write>(&self, f: &mut fmt::Formatter<W>) -> fmt::Result {
        match self {
            CertFault::Shape => f.write_str("Shape"),
            CertFault::Broken(broken) => write!(f, "{broken}"),
            CertFault::PriceTooLarge(_) => f.write_str("PriceTooLarge"),
            CertFault::PriceOnSlack(_) => f.write_str("PriceOnSlack"),
            CertFault::Underfilled(_) => f.write_str("Underfilled"),
            CertFault::Overfilled(_) => f.write_str("Overfilled"),
            CertFault::OutOfMemory => f.write_str("OutOfMemory"),
        }
    }
}

impl fmt::Display for CutFault {
    ghost output = { λ f. Some (cut_fault_name f) };

    fn fmt<W: fmt::Write>(&self, f: &mut fmt::Formatter<W>) -> fmt::Result {
        match self {
            CutFault::Shape => f.write_str("Shape"),
            CutFault::NotCut => f.write_str("NotCut"),
        }
    }
}
