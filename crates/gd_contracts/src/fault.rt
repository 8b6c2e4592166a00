//! How refusals come from those of the crates below, and how they are printed: by their names.

ghost use Rattle.std.specs.Prelude.{◌≡◌, Some};
ghost use Rattle.gd_contracts.specs.Names.{contract_fault_name, class_fault_name};
ghost use Rattle.gd_contracts.specs.declared.ContractFault.TheVariants as contract;
ghost use Rattle.gd_contracts.specs.declared.ClassFault.TheVariants as class;

use crate::{ClassFault, ContractFault};
use gd_system::RouteFault;
use std::alloc::AllocError;
use std::fmt;

impl From<AllocError> for ContractFault {
    ghost from_gives = { λ _ e. e ≡ contract.OutOfMemory };

    fn from(_e: AllocError) -> ContractFault {
        ContractFault::OutOfMemory
    }
}

impl From<RouteFault> for ContractFault {
    ghost from_gives = { λ f e. e ≡ contract.Route f };

    fn from(fault: RouteFault) -> ContractFault {
        ContractFault::Route(fault)
    }
}

impl fmt::Display for ContractFault {
    ghost output = { λ f. Some (contract_fault_name f) };

    fn fmt<W: fmt::Write>(&self, f: &mut fmt::Formatter<W>) -> fmt::Result {
        match self {
            ContractFault::Duplicate => f.write_str("Duplicate"),
            ContractFault::Route(fault) => write!(f, "{fault}"),
            ContractFault::TooMany => f.write_str("TooMany"),
            ContractFault::OutOfMemory => f.write_str("OutOfMemory"),
        }
    }
}

impl From<RouteFault> for ClassFault {
    ghost from_gives = { λ f e. e ≡ class.Route f };

    fn from(fault: RouteFault) -> ClassFault {
        ClassFault::Route(fault)
    }
}

impl fmt::Display for ClassFault {
    ghost output = { λ f. Some (class_fault_name f) };

    fn fmt<W: fmt::Write>(&self, f: &mut fmt::Formatter<W>) -> fmt::Result {
        match self {
            ClassFault::UnknownContract => f.write_str("UnknownContract"),
            ClassFault::Route(fault) => write!(f, "{fault}"),
        }
    }
}
