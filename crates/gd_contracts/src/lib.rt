//! The contracts that shippers hold on a pipeline, and the priority class of a line under them.
#![tactic(auto)]

mod class;
mod contract;
mod contracts;
mod fault;

pub use class::classes_are;
pub use contract::{Contract, Service};
pub use contracts::Contracts;
use gd_system::RouteFault;

/// How many contracts may be held on a pipeline (own limit).
pub const MAX_CONTRACTS: usize = 4096;

/// Why a contract is refused, the first reason in this order. A refused call leaves the contracts as they were.
/// It is printed by its name, and a refusal of the route by its own.
#[derive(Clone, Copy, Debug, PartialEq, Eq, Drop)]
pub enum ContractFault {
    /// A contract of this name is there.
    Duplicate,
    /// No route leads from the primary origin to the primary destination. The reason is never `RouteFault::OutOfMemory`.
    Route(RouteFault),
    /// The 4,097th contract.
    TooMany,
    /// Memory was refused.
    OutOfMemory,
}

/// Why a line has no class, the first reason in this order. It is printed by its name, and a refusal of the route by its own.
#[derive(Clone, Copy, Debug, PartialEq, Eq, Drop)]
pub enum ClassFault {
    /// There is no contract of this name.
    UnknownContract,
    /// No route leads from the origin to the destination. The reason is never `RouteFault::OutOfMemory`.
    Route(RouteFault),
}
