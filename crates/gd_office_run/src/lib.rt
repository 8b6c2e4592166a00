//! The run of an office: its phases in order, what they are told, what is held of each slot, and how the slots end.
//!
//! Sessions count from 1 over the whole run, slots from 1, places of slots, lists and receipts from 0. Moments are seconds
//! since 1970-01-01T00:00:00Z.
#![tactic(auto)]

mod desk_rows;
mod desks;
mod end;
mod fault;
mod holding;
mod office;
mod opened;
mod phase;
mod receipts;
mod slot;

pub use fault::RunFault;
pub use office::run;
