//! The office of gas days: each book stands in a slot of its own under a lock, with a board that is read without it.
//!
//! Slots count from 1, lists, receipts and sessions that are handed in from 0. Quantities are dekatherms a gas day, moments are
//! seconds since 1970-01-01T00:00:00Z.
#![tactic(auto)]

mod apart;
mod fault;
mod office;
mod reconciling;

pub use fault::{CloseFault, MAX_SLOTS, OpenFault};
pub use office::{Office, close};
pub use reconciling::ReconcileFault;
