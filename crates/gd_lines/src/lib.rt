//! The lines of a gas day, and what is nominated on them.
//!
//! A line is told by contract, package, origin and destination. Lines count from 0, in the order of their first
//! acceptance. Quantities are dekatherms a gas day.
#![tactic(auto)]

mod fault;
mod key;
mod lines;
mod state;

pub use fault::LinesFault;
pub use key::LineKey;
pub use lines::Lines;

/// How many lines a gas day may have (own limit).
pub const MAX_LINES: usize = 20_000;
