//! Values by key, in order of entry.
#![tactic(auto)]

mod table;

pub use table::Table;
