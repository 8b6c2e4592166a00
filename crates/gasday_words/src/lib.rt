//! The command line of the program `gasday`: from words to the request that they name.
//!
//! `clap` reads the words, and its contract says exactly what it makes of them, so the contract
//! of `request_of` is exact too, but for want of memory. The texts of help and of usage faults are
//! only tested.
#![tactic(auto)]

mod fault;
mod help;
mod line;
mod order;
mod words;

pub use fault::UsageFault;
pub use order::{Command, Order, Request};
pub use words::request_of;
