//! Bounded values and names, which every other crate counts and calls things by.
//!
//! None of these calls takes memory.
#![tactic(auto)]

mod cycle;
mod name;
mod quantity;
mod service;

pub use cycle::{CycleNo, Moment, Round};
pub use name::{Name, NameFault};
pub use quantity::{Dth, DthFault};
pub use service::{Band, Class, End, Kind};
