//! The calendar of a gas day: the moments of its cycles, and the cycle that a moment belongs to (NAESB WGQ 1.3.1 and 1.3.2).
//!
//! Only `Calendar::of` and `Calendar::try_clone` take memory.
#![tactic(auto)]

mod calendar;

pub use calendar::{Calendar, Mark};
