//! The questions that schedules answer: a pipeline with the capacities of one cycle, and the lines that want to flow.
#![tactic(auto)]

mod builder;
mod fault;
mod question;

pub use builder::QuestionBuilder;
pub use fault::{CapacityFault, LineFault};
pub use gd_system::{Element, Part, PlaceId};
pub use question::Question;

/// How many lines a question may have (own limit).
pub const MAX_LINES: usize = 20_000;
