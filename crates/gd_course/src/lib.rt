//! The course of a gas day: the calls of its text on its book, and the rows that tell them.
//!
//! Quantities are dekatherms a gas day, moments are seconds since 1970-01-01T00:00:00Z.
#![tactic(auto)]

mod course;
mod event;
mod rows;
mod settle;

pub use course::run;
pub use event::call;
pub use rows::tell;
