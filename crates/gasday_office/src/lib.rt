//! The command `office` of the program `gasday`: what the bytes of a text are answered.
//!
//! A text says, for each of its blocks, the values that a slot's book is opened with, or the first refusal; and what is run on
//! the books, phase by phase: the sessions, with their calls on the pipeline of their slot, and then the desks' round. Rows count
//! lines and slots from 1; calls count lines, elements and slots from 0.
//!
//! It is apart from the other commands, since it alone waits for locks.
#![tactic(auto)]

mod answer;
mod asked;
mod begins;
mod books;
mod calls;
mod days;
mod fault;
mod phases;
mod sessions;

pub use answer::answer_office;
