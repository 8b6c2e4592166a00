//! The board of a gas day: what was published in each cycle, set once and read without waiting.
//!
//! Each cycle has a cell, which is set at most once. Who reads or posts hands in a note, which keeps what was seen of
//! this board; two notes of one board that know a posting of a cycle know the same one, in all threads and for good
//! (`BoardNote::compare`). None of these calls waits for anyone or takes memory.
#![tactic(auto)]

mod board;
mod note;
mod posting;

pub use board::Board;
pub use note::BoardNote;
pub use posting::{Bumped, Posting};
