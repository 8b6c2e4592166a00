//! The book of one gas day: it takes eight calls, and keeps what it accepted with its replies.
//!
//! Whatever calls come in whatever order, each published schedule keeps each floor, confirmed quantity, capacity and pool
//! balance of its frozen cycle, and no schedule that keeps them is better in the tariff's order; where a cycle is declared
//! impossible, none keeps them; and each accepted nomination is counted in exactly one cycle ([`Book::history`]).
//!
//! Lines and elements count from 0. Quantities are dekatherms a gas day, moments are seconds since 1970-01-01T00:00:00Z.
#![tactic(auto)]

mod book;
mod ledger;
mod replay;

pub use book::Book;
pub use gd_book_part::OpenFault;
pub use gd_machine::{Event, MAX_EVENTS, Refusal, Reply};
pub use replay::Replay;
