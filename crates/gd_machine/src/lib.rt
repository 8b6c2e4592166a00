//! The book of one gas day as a machine: its eight events, their replies and their refusals, and what the list of accepted
//! events tells.
//!
//! The definitions speak of that list alone, the history: what a book answers to an event, and why it refuses it, is a
//! function of the events before it. Lines and elements count from 0. Quantities are dekatherms a gas day, moments are
//! seconds since 1970-01-01T00:00:00Z.
#![tactic(auto)]

mod call;
mod event;
mod laws;
mod refusal;
mod reply;

pub use call::Call;
pub use event::Event;
pub use laws::{every_day_holds, every_day_is_sound};
pub use refusal::{Refusal, refusal_number};
pub use reply::Reply;

/// How many events a book may have (own limit).
pub const MAX_EVENTS: usize = 1_000_000;
