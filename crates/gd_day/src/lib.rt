//! What a gas day's text says: the values that its book is opened with, or the first refusal; and the calls of the book,
//! each with the rows that stand before it.
#![tactic(auto)]

mod call;
mod carry;
mod contracts;
mod group;
mod head;
mod named;
mod text;

pub use call::{event_of, offered_cut, offered_prices, offered_schedule};
pub use group::check_call;
pub use named::element_named;
pub use text::{DayText, day_text_of};
