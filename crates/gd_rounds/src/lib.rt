//! The rounds of a gas day's book: the frozen question of one with what came of it, as a text that `solve` and the checks take;
//! what a gas day carries over to the next; and what it came to.
#![tactic(auto)]

mod carried;
mod outcome;
mod read;
mod round;
mod summary;
mod text;

pub use carried::carry_replies;
pub use round::round_text;
pub use summary::{Lateness, Summary, lateness_of, summary_of};
pub use text::write_replies;
