//! The text of a posting as an archive keeps it: how it is written, and how it is read back.
//!
//! A body is rows of eight fields, each ended by a line feed: the pipeline's `segment`, `point` and `pool` rows with its own
//! capacities; a `question` row; a `capacity` row for each capacity in force that is another; `line` and `sched` rows; a
//! `price` row for each level of an element where a word isn't 0; and a `bumped` row for each bumped line. Lines are counted
//! from 1, and quantities are dekatherms a gas day.
#![tactic(auto)]

mod body;
mod fault;
mod laws;
mod question;
mod read;
mod row;
mod spread;
mod taken;

pub use body::{body_of, same_posting};
pub use fault::BodyFault;
pub use laws::{bumped_lines_rise, publishable_posting_reads_back};
pub use question::write_question;
pub use read::read_body;
pub use spread::without_spread;
pub use taken::{write_prices, write_schedule};
