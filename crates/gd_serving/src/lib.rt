//! Lines are served as they come: kept in a journal, and then told. And what was kept is taken again.
//!
//! A line is what stands before a line feed, whatever its bytes are. Who takes lines (`TakesLines`) says what one line gives:
//! rows that are kept, replies that are kept with them, and what is told. All else is said along lines, of any such desk.
//!
//! # What the caller does
//!
//! - It has a journal that is settled (`gd_journal_store`), and knows how many pieces it has by `count`.
//! - It makes a desk, and has it take the lines of the pieces again by `replay`, behind those that it read by itself. Then the
//!   desk stands where it stood when the last piece was kept.
//! - It calls `serve`, with the number of the next piece. What that answers is told last, or not at all after `WriteFailed`.
//! - After any failure it ends: the desk is ahead of the journal. It opens the file again and replays.
#![tactic(auto)]

mod block;
mod failure;
mod fitting;
mod given;
mod laws;
mod output;
mod replaying;
mod serving;
mod taking;
mod turn;

pub use block::{first_line, take_block};
pub use failure::{Failure, Finish};
pub use given::Given;
pub use laws::{
    lines_are_cut_again, lines_are_the_bytes, lines_have_no_line_feed, parts_are_cut_as_a_whole,
};
pub use replaying::{ReplayFault, replay};
pub use serving::serve;
pub use taking::TakesLines;
pub use turn::{Intake, Turn, take_turn};
