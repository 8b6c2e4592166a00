//! A gas day's book whose rows come line by line: what each line does to it, what is kept of it, and what is told.
//!
//! A text that goes on by whole lines has the opening of a gas day first, which is read up to the first of its calls
//! (`read_opening`); whether lines may follow it (`is_closed`), and that what is read of them one by one is what is read of the
//! whole, stands in `whole_lines`.
//!
//! A line is what stands before a line feed. Quantities are dekatherms a gas day, moments are seconds since
//! 1970-01-01T00:00:00Z. What is kept of lines is, with the opening of a gas day before it, the one text of a day (`one_text`).
#![tactic(auto)]

mod acceptance;
mod book;
mod calls;
mod closed;
mod conclusion;
mod desk;
mod group;
mod laws;
mod line;
mod live_book;
mod one_text;
mod opening;
mod room;
mod whole_lines;

pub use closed::is_closed;
pub use desk::Desk;
pub use laws::{calls_go_on, what_is_kept_are_calls};
pub use one_text::{
    calls_are_read_behind_an_opening, calls_follow_their_opening, calls_pass_over_an_opening,
    openings_have_no_row_of_a_call, openings_pass_over_calls,
};
pub use opening::{Opening, read_opening};
pub use room::Room;
pub use whole_lines::{
    closed_text_joins, lines_are_read_one_by_one, lines_follow_a_text, plain_lines_are_records,
    row_lines_are_plain, rows_are_good_at_every_number, rows_begin_again_behind_a_call, rows_go_on,
    state_tells_closed,
};
