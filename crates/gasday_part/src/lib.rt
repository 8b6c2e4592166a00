//! The engine of the program `gasday`: from the bytes of a text to a command's answer, and from an answer to its bytes.
#![tactic(auto)]

mod answer;
mod certificate;
mod course;
mod day;
mod engine;
mod inquiry;
mod opened;
mod solution;
mod solve;

pub use answer::{Answer, answer_of, last_of, of_fault, of_one, summary_in};
pub use course::course_status;
pub use day::{DayFault, calendar_of, of_no_calendar};
pub use engine::write_answer;
pub use inquiry::{Inquiry, Printed, Written, ask_text, print_inquiry, write_printed, write_rows};
pub use opened::{NoBook, of_no_book, open_book};
pub use solution::check_answer;
