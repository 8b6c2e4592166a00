//! The book of a gas day that a file keeps: opened by the head of a text or made again from the file, served line by line,
//! audited, and printed as a text of that day.
#![tactic(auto)]

mod audit;
mod beginning;
mod inquiry;
mod kept;
mod laws;
mod lines;
mod opening;
mod output;
mod reading;
mod serving;
mod text;
mod watched;

pub use audit::audit_book;
pub use inquiry::ask_book;
pub use kept::KeptBook;
pub use laws::{book_is_day, kept_book_is_day, served_book_is_day};
pub use reading::read_book;
pub use serving::serve_book;
pub use text::{print_book, write_text};
pub use watched::Witness;
