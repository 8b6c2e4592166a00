//! What an order of the program `gasday` reads and opens, and how it ends: where a text comes from, the file that it names or a copy
//! of that, how these are closed, and what people are told on standard error.
#![tactic(auto)]

mod closing;
mod copied;
mod file;
mod input;
mod noted;
mod ran;
mod refusing;
mod told;

pub use closing::end;
pub use copied::{CopiedFile, unwritable};
pub use file::{AsFound, NamedFile};
pub use input::{Text, Unread, named_by, text_of};
pub use noted::Noted;
pub use ran::{Ended, Ran};
pub use refusing::{failed, refuse};
pub use told::{Course, tell, tell_waiting};
