//! The orders of the program `gasday` that need no office, as they are carried out on files: what is done with a book's file, and what
//! an audit and a check tell.
#![tactic(auto)]

mod asking;
mod audit;
mod book;
mod checking;
mod serving;
mod witness;

pub use asking::{ask, print};
pub use audit::tell_audit;
pub use checking::check;
pub use serving::serve;
