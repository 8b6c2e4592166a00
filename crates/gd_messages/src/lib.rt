//! What a person is told beside the rows that the program prints.
//!
//! A row says by a name what is wrong; a message says it in a sentence, with the line of the text as an editor counts it
//! and what stands there. Nothing rests on a message: no contract speaks of its words.
#![tactic(auto)]

mod broken;
mod ends;
mod fault;
mod field;
mod kind;
mod message;
mod names;
mod near;
mod order;
mod records;
mod refusal;
mod shown;
mod text;
mod written;

pub use message::message_of;
pub use shown::Count;
pub use text::{Part, Source};
