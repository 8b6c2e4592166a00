//! The pieces of a gas day's book, in a SQLite file or in memory.
//!
//! A journal has one table, to which pieces are only ever added:
//!
//! ```sql
//! CREATE TABLE piece (number INTEGER PRIMARY KEY, rows BLOB NOT NULL, told BLOB NOT NULL)
//! ```
//!
//! Its pieces are numbered 1, 2, 3 and so on. Each has the bytes of some rows and of what was told of them, which are any
//! bytes here. The schema as a whole is the version: whatever else is there, an index of a user's too, makes the file
//! another kind of file. Each call but `is_journal` is refused inside the caller's own transaction, and what it changes is
//! committed when it answers.
//!
//! # What the caller does
//!
//! - It opens the file, by `sqlite::Connection::open`, which takes SQLite's lock of the file at once and keeps it until the
//!   connection is dropped, and is refused as busy where another process has it. So one process has a journal at a time, and
//!   nobody else's pieces come in between.
//! - It calls `make`, which makes the table in a new file; or it asks `is_journal`, and makes no journal of another file.
//! - It calls `count`, which reads all pieces once and tests them, and then `pieces` for some of them at a time, as many as
//!   it wants to hold in memory. From then on it knows the number of the next piece.
//! - After any refusal of `append` it ends: what it did in memory is ahead of the file. It never tries again.
//! - It closes the connection by `close`, which copies the log into the file, or leaves the two files together.
//!
//! Each call is generic over the store. What it promises of pieces holds where the store is clean as the call ends: in
//! memory always, in a file where nobody else writes it and the disk returns what was written.
#![tactic(auto)]

mod appending;
mod fault;
mod laws;
mod making;
mod reading;
mod table;

pub use appending::append;
pub use fault::StoreFault;
pub use laws::{kept_is_read, pieces_are_one, settled};
pub use making::make;
pub use reading::{Piece, count, pieces};
pub use table::is_journal;
