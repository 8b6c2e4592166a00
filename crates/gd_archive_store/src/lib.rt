//! The tables of an archive of published schedules, in a SQLite file or in memory.
//!
//! An archive has one posting for each book and cycle: its round, its body, which is any bytes here, and the rule by which
//! it was made. Rule 1 is by classes and rule 2 by spread. The tables of version 2 are
//!
//! ```sql
//! CREATE TABLE archive (one INTEGER PRIMARY KEY CHECK (one = 1), version INTEGER NOT NULL)
//! CREATE TABLE posting (book TEXT NOT NULL, cycle INTEGER NOT NULL, round INTEGER NOT NULL, body BLOB NOT NULL,
//!     PRIMARY KEY (book, cycle))
//! CREATE TABLE posting2 (book TEXT NOT NULL, cycle INTEGER NOT NULL, round INTEGER NOT NULL, body BLOB NOT NULL,
//!     rule INTEGER NOT NULL CHECK (rule IN (1, 2)), PRIMARY KEY (book, cycle))
//! ```
//!
//! where `archive` has the one row 1, 2 and `posting` is read no longer. Version 1 has the row 1, 1, its postings in
//! `posting`, and no `posting2`. Each call reads the tables of the file that it is given and the version, and refuses any
//! other file; `make` completes one that has no more than the first of these tables, or no version. The version is read
//! wherever `archive` stands first, and if it has one row, what that says is told before anything else of the file. A call
//! is a transaction of its own: it is refused inside the caller's, and what it changes is committed when it answers.
#![tactic(auto)]

mod build;
mod carry;
mod entry;
mod fault;
mod lookup;
mod tables;
mod version;

pub use build::make;
pub use carry::{Rewrite, migrate};
pub use entry::{enter, expect_free};
pub use fault::{KeepFault, MigrateFault, StoreFault};
pub use lookup::{all, find};
