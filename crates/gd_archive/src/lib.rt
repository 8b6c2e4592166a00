//! An archive of published schedules: a SQLite database that keeps, for each book and cycle, the posting that was published,
//! as the text of its question, schedule, prices and bumped lines.
//!
//! Each call is generic over the store. What it promises of the database holds where the store is clean as the call ends:
//! in memory always, in a file where nobody else writes it and the disk returns what was written.
#![tactic(auto)]

mod auditing;
mod bumps;
mod fault;
mod finding;
mod keeping;
mod laws;
mod migration;
mod opener;
mod repeat;
mod row;
mod sound;

pub use auditing::{audit, audit_each};
pub use bumps::Bumps;
pub use fault::{AuditFault, FetchFault, Rule, Unsound};
pub use finding::{Finding, Summary};
pub use gd_archive_store::{KeepFault, MigrateFault, StoreFault, make};
pub use keeping::{fetch, keep};
pub use laws::fetched_once_kept;
pub use migration::migrate;
pub use opener::Opener;
pub use repeat::{Repeat, Repeated, compare};
