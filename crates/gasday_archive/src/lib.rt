//! The commands of the program `gasday` that have an archive: `day --archive FILE`, `audit FILE` of one, and `migrate FILE`.
#![tactic(auto)]

mod answer;
mod day;
mod engine;
mod keeps;
mod opened;

pub use answer::of_no_store;
pub use engine::answer_to;
pub use opened::{Outcome, audit_archive, audit_postings};
