//! A feasible flow over a question's network, or a cut that shows that there is none.
#![tactic(auto)]

mod cut;
mod faults;
mod feasible;
mod first;
mod mending;
mod search;

pub use feasible::Feasible;
pub use mending::{Repaired, repair};
