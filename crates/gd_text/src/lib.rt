//! What texts say: the values that their rows build, or the first refusal.
#![tactic(auto)]

mod day;
mod members;
mod prices;
mod values;

pub use day::day_of;
pub use members::{MemberTable, members_of};
pub use prices::{PriceTable, prices_of};
pub use values::{Asked, asked_of, quantities_of, question_of, system_of};
