//! The best schedule of a question with prices that prove it, or a cut that proves that none is allowed.
//!
//! A network simplex proposes a schedule and potentials (`gd_simplex`), of which no contract says that they are right. What
//! is proved stands under it: the repair, the settling and their contracts answer rightly whatever is proposed.
//!
//! The only error of these calls is want of memory, and none of them waits for anyone.
#![tactic(auto)]

mod answer;
mod prices;

pub use answer::{Answer, solve, solve_from, solve_with};
