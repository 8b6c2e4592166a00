//! Best flows, by potentials under which no arc with room gains.
#![tactic(auto)]

mod best;
mod found;
mod gains;
mod residual;
mod still;
mod walk;

pub use best::{Best, settle, settle_from};
pub use still::show_best;

/// The greatest size of a number in a potential (own limit): the difference of two is no larger than a price may be.
pub const MAX_POTENTIAL_WORD: i128 = 1 << 39;
