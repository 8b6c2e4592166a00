//! Shortest walks over a question's network, by levels and by costs.
//!
//! `allowed_schedule` looks for a schedule that is allowed, along the fewest steps (Dinic). `Walks` looks for closed walks
//! that gain, each closing one line's tenth by a shortest residual walk under potentials that are kept from one walk to the
//! next (Dijkstra).
//!
//! The contracts here promise that each call is safe, that it returns, and that a schedule has a quantity for each line. They
//! promise nothing of what these are worth: nobody has to believe them. Who takes a schedule mends what is out of bounds, and
//! who takes a walk looks at each step of it. So a wrong walk costs time, and never a wrong answer.
#![tactic(auto)]

mod graph;
mod joins;
mod levels;
mod search;
mod walks;

ghost use Rattle.std.specs.Prelude.{◌≡◌, length, IfOk};

use gd_network::Network;
use gd_schedule::Schedule;
use levels::Levels;
use std::alloc::{AllocError, Global};
pub use walks::Walks;

/// A schedule that may be allowed, found from a network's first flow. The only error is want of memory.
///
/// What is out of bounds is brought within them, and what then comes to a node and doesn't leave it goes on along the fewest
/// steps to where gas is missing, as far as there is room.
pub fn allowed_schedule(alloc: Global, network: &Network<'_>) -> Result<Schedule, AllocError>
    ensures { IfOk result (λ schedule. length schedule ≡ length network.now.question.asked.lines) }
{
    let mut levels = Levels::of(alloc, network)?;
    levels.even_out()?;
    levels.schedule(alloc, network)
}
