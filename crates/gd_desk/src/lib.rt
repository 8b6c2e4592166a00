//! Desks: at a moment each slot of an office freezes its book, solves the frozen question outside the lock, and publishes the
//! best schedule or declares that there is none.
//!
//! Each desk works in a thread of its own. Only the freeze and the close stand under the lock of the slot; nothing else
//! that a desk does waits for anyone, but for the gate that it is given. Moments are seconds since 1970-01-01T00:00:00Z.
#![tactic(auto)]

mod closing;
mod desk;
mod freezing;
mod gate;
mod round;

pub use desk::{Desk, DeskFault};
pub use gate::{Gate, Open};
pub use round::desk_round;
