//! What a desk passes between solving and closing.

use std::sync::Wait;
use std::time::Clock;

/// What stands between a desk's answer and its publish or declare. The desk holds no lock there, so that a gate may call the
/// book of the slot, wait or take its time.
pub trait Gate {
    /// Lets the desk of the slot of this number pass.
    fn pass<R: Wait + Clock>(&self, rt: &R, slot: u32);
}

/// A gate that lets each desk pass at once.
#[derive(Clone, Copy, Debug, PartialEq, Eq)]
pub struct Open;

impl Gate for Open {
    fn pass<R: Wait + Clock>(&self, _rt: &R, _slot: u32) {}
}
