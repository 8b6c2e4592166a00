//! A desk that is watched for faults, and for calls that come too late.

ghost use Rattle.std.specs.Prelude.{◌≡◌, ◌-◌, ◌==◌, ◌&&◌, ◌||◌, false, length, nat_lt};

use gd_live::Desk;
use gd_rounds::{Lateness, lateness_of};
use gd_serving::{Given, TakesLines};
use std::alloc::AllocError;
use std::thread::Threads;

/// Who is told at once of calls that came later than they can have been meant: a clock was wrong then.
pub trait Witness: Drop {
    /// The call that made the event of this number in the book's history, from 1, came so.
    fn see(&mut self, number: usize, lateness: Lateness);
}

/// A desk, and whether a row was faulty since it is watched.
#[derive(Drop)]
pub(crate) struct Watched<V: Witness> {
    desk: Desk,
    has_fault: bool,
    witness: V,
}

/// Tells a witness how the last event came, where there are more than so many.
fn tell_late<V: Witness>(desk: &Desk, before: usize, witness: &mut V) {
    let history = desk.history();
    if history.len() > before
        && let Some(event) = history.last()
    {
        witness.see(history.len(), lateness_of(desk.calendar(), event));
    }
}

/// Whether more was told behind so many bytes than one, and no reply was kept behind so many.
fn is_told_alone(given: &Given, told: usize, kept: usize) -> bool
    ensures { result ≡ ((length given.now.replies.items == kept)
        && nat_lt 1 (length given.now.told.items - told)) }
{
    given.replies.len() == kept && given.told.len().saturating_sub(told) > 1
}

impl<V: Witness> Watched<V> {
    /// No row was faulty yet.
    pub(crate) fn new(desk: Desk, witness: V) -> Watched<V>
        ensures desk { result.desk ≡ desk }
        ensures none { result.has_fault ≡ false }
    {
        Watched {
            desk,
            has_fault: false,
            witness,
        }
    }

    /// Whether a row was faulty.
    pub(crate) fn has_fault(&self) -> bool
        ensures { result ≡ self.now.has_fault }
    {
        self.has_fault
    }
}

impl<V: Witness> TakesLines for Watched<V> {
    ghost use Rattle.gasday_live.specs.Watching.{WatchedGives};

    ghost gives = { WatchedGives };

    // What is told and not kept is a fault, or the echo of an empty line, which is one byte.
    fn take_line<T: Threads + Sync>(
        &mut self,
        rt: &T,
        line: &[u8],
        given: &mut Given,
    ) -> Result<(), AllocError> {
        let (told, kept) = (given.told.len(), given.replies.len());
        let before = self.desk.history().len();
        self.desk.take_line(rt, line, given)?;
        tell_late(&self.desk, before, &mut self.witness);
        if is_told_alone(given, told, kept) {
            self.has_fault = true;
        }
        Ok(())
    }
}
