//! What people are told at once of calls that are served as they come.

use gasday_files::tell;
use gasday_live::Witness;
use gd_rounds::Lateness;

/// Whoever serves calls as they come is told at once of those that come too late: of each freeze, and of the first call behind the end
/// of the gas day.
#[derive(Drop)]
pub(crate) struct ClockWitness<'a> {
    rt: &'a HostRuntime,
    is_beyond: bool,
}

impl<'a> ClockWitness<'a> {
    /// No call came too late yet.
    pub(crate) fn new(rt: &'a HostRuntime) -> ClockWitness<'a> {
        ClockWitness {
            rt,
            is_beyond: false,
        }
    }
}

impl Witness for ClockWitness<'_> {
    fn see(&mut self, number: usize, lateness: Lateness) {
        if lateness.is_late {
            tell_event(self.rt, number, "freezes a cycle that is in effect already");
        }
        if lateness.is_beyond && !self.is_beyond {
            self.is_beyond = true;
            tell_event(
                self.rt,
                number,
                "comes when the gas day is over; what comes behind it counts as made then",
            );
        }
    }
}

/// Tells of an event that came too late.
fn tell_event(rt: &HostRuntime, number: usize, what: &str) {
    if let Ok(message) = format!(in rt.alloc();
        "event {number} {what}; look at its moment, and at the clock that gave it"
    ) {
        tell(rt, message.as_str());
    }
}
