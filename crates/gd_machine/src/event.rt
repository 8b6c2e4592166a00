//! What a book is asked.

ghost use Rattle.std.specs.Prelude.{◌≡◌, ◌↔◌, IsTrue, IfOk};

use gd_certificate::{Checked, Cut};
use gd_lines::LineKey;
use gd_system::Element;
use gd_units::{Dth, End, Moment, Name, Round};
use std::alloc::{AllocError, Global};

/// A call of the book, with what it was handed. Each has the moment at which it is made.
#[derive(Drop)]
pub enum Event {
    /// A shipper nominates a quantity on a line (NAESB WGQ 1.3.2).
    Nominate {
        moment: Moment,
        party: Name,
        key: LineKey,
        quantity: Dth,
    },
    /// An operator confirms a quantity at one end of a line, for the current cycle.
    Respond {
        moment: Moment,
        party: Name,
        line: u32,
        end: End,
        quantity: Dth,
    },
    /// From now on this is the most that may pass a segment or a point.
    PostCapacity {
        moment: Moment,
        element: Element,
        capacity: Dth,
    },
    /// The current cycle is closed, and its question is asked.
    Freeze {
        moment: Moment,
    },
    /// A best schedule of the frozen question is published, which ends the cycle.
    Publish {
        moment: Moment,
        certificate: Checked,
    },
    /// The frozen question of this round has no allowed schedule, as the cut shows.
    Declare {
        moment: Moment,
        round: Round,
        cut: Cut,
    },
    /// After a declared cut a line gives up its protection in the current cycle (own).
    Waive {
        moment: Moment,
        line: u32,
    },
    /// After a declared cut the cycle ends without a schedule of its own (own).
    Skip {
        moment: Moment,
    },
}

impl Event {
    ghost use Rattle.gd_machine.specs.History.{moment_of};

    /// The moment at which the call is made.
    pub fn moment(&self) -> Moment
        ensures { result ≡ moment_of self.now }
    {
        match self {
            Event::Nominate { moment, .. }
            | Event::Respond { moment, .. }
            | Event::PostCapacity { moment, .. }
            | Event::Freeze { moment }
            | Event::Publish { moment, .. }
            | Event::Declare { moment, .. }
            | Event::Waive { moment, .. }
            | Event::Skip { moment } => *moment,
        }
    }

    /// Whether both are the same call at the same moment, with the same handed in. Takes no memory.
    pub fn same(&self, other: &Event) -> bool
        ensures { IsTrue result ↔ (self.now ≡ other.now) }
    {
        match (self, other) {
            (
                Event::Nominate {
                    moment,
                    party,
                    key,
                    quantity,
                },
                Event::Nominate {
                    moment: at,
                    party: who,
                    key: line,
                    quantity: much,
                },
            ) => moment == at && party == who && key == line && quantity == much,
            (
                Event::Respond {
                    moment,
                    party,
                    line,
                    end,
                    quantity,
                },
                Event::Respond {
                    moment: at,
                    party: who,
                    line: which,
                    end: side,
                    quantity: much,
                },
            ) => {
                moment == at && party == who && line == which && end == side && quantity == much
            }
            (
                Event::PostCapacity {
                    moment,
                    element,
                    capacity,
                },
                Event::PostCapacity {
                    moment: at,
                    element: what,
                    capacity: much,
                },
            ) => moment == at && element == what && capacity == much,
            (Event::Freeze { moment }, Event::Freeze { moment: at }) => moment == at,
            (
                Event::Publish {
                    moment,
                    certificate,
                },
                Event::Publish {
                    moment: at,
                    certificate: other,
                },
            ) => moment == at && certificate.same(other),
            (
                Event::Declare { moment, round, cut },
                Event::Declare {
                    moment: at,
                    round: which,
                    cut: other,
                },
            ) => moment == at && round == which && cut.same(other),
            (
                Event::Waive { moment, line },
                Event::Waive {
                    moment: at,
                    line: which,
                },
            ) => moment == at && line == which,
            (Event::Skip { moment }, Event::Skip { moment: at }) => moment == at,
            _ => false,
        }
    }

    /// The same call once more. The only error is want of memory.
    pub fn try_clone(&self, alloc: Global) -> Result<Event, AllocError>
        ensures { IfOk result (λ copy. copy ≡ self.now) }
    {
        let copy = match self {
            Event::Nominate {
                moment,
                party,
                key,
                quantity,
            } => Event::Nominate {
                moment: *moment,
                party: *party,
                key: *key,
                quantity: *quantity,
            },
            Event::Respond {
                moment,
                party,
                line,
                end,
                quantity,
            } => Event::Respond {
                moment: *moment,
                party: *party,
                line: *line,
                end: *end,
                quantity: *quantity,
            },
            Event::PostCapacity {
                moment,
                element,
                capacity,
            } => Event::PostCapacity {
                moment: *moment,
                element: *element,
                capacity: *capacity,
            },
            Event::Freeze { moment } => Event::Freeze { moment: *moment },
            Event::Publish {
                moment,
                certificate,
            } => Event::Publish {
                moment: *moment,
                certificate: certificate.try_clone(alloc)?,
            },
            Event::Declare { moment, round, cut } => Event::Declare {
                moment: *moment,
                round: *round,
                cut: cut.try_clone(alloc)?,
            },
            Event::Waive { moment, line } => Event::Waive {
                moment: *moment,
                line: *line,
            },
            Event::Skip { moment } => Event::Skip { moment: *moment },
        };
        Ok(copy)
    }
}
