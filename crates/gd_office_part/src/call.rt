//! What a session asks its book.

ghost use Rattle.std.specs.Prelude.{◌≡◌};
ghost use Rattle.gd_office_part.specs.Calls.{event_of};

use gd_book::Event;
use gd_lines::LineKey;
use gd_system::Element;
use gd_units::{Dth, End, Moment, Name};

/// A call of a session, made at a moment.
#[derive(Clone, Copy, Debug, PartialEq, Eq)]
pub enum Call {
    /// The session's party nominates a quantity on a line, as a shipper.
    Nominate {
        moment: Moment,
        key: LineKey,
        quantity: Dth,
    },
    /// The session's party confirms a quantity at one end of a line, as its operator.
    Respond {
        moment: Moment,
        line: u32,
        end: End,
        quantity: Dth,
    },
    /// From now on this is the most that may pass a segment or a point.
    PostCapacity {
        moment: Moment,
        element: Element,
        capacity: Dth,
    },
}

impl Call {
    /// The event that it is where this party makes it.
    pub fn event(self, party: Name) -> Event
        ensures { result ≡ event_of party self }
    {
        match self {
            Call::Nominate {
                moment,
                key,
                quantity,
            } => Event::Nominate {
                moment,
                party,
                key,
                quantity,
            },
            Call::Respond {
                moment,
                line,
                end,
                quantity,
            } => Event::Respond {
                moment,
                party,
                line,
                end,
                quantity,
            },
            Call::PostCapacity {
                moment,
                element,
                capacity,
            } => Event::PostCapacity {
                moment,
                element,
                capacity,
            },
        }
    }
}
