//! What is counted of accepted events.

ghost use Rattle.std.specs.Prelude.{◌≡◌, ◌+◌, IfSome};
ghost use Rattle.gd_office_part.specs.Counting.{none, plus, numbers_of, worth_of};

use gd_book::{Book, Event};

/// How many calls of sessions were accepted, how many of them are nominations, and the dekatherms of these together.
#[derive(Clone, Copy, PartialEq, Eq, Debug)]
pub struct Numbers {
    /// Nominations, responses and capacities.
    pub calls: u64,
    pub nominations: u64,
    /// The quantities that were nominated, together.
    pub dekatherms: u64,
}

impl Numbers {
    /// Nothing is accepted.
    pub(crate) fn none() -> Numbers
        ensures { result ≡ none }
    {
        Numbers {
            calls: 0,
            nominations: 0,
            dekatherms: 0,
        }
    }

    /// What a book has accepted.
    pub(crate) fn of_book(book: &Book) -> Numbers
        ensures { result ≡ numbers_of book.now }
    {
        let (nominations, dekatherms) = book.accepted();
        Numbers {
            calls: book.session_calls(),
            nominations,
            dekatherms,
        }
    }

    /// What an event counts for where it is accepted.
    pub(crate) fn of_event(event: &Event) -> Numbers
        ensures { result ≡ worth_of event.now }
    {
        match event {
            Event::Nominate { quantity, .. } => Numbers {
                calls: 1,
                nominations: 1,
                dekatherms: quantity.get(),
            },
            Event::Respond { .. } | Event::PostCapacity { .. } => Numbers {
                calls: 1,
                nominations: 0,
                dekatherms: 0,
            },
            _ => Numbers::none(),
        }
    }

    /// Both together, if they are below 2^64.
    pub(crate) fn checked_add(self, other: Numbers) -> Option<Numbers>
        ensures { IfSome result (λ both. both ≡ plus self other) }
    {
        Some(Numbers {
            calls: self.calls.checked_add(other.calls)?,
            nominations: self.nominations.checked_add(other.nominations)?,
            dekatherms: self.dekatherms.checked_add(other.dekatherms)?,
        })
    }
}
