//! What comes of a frozen question.

ghost use Rattle.std.specs.Prelude.{slice_get};
ghost use Rattle.gd_rounds.specs.Outcomes.{IsOutcome};

use gd_book::{Event, Reply};
use gd_certificate::{Checked, Cut};

/// What comes behind some events of a history.
#[derive(Clone, Copy)]
pub(crate) enum Outcome<'h> {
    /// Nothing yet.
    Nothing,
    /// A schedule is published.
    Published(&'h Checked),
    /// The question is declared to have no allowed schedule, as this set shows.
    Declared(&'h Cut),
    /// An event that answers no question.
    Other,
}

/// What comes behind so many events of a history.
pub(crate) fn outcome_at(history: &[(Event, Reply)], place: usize) -> Outcome<'_>
    ensures { IsOutcome (slice_get history.now place) result }
{
    let Some(event) = history.get(place) else {
        return Outcome::Nothing;
    };
    match &event.0 {
        Event::Publish { certificate, .. } => Outcome::Published(certificate),
        Event::Declare { cut, .. } => Outcome::Declared(cut),
        _ => Outcome::Other,
    }
}
