//! The text of a round.

ghost use Rattle.std.specs.Prelude.{◌≡◌, ◌↔◌, true, Ok, None, Some, IfOk, IfSome, IsTrue, take, slice_get, string_bytes};
ghost use Rattle.std.specs.Option.{MatchOption};
ghost use Rattle.gd_machine.specs.History.{is_frozen};
ghost use Rattle.gd_machine.specs.Asking.{question as question_of};
ghost use Rattle.gd_rounds.specs.Rounds.{EndsRound, IsAnswered, IsNamed, Says, SaysRound, WasNeverFrozen};

use crate::outcome::{Outcome, outcome_at};
use crate::text::{certificate_text, cut_text, question_text};
use gd_book::Replay;
use gd_question::Question;
use gd_units::{CycleNo, Round};
use std::alloc::{AllocError, Global};

/// Whether this is the round that is named, or none is.
fn is_named(round: Option<Round>, number: Round) -> bool
    ensures { IsTrue result ↔ IsNamed round number }
{
    match round {
        Some(round) => number == round,
        None => true,
    }
}

/// The text that says a frozen question, with what comes at this place of the walk; `None` where that doesn't answer it.
fn frozen_text(
    alloc: Global,
    walk: &Replay<'_>,
    question: &Question,
    place: usize,
) -> Result<Option<String>, AllocError>
    requires place { place ≡ walk.now.at }
    requires frozen { is_frozen (take place walk.now.history) ≡ true }
    requires question { question.now ≡ question_of walk.now.day (take place walk.now.history) }
    ensures text { IfOk result (λ found. IfSome found (λ text. Says walk.now.day (take place walk.now.history)
        (slice_get walk.now.history place) (string_bytes text))) }
    ensures none { result ≡ Ok None → ¬ (IsAnswered (slice_get walk.now.history place)) }
{
    match outcome_at(walk.history(), place) {
        Outcome::Nothing => Ok(Some(question_text(alloc, question)?)),
        Outcome::Published(certificate) => {
            certificate.known();
            Ok(Some(certificate_text(alloc, certificate)?))
        }
        Outcome::Declared(cut) => Ok(Some(cut_text(alloc, question, cut)?)),
        Outcome::Other => Ok(None),
    }
}

/// The text of the round that is named, if it ends at this place of the walk.
fn text_at(
    alloc: Global,
    walk: &Replay<'_>,
    place: usize,
    cycle: CycleNo,
    round: Option<Round>,
) -> Result<Option<String>, AllocError>
    requires place { place ≡ walk.now.at }
    ensures text { IfOk result (λ found. IfSome found (λ text. EndsRound walk.now.history cycle round place
        × Says walk.now.day (take place walk.now.history) (slice_get walk.now.history place) (string_bytes text))) }
    ensures none { result ≡ Ok None → ¬ (EndsRound walk.now.history cycle round place) }
{
    let Some(question) = walk.frozen() else {
        return Ok(None);
    };
    if question.cycle() == cycle && is_named(round, question.round()) {
        frozen_text(alloc, walk, question, place)
    } else {
        Ok(None)
    }
}

/// The later one of two texts, if there is one.
fn later_of(former: Option<String>, later: Option<String>) -> Option<String>
    ensures { MatchOption later (result ≡ former) (λ text. result ≡ Some text) }
{
    match later {
        Some(text) => {
            drop(former);
            Some(text)
        }
        None => former,
    }
}

/// The text of the last round that is named, at or behind the place of the walk.
fn last_text(
    alloc: Global,
    walk: &mut Replay<'_>,
    cycle: CycleNo,
    round: Option<Round>,
) -> Result<Option<String>, AllocError>
    requires { walk.old.at ≡ 0 }
    ensures text { IfOk result (λ found. IfSome found
        (λ text. SaysRound walk.old.day walk.old.history cycle round (string_bytes text))) }
    ensures none { result ≡ Ok None → WasNeverFrozen walk.old.history cycle round }
{
    let count = walk.history().len();
    let mut found = None;
    'places: for place in 0..count + 1 {
        walk.go_to(place)?;
        found = later_of(found, text_at(alloc, walk, place, cycle, round)?);
    }
    Ok(found)
}

/// The text of the last round that is named, and of the last one of the cycle where none is: its frozen question, with the
/// schedule that was published and the prices that show it best, or the set by which it was declared to have none, if it was
/// answered. `None` where no event left the cycle frozen in such a round. The only error is want of memory.
pub fn round_text(
    alloc: Global,
    walk: Replay<'_>,
    cycle: CycleNo,
    round: Option<Round>,
) -> Result<Option<String>, AllocError>
    requires { walk.at ≡ 0 }
    ensures text { IfOk result (λ found. IfSome found
        (λ text. SaysRound walk.entry.day walk.entry.history cycle round (string_bytes text))) }
    ensures none { result ≡ Ok None → WasNeverFrozen walk.entry.history cycle round }
{
    let mut walk = walk;
    last_text(alloc, &mut walk, cycle, round)
}
