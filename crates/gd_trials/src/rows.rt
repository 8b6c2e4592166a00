//! Rows, which tell of each slot and then of each open session.

use crate::opening::Fault;
use crate::told::{frozen, posted};
use crate::types::{Office, Session, Slot};
use gd_book::Book;
use std::fmt::Display;
use std::sync::Wait;

/// How many events a book has, and the cycle that is frozen, or 0.
fn told_by(book: &Book) -> (usize, u8) {
    (book.history().len(), frozen(book))
}

fn tell_slot(rt: &(impl Wait + Print), slot: &Slot) -> Result<(), Fault> {
    let (length, frozen) = told_by(slot.lock(rt).book());
    let posted = posted(slot.board());
    print!(rt; " {length} {frozen} {posted}")?;
    Ok(())
}

fn tell_session(rt: &impl Print, session: &Session<'_>) -> Result<(), Fault> {
    let numbers = session.numbers();
    let (calls, nominations, dekatherms) = (numbers.calls, numbers.nominations, numbers.dekatherms);
    print!(rt; " {calls} {nominations} {dekatherms}")?;
    Ok(())
}

fn tell_slots(rt: &(impl Wait + Print), slots: &[Slot]) -> Result<(), Fault> {
    for slot in slots {
        tell_slot(rt, slot)?;
    }
    Ok(())
}

fn tell_sessions(rt: &impl Print, sessions: &[Session<'_>]) -> Result<(), Fault> {
    for session in sessions {
        tell_session(rt, session)?;
    }
    Ok(())
}

/// Prints a row: the word of a call, and what it leaves.
pub(crate) fn tell<W: Display + Drop>(
    rt: &(impl Wait + Print),
    word: W,
    office: &Office,
    sessions: &[Session<'_>],
) -> Result<(), Fault> {
    print!(rt; "{word}")?;
    tell_slots(rt, office.slots())?;
    tell_sessions(rt, sessions)?;
    println!(rt; "")?;
    Ok(())
}
