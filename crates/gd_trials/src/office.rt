//! A small office, in which each call is made once more where it finds no memory.

use crate::calls::{Call, make_call};
use crate::desks::desks;
use crate::ends::{close_both, reconcile_all};
use crate::held::{Receipts, empty_receipts, keep, open_all, room};
use crate::opening::{FIRM, Fault, at, book};
use crate::rows::tell;
use crate::types::{Office, Session};
use gd_book::Book;
use gd_office::OpenFault;
use gd_system::Element;
use gd_units::{End, Moment};
use std::alloc::Global;
use std::sync::Wait;
use std::thread::Threads;
use std::time::Clock;

/// A moment before Timely's nomination deadline.
const NOMINATED: i64 = 1772910000;

/// When Timely can be frozen.
const TIMELY: i64 = 1772922600;

/// When Evening can be frozen.
const EVENING: i64 = 1772937000;

/// A step of the office's day.
#[derive(Clone, Copy)]
enum Step {
    /// The session of this place, from 0, makes a call.
    Ask(usize, Call),
    /// A round of the desks.
    Desks,
}

/// All steps in their order, each at its moment. The 80 that Timely schedules in the first book can't flow through the
/// capacity of 60 on S1, so that its second desk declares.
const STEPS: [(i64, Step); 10] = [
    (NOMINATED, Step::Ask(0, Call::Nominate(FIRM))),
    (NOMINATED, Step::Ask(0, Call::Nominate("NONE"))),
    (NOMINATED, Step::Ask(1, Call::Nominate(FIRM))),
    (NOMINATED, Step::Ask(0, Call::Respond(0, End::Origin))),
    (NOMINATED, Step::Ask(0, Call::Respond(0, End::Dest))),
    (NOMINATED, Step::Ask(0, Call::Respond(9, End::Dest))),
    (TIMELY, Step::Desks),
    (EVENING, Step::Ask(0, Call::Post(Element(0)))),
    (EVENING, Step::Ask(0, Call::Post(Element(9)))),
    (EVENING, Step::Desks),
];

fn add_book(alloc: Global, books: &mut Vec<Book>, text: &str) -> Result<(), Fault> {
    let book = book(alloc, text, 100, Vec::new(alloc))?;
    keep(books, book)
}

fn add_books(alloc: Global, books: &mut Vec<Book>) -> Result<(), Fault> {
    for text in ["NORTH", "SOUTH"] {
        add_book(alloc, books, text)?;
    }
    Ok(())
}

/// Two books with a capacity of 100.
fn books(alloc: Global) -> Result<Vec<Book>, Fault> {
    let mut books = Vec::new(alloc);
    match add_books(alloc, &mut books) {
        Ok(()) => Ok(books),
        Err(fault) => {
            drop(books);
            Err(fault)
        }
    }
}

/// Takes one step.
fn take(
    rt: &(impl Threads + Wait + Clock + Print + Sync),
    alloc: Global,
    office: &Office,
    sessions: &mut [Session<'_>],
    receipts: &mut [Receipts],
    moment: Moment,
    step: Step,
) -> Result<(), Fault> {
    match step {
        Step::Ask(place, call) => make_call(rt, office, sessions, receipts, place, moment, call),
        Step::Desks => desks(rt, alloc, office, sessions, receipts, moment),
    }
}

/// Takes all steps.
fn steps(
    rt: &(impl Threads + Wait + Clock + Print + Sync),
    alloc: Global,
    office: &Office,
    sessions: &mut [Session<'_>],
    receipts: &mut [Receipts],
) -> Result<(), Fault> {
    for (seconds, step) in STEPS {
        take(rt, alloc, office, sessions, receipts, at(seconds)?, step)?;
    }
    reconcile_all(rt, alloc, office, sessions, receipts)
}

/// Takes all steps with a session of each slot, in room that is there.
fn with_sessions<'o>(
    rt: &(impl Threads + Wait + Clock + Print + Sync),
    alloc: Global,
    office: &'o Office,
    sessions: &mut Vec<Session<'o>>,
) -> Result<(), Fault> {
    open_all(rt, office, sessions)?;
    let mut receipts = empty_receipts(alloc, office)?;
    let told = steps(
        rt,
        alloc,
        office,
        sessions.as_mut_slice(),
        receipts.as_mut_slice(),
    );
    drop(receipts);
    told
}

/// Takes all steps, and closes the sessions.
fn day(
    rt: &(impl Threads + Wait + Clock + Print + Sync),
    alloc: Global,
    office: &Office,
) -> Result<(), Fault> {
    tell(rt, "office", office, &[])?;
    let mut sessions = room(alloc, office.slots().len());
    match with_sessions(rt, alloc, office, &mut sessions) {
        Ok(()) => close_both(rt, alloc, office, sessions),
        Err(fault) => {
            drop(sessions);
            Err(fault)
        }
    }
}

/// An office of these books, for which there was no memory before.
fn opened_again(rt: &impl Print, alloc: Global, books: Vec<Book>) -> Result<Office, Fault> {
    let told = println!(rt; "OutOfMemory");
    match Office::new(alloc, books) {
        Ok(office) => told_of(office, told.is_ok()),
        Err(refused) => {
            drop(refused);
            Err(Fault::Unforeseen)
        }
    }
}

/// An office, where what is to be told of it could be printed.
fn told_of(office: Office, told: bool) -> Result<Office, Fault> {
    if told {
        Ok(office)
    } else {
        drop(office);
        Err(Fault::Untold)
    }
}

/// An office of these books, made once more of what it hands back where it finds no memory.
fn opened(rt: &impl Print, alloc: Global, books: Vec<Book>) -> Result<Office, Fault> {
    match Office::new(alloc, books) {
        Ok(office) => Ok(office),
        Err((OpenFault::OutOfMemory, back)) => opened_again(rt, alloc, back),
        Err(refused) => {
            drop(refused);
            Err(Fault::Unforeseen)
        }
    }
}

/// Makes the calls of an office, whose books are opened once more where there is no memory for them.
pub(crate) fn run(
    rt: &(impl Threads + Wait + Clock + Print + Sync),
    alloc: Global,
) -> Result<(), Fault> {
    let books = books(alloc).or_else(|_| books(alloc))?;
    match opened(rt, alloc, books) {
        Ok(office) => {
            let told = day(rt, alloc, &office);
            drop(office);
            told
        }
        Err(fault) => Err(fault),
    }
}
