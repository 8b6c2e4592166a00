//! As many events and lines as there can be, and the time that they take.

use crate::opening::{FIRM, Fault, PARTY, at, book, done, dth, line, name};
use crate::settling::certificate;
use gd_board::Board;
use gd_book::{Book, Event, MAX_EVENTS, Reply};
use gd_certificate::Checked;
use gd_lines::LineKey;
use gd_system::Element;
use gd_units::{Dth, Moment};
use std::alloc::Global;
use std::mem::size_of;
use std::rt::Clock;
use std::thread::Threads;
use std::time::Instant;

/// How many bytes an event with its reply takes, besides what it points to.
const EVENT_BYTES: usize = size_of::<(Event, Reply)>();

const LINES: usize = 20_000;

/// When Timely can be frozen.
const DEADLINE: i64 = 1772922600;

/// How often each line is nominated, and the dekatherms of the last time.
const TIMES: u64 = 10;

/// Prints how many microseconds something took that began at this moment.
fn tell(rt: &(impl Clock + Print), what: &str, began: Instant) -> Result<(), Fault> {
    let took = began.elapsed(rt)?.as_micros();
    println!(rt; "{what} {took}")?;
    Ok(())
}

/// Posts a capacity.
fn post(book: &mut Book, moment: Moment, capacity: u64) -> Result<(), Fault> {
    let capacity = dth(capacity)?;
    done(book.post_capacity(moment, Element(0), capacity))
}

/// Posts as many capacities as a history has room for.
fn post_all(book: &mut Book, moment: Moment) -> Result<(), Fault> {
    for number in 0..MAX_EVENTS {
        post(book, moment, number as u64)?;
    }
    Ok(())
}

/// Times a history of capacities alone.
fn time_events(rt: &(impl Clock + Print), book: &mut Book) -> Result<(), Fault> {
    let (moment, began) = (at(0)?, Instant::now(rt)?);
    post_all(book, moment)?;
    tell(rt, "post_capacity", began)
}

/// Times a history of capacities alone, and tells how many bytes an event takes in it.
pub(crate) fn events(rt: &(impl Clock + Print), alloc: Global) -> Result<(), Fault> {
    println!(rt; "bytes {EVENT_BYTES}")?;
    match book(alloc, "DEMO", 100, Vec::new(alloc)) {
        Ok(mut book) => {
            let told = time_events(rt, &mut book);
            drop(book);
            told
        }
        Err(fault) => Err(fault),
    }
}

/// The line of this number.
fn key(alloc: Global, number: usize) -> Result<LineKey, Fault> {
    let package = format!(in alloc; "P{number}")?;
    let key = line(FIRM, package.as_str());
    drop(package);
    key
}

/// Adds as many lines as there can be, each of as many dekatherms as are nominated last.
fn carry(alloc: Global, lines: &mut Vec<(LineKey, Dth)>) -> Result<(), Fault> {
    let quantity = dth(TIMES)?;
    for number in 0..LINES {
        let carried = (key(alloc, number)?, quantity);
        lines.push(carried).map_err(|_| Fault::Unmade)?;
    }
    Ok(())
}

/// As many lines as there can be, each of as many dekatherms as are nominated last.
fn carried(alloc: Global) -> Result<Vec<(LineKey, Dth)>, Fault> {
    let mut lines = Vec::with_capacity(alloc, LINES)?;
    match carry(alloc, &mut lines) {
        Ok(()) => Ok(lines),
        Err(fault) => {
            drop(lines);
            Err(fault)
        }
    }
}

/// Nominates each line once, at this quantity.
fn nominate(
    book: &mut Book,
    lines: &[(LineKey, Dth)],
    moment: Moment,
    quantity: u64,
) -> Result<(), Fault> {
    let (shipper, quantity) = (name(PARTY)?, dth(quantity)?);
    for (key, _) in lines {
        done(book.nominate(moment, shipper, *key, quantity))?;
    }
    Ok(())
}

/// Times the nominations of all lines.
fn time_nominations(
    rt: &(impl Clock + Print),
    book: &mut Book,
    lines: &[(LineKey, Dth)],
) -> Result<(), Fault> {
    let (moment, began) = (at(0)?, Instant::now(rt)?);
    for quantity in 1..=TIMES {
        nominate(book, lines, moment, quantity)?;
    }
    tell(rt, "nominate", began)
}

/// Times a freeze.
fn time_freeze(rt: &(impl Clock + Print), book: &mut Book) -> Result<(), Fault> {
    let (moment, began) = (at(DEADLINE)?, Instant::now(rt)?);
    done(book.freeze(moment))?;
    tell(rt, "freeze", began)
}

/// Publishes a certificate, and answers when that began.
fn publish(
    rt: &impl Clock,
    book: &mut Book,
    moment: Moment,
    certificate: Checked,
    board: &Board,
) -> Result<Instant, Fault> {
    let began = Instant::now(rt);
    done(book.publish(moment, certificate, board, &mut board.note()))?;
    Ok(began?)
}

/// Times a publish of what is best.
fn time_publish(
    rt: &(impl Threads + Clock + Print + Sync),
    alloc: Global,
    book: &mut Book,
    board: &Board,
) -> Result<(), Fault> {
    let moment = at(DEADLINE)?;
    let certificate = certificate(rt, alloc, book)?;
    let began = publish(rt, book, moment, certificate, board)?;
    tell(rt, "publish", began)
}

/// Times nominations, a freeze and a publish.
fn time_lines(
    rt: &(impl Threads + Clock + Print + Sync),
    alloc: Global,
    book: &mut Book,
    lines: &[(LineKey, Dth)],
) -> Result<(), Fault> {
    time_nominations(rt, book, lines)?;
    time_freeze(rt, book)?;
    let board = Board::new(alloc);
    let told = time_publish(rt, alloc, book, &board);
    drop(board);
    told
}

/// A book with room for the lines, which carries them.
fn carrying(alloc: Global) -> Result<Book, Fault> {
    let lines = carried(alloc)?;
    book(alloc, "DEMO", 100_000, lines)
}

/// Times nominations, a freeze and a publish of a book that carries the lines.
fn time_carrying(
    rt: &(impl Threads + Clock + Print + Sync),
    alloc: Global,
    lines: &[(LineKey, Dth)],
) -> Result<(), Fault> {
    match carrying(alloc) {
        Ok(mut book) => {
            let told = time_lines(rt, alloc, &mut book, lines);
            drop(book);
            told
        }
        Err(fault) => Err(fault),
    }
}

/// Times nominations, a freeze and a publish of a book with as many lines as there can be.
pub(crate) fn lines(
    rt: &(impl Threads + Clock + Print + Sync),
    alloc: Global,
) -> Result<(), Fault> {
    let lines = carried(alloc)?;
    let told = time_carrying(rt, alloc, lines.as_slice());
    drop(lines);
    told
}
