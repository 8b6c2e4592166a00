//! A small gas day of a book, in which each call is made once more where it finds no memory.

use crate::opening::{FIRM, Fault, PARTY, at, book, done, dth, line, name};
use crate::settling::{certificate, cut};
use crate::told::{frozen, posted};
use gd_board::Board;
use gd_book::Book;
use gd_system::Element;
use gd_units::{End, Moment};
use std::alloc::Global;
use std::thread::Threads;

/// A call of the day, with all that it takes but the moment.
#[derive(Clone, Copy)]
enum Call {
    /// The shipper nominates 80.
    Nominate,
    /// The operator of an end confirms 80 of the line.
    Respond(End),
    /// A capacity of 60 on S1, which 80 can't flow through.
    Post,
    Freeze,
    Publish,
    Declare,
    Waive,
    Skip,
}

/// When Timely can be frozen.
const TIMELY: i64 = 1772922600;

/// When Evening can be frozen.
const EVENING: i64 = 1772937000;

/// The calls in their order, each with its name and its moment.
const CALLS: [(&str, i64, Call); 10] = [
    ("nominate", 1772910000, Call::Nominate),
    ("respond", TIMELY, Call::Respond(End::Origin)),
    ("respond", TIMELY, Call::Respond(End::Dest)),
    ("freeze", TIMELY, Call::Freeze),
    ("publish", TIMELY, Call::Publish),
    ("post_capacity", EVENING, Call::Post),
    ("freeze", EVENING, Call::Freeze),
    ("declare", EVENING, Call::Declare),
    ("waive", EVENING, Call::Waive),
    ("skip", EVENING, Call::Skip),
];

fn nominate(book: &mut Book, moment: Moment) -> Result<(), Fault> {
    let (shipper, key, quantity) = (name(PARTY)?, line(FIRM, "P")?, dth(80)?);
    done(book.nominate(moment, shipper, key, quantity))
}

fn respond(book: &mut Book, moment: Moment, end: End) -> Result<(), Fault> {
    let (operator, quantity) = (name(PARTY)?, dth(80)?);
    done(book.respond(moment, operator, 0, end, quantity))
}

fn post(book: &mut Book, moment: Moment) -> Result<(), Fault> {
    let capacity = dth(60)?;
    done(book.post_capacity(moment, Element(0), capacity))
}

/// Publishes what is best.
fn publish(
    rt: &(impl Threads + Sync),
    alloc: Global,
    book: &mut Book,
    moment: Moment,
    board: &Board,
) -> Result<(), Fault> {
    let certificate = certificate(rt, alloc, book)?;
    done(book.publish(moment, certificate, board, &mut board.note()))
}

/// Declares that there is no allowed schedule.
fn declare(alloc: Global, book: &mut Book, moment: Moment) -> Result<(), Fault> {
    let (round, cut) = cut(alloc, book)?;
    done(book.declare(moment, round, cut))
}

/// Makes a call.
fn make(
    rt: &(impl Threads + Sync),
    alloc: Global,
    book: &mut Book,
    moment: Moment,
    call: Call,
    board: &Board,
) -> Result<(), Fault> {
    match call {
        Call::Nominate => nominate(book, moment),
        Call::Respond(end) => respond(book, moment, end),
        Call::Post => post(book, moment),
        Call::Freeze => done(book.freeze(moment)),
        Call::Publish => publish(rt, alloc, book, moment, board),
        Call::Declare => declare(alloc, book, moment),
        Call::Waive => done(book.waive(moment, 0)),
        Call::Skip => done(book.skip(moment)),
    }
}

/// Prints what a book and its board tell after a call.
fn tell(rt: &impl Print, call: &str, book: &Book, board: &Board) -> Result<(), Fault> {
    let (nominations, dekatherms) = book.accepted();
    let (length, frozen, posted) = (book.history().len(), frozen(book), posted(board));
    println!(rt; "{call} {length} {nominations} {dekatherms} {frozen} {posted}")?;
    Ok(())
}

/// Makes a call, once more where it finds no memory.
fn step(
    rt: &(impl Threads + Print + Sync),
    alloc: Global,
    book: &mut Book,
    moment: Moment,
    call: Call,
    board: &Board,
) -> Result<(), Fault> {
    match make(rt, alloc, book, moment, call, board) {
        Err(Fault::NoMemory) => {
            tell(rt, "OutOfMemory", book, board)?;
            make(rt, alloc, book, moment, call, board)
        }
        made => made,
    }
}

/// Makes the calls of the day.
fn steps(
    rt: &(impl Threads + Print + Sync),
    alloc: Global,
    book: &mut Book,
    board: &Board,
) -> Result<(), Fault> {
    for (name, seconds, call) in CALLS {
        step(rt, alloc, book, at(seconds)?, call, board)?;
        tell(rt, name, book, board)?;
    }
    Ok(())
}

/// A book with a capacity of 100.
fn opened(alloc: Global) -> Result<Book, Fault> {
    book(alloc, "DEMO", 100, Vec::new(alloc))
}

/// Makes the calls of the day on a book, which is opened once more where it finds no memory, beside a board.
fn run_beside(
    rt: &(impl Threads + Print + Sync),
    alloc: Global,
    board: &Board,
) -> Result<(), Fault> {
    match opened(alloc).or_else(|_| opened(alloc)) {
        Ok(mut book) => {
            let told = steps(rt, alloc, &mut book, board);
            drop(book);
            told
        }
        Err(fault) => Err(fault),
    }
}

/// Makes the calls of the day on a book with its board.
pub(crate) fn run(rt: &(impl Threads + Print + Sync), alloc: Global) -> Result<(), Fault> {
    let board = Board::new(alloc);
    let told = run_beside(rt, alloc, &board);
    drop(board);
    told
}
