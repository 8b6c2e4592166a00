//! Calls of a book and its board, by tables, with what they tell. They promise nothing of the book, so a test is proved
//! without its history. Where a book, a board or an answer ends, `drop` is called: its proof is then shared, and not made
//! anew in each function.

use crate::day::{at, book, cycle, dth, line, made, name, round};
use gd_board::Board;
use gd_book::{Book, Refusal, Reply};
use gd_certificate::{Checked, Cut, Prices, check_par};
use gd_cost::Tariff;
use gd_question::Question;
use gd_schedule::Schedule;
use gd_solver::{Answer, solve};
use gd_system::Element;
use gd_units::{Dth, End, Moment, Name};
use std::alloc::Global;
use std::process::Abort;
use std::thread::Threads;

/// A call at a moment with what it tells. Lines count from 0.
pub(crate) type Row = (i64, Call, Told);

#[derive(Clone, Copy)]
pub(crate) enum Call {
    /// The shipper nominates on the line of a contract in a package.
    Nominate(&'static str, &'static str, u64),
    /// The operator of an end confirms a quantity of a line.
    Respond(u32, End, u64),
    /// A capacity of S1.
    Post(u64),
    Freeze,
    /// A best schedule of the frozen question is published.
    Settle,
    /// A best schedule of another book's frozen question is published.
    Offer,
    /// Place A and point R1 show that the question of a round has no allowed schedule.
    Declare(u32),
    Waive(u32),
    Skip,
    /// A line of the frozen question is read.
    Ask(usize),
    /// What the board has for a line in a cycle is read.
    Read(u8, usize),
    /// The sums of accepted nominations and of calls are read.
    Sum,
}

/// What is told, by a book first with the number in its history.
#[derive(Clone, Copy, PartialEq, Eq)]
pub(crate) enum Told {
    /// Of this cycle and this line.
    Accepted(usize, u8, u32),
    Done(usize),
    /// Of this cycle and this round, with so many lines.
    Frozen(usize, u8, u32, usize),
    /// Of this cycle and this round. Where it bumps one line, that line and what is taken from it; else 0 and 0.
    Published(usize, u8, u32, (u32, u64)),
    /// Of this cycle and this round.
    Declared(usize, u8, u32),
    Refused(Refusal),
    /// Class, floor and ceiling.
    Asked(u8, u64, u64),
    Posted(u64),
    /// Accepted nominations, their dekatherms, and calls of sessions.
    Sums(u64, u64, u64),
}

/// The one line that is bumped with what is taken from it, or 0 and 0 where it isn't one.
fn lone(lines: &[(u32, Dth)]) -> (u32, u64) {
    match lines {
        [(line, taken)] => (*line, taken.get()),
        _ => (0, 0),
    }
}

fn replied(reply: &Reply) -> Told {
    match reply {
        Reply::Accepted {
            number,
            cycle,
            line,
        } => Told::Accepted(*number, cycle.number(), *line),
        Reply::Done { number } => Told::Done(*number),
        Reply::Frozen {
            number,
            cycle,
            round,
            lines,
        } => Told::Frozen(*number, cycle.number(), round.number(), *lines),
        Reply::Published {
            number,
            cycle,
            round,
            bumped,
        } => Told::Published(
            *number,
            cycle.number(),
            round.number(),
            lone(bumped.lines()),
        ),
        Reply::Declared {
            number,
            cycle,
            round,
        } => Told::Declared(*number, cycle.number(), round.number()),
    }
}

fn answered(answer: &Result<Reply, Refusal>) -> Told {
    match answer {
        Ok(reply) => replied(reply),
        Err(refusal) => Told::Refused(*refusal),
    }
}

fn tells(answer: Result<Reply, Refusal>) -> Told {
    let told = answered(&answer);
    drop(answer);
    told
}

fn nominate(
    rt: &impl Abort,
    book: &mut Book,
    moment: Moment,
    contract: &str,
    package: &str,
    quantity: u64,
) -> Told {
    let (shipper, key) = (name(rt, "SHIP"), line(rt, contract, package));
    tells(book.nominate(moment, shipper, key, dth(rt, quantity)))
}

fn operator(rt: &impl Abort, end: End) -> Name {
    match end {
        End::Origin => name(rt, "OPR"),
        End::Dest => name(rt, "OPD"),
    }
}

fn respond(
    rt: &impl Abort,
    book: &mut Book,
    moment: Moment,
    line: u32,
    end: End,
    quantity: u64,
) -> Told {
    tells(book.respond(moment, operator(rt, end), line, end, dth(rt, quantity)))
}

fn post(rt: &impl Abort, book: &mut Book, moment: Moment, capacity: u64) -> Told {
    tells(book.post_capacity(moment, Element(0), dth(rt, capacity)))
}

/// The set of place A and point R1.
pub(crate) fn cut(rt: &impl Abort, alloc: Global) -> Cut {
    let places = Vec::from_slice(alloc, &[true, false]);
    let points = Vec::from_slice(alloc, &[true, false]);
    Cut::of(
        places.expect(rt, "memory"),
        points.expect(rt, "memory"),
        Vec::new(alloc),
    )
}

fn declare(rt: &impl Abort, alloc: Global, book: &mut Book, moment: Moment, number: u32) -> Told {
    tells(book.declare(moment, round(rt, number), cut(rt, alloc)))
}

fn best(rt: &impl Abort, alloc: Global, question: &Question) -> (Schedule, Prices<Tariff>) {
    match made(rt, solve(alloc, question)) {
        Answer::Best(schedule, prices) => (schedule, prices),
        Answer::Impossible(_) => panic!(rt; "no schedule is allowed"),
    }
}

/// A best schedule of a question, checked.
fn certificate(rt: &(impl Abort + Threads + Sync), alloc: Global, question: &Question) -> Checked {
    let (schedule, prices) = best(rt, alloc, question);
    let question = made(rt, question.try_clone(alloc));
    made(rt, check_par(rt, alloc, question, schedule, prices))
}

pub(crate) fn frozen<'b>(rt: &impl Abort, book: &'b Book) -> &'b Question {
    book.frozen().expect(rt, "a frozen question")
}

/// Publishes under a new note of the board.
fn publish(book: &mut Book, board: &Board, moment: Moment, certificate: Checked) -> Told {
    tells(book.publish(moment, certificate, board, &mut board.note()))
}

fn settle(
    rt: &(impl Abort + Threads + Sync),
    alloc: Global,
    book: &mut Book,
    board: &Board,
    moment: Moment,
) -> Told {
    let certificate = certificate(rt, alloc, frozen(rt, book));
    publish(book, board, moment, certificate)
}

fn offer(
    rt: &(impl Abort + Threads + Sync),
    alloc: Global,
    book: &mut Book,
    board: &Board,
    other: &Book,
    moment: Moment,
) -> Told {
    let certificate = certificate(rt, alloc, frozen(rt, other));
    publish(book, board, moment, certificate)
}

fn ask(rt: &impl Abort, asked: &Question, line: usize) -> Told {
    assert!(rt; line < asked.line_count());
    let (floor, ceiling) = (asked.floor(line).get(), asked.ceiling(line).get());
    Told::Asked(asked.class(line).number(), floor, ceiling)
}

fn read(rt: &impl Abort, board: &Board, number: u8, line: usize) -> Told {
    let mut note = board.note();
    let posting = board.read(cycle(rt, number), &mut note);
    let posted = posting.expect(rt, "a posting").schedule.quantities();
    assert!(rt; line < posted.len());
    Told::Posted(posted[line].get())
}

fn sum(book: &Book) -> Told {
    let (nominations, dekatherms) = book.accepted();
    Told::Sums(nominations, dekatherms, book.session_calls())
}

/// Makes a call at a moment.
fn make(
    rt: &(impl Abort + Threads + Sync),
    alloc: Global,
    book: &mut Book,
    board: &Board,
    other: &Book,
    moment: Moment,
    call: Call,
) -> Told {
    match call {
        Call::Nominate(contract, package, quantity) => {
            nominate(rt, book, moment, contract, package, quantity)
        }
        Call::Respond(line, end, quantity) => respond(rt, book, moment, line, end, quantity),
        Call::Post(capacity) => post(rt, book, moment, capacity),
        Call::Freeze => tells(book.freeze(moment)),
        Call::Settle => settle(rt, alloc, book, board, moment),
        Call::Offer => offer(rt, alloc, book, board, other, moment),
        Call::Declare(number) => declare(rt, alloc, book, moment, number),
        Call::Waive(line) => tells(book.waive(moment, line)),
        Call::Skip => tells(book.skip(moment)),
        Call::Ask(line) => ask(rt, frozen(rt, book), line),
        Call::Read(number, line) => read(rt, board, number, line),
        Call::Sum => sum(book),
    }
}

/// What a book tells in numbers: its accepted nominations with their dekatherms, its calls of sessions, its events, and the
/// round that is frozen, or 0.
type State = ((u64, u64), u64, usize, u32);

fn state(book: &Book) -> State {
    let frozen = book.frozen().map_or(0, |asked| asked.round().number());
    let events = book.history().len();
    (book.accepted(), book.session_calls(), events, frozen)
}

/// Shows that a refused call left the book as it was.
fn keeps(rt: &impl Abort, told: Told, former: State, book: &Book) {
    if let Told::Refused(_) = told {
        assert!(rt; state(book) == former);
    }
}

/// Makes calls in turn, and shows what each tells.
pub(crate) fn makes(
    rt: &(impl Abort + Threads + Sync),
    alloc: Global,
    book: &mut Book,
    board: &Board,
    other: &Book,
    rows: &[Row],
) {
    for (seconds, call, wanted) in rows {
        let former = state(book);
        let told = make(rt, alloc, book, board, other, at(rt, *seconds), *call);
        assert!(rt; told == *wanted);
        keeps(rt, told, former, book);
    }
}

/// Round 1 of one line that both ends confirm.
pub(crate) static ROUND_1: [Row; 4] = [
    (
        1772910900,
        Call::Nominate("INT", "P", 70),
        Told::Accepted(1, 1, 0),
    ),
    (1772910902, Call::Respond(0, End::Origin, 70), Told::Done(2)),
    (1772910903, Call::Respond(0, End::Dest, 70), Told::Done(3)),
    (1772922600, Call::Freeze, Told::Frozen(4, 1, 1, 1)),
];

/// A book of this name in which round 1 is asked.
pub(crate) fn asked(rt: &(impl Abort + Threads + Sync), alloc: Global, text: &str) -> Book {
    let (mut asked, none) = (book(rt, alloc, text), book(rt, alloc, "NONE"));
    let board = Board::new(alloc);
    makes(rt, alloc, &mut asked, &board, &none, ROUND_1.as_slice());
    drop(board);
    drop(none);
    asked
}

/// Makes calls of a book DEMO, beside another book of this name in which round 1 is asked, with a new board.
pub(crate) fn day(rt: &(impl Abort + Threads + Sync), alloc: Global, text: &str, rows: &[Row]) {
    let (mut book, other) = (book(rt, alloc, "DEMO"), asked(rt, alloc, text));
    let board = Board::new(alloc);
    makes(rt, alloc, &mut book, &board, &other, rows);
    drop(board);
    drop(other);
    drop(book);
}
