//! First refusals of one event, at the beginning of a day and after each of its 14 events. In that day a line of 80 is
//! nominated (1); Timely is frozen (2) and published (3), and so is Evening (4, 5); a capacity is posted (6), and Intraday 1
//! is frozen (7), declared impossible (8) and skipped (9); Intraday 2 is frozen (10) and declared impossible (11), the line
//! waived (12), the cycle frozen (13) and published (14).

use crate::calls::{asked, cut, makes};
use crate::cuts::CUT_DAY;
use crate::day::{at, book, dth, line, name, round};
use gd_board::Board;
use gd_book::{Book, Event, Refusal};
use gd_certificate::CutFault;
use gd_system::Element;
use gd_units::End;
use std::alloc::Global;
use std::process::Abort;

/// The beginning, and after each event.
type Refusals = [Option<Refusal>; 15];

const FROZEN: Option<Refusal> = Some(Refusal::Frozen);

const EARLY: Option<Refusal> = Some(Refusal::TooEarly);

const CUT: Option<Refusal> = Some(Refusal::NoCut);

const LINE: Option<Refusal> = Some(Refusal::UnknownLine);

const OTHER: Option<Refusal> = Some(Refusal::UnknownElement);

const OVER: Option<Refusal> = Some(Refusal::OverContract);

const OPEN: Option<Refusal> = Some(Refusal::NotFrozen);

const SET: Option<Refusal> = Some(Refusal::NoCutProof(CutFault::NotCut));

const ONE: Option<Refusal> = Some(Refusal::StaleRound(1));

const TWO: Option<Refusal> = Some(Refusal::StaleRound(2));

const THREE: Option<Refusal> = Some(Refusal::StaleRound(3));

const FOUR: Option<Refusal> = Some(Refusal::StaleRound(4));

/// A second line of 21 under a contract of 100.
static OF_NOMINATE: Refusals = [
    None, OVER, OVER, OVER, OVER, OVER, OVER, OVER, OVER, OVER, OVER, OVER, OVER, OVER, OVER,
];

/// A response for the first line.
static OF_RESPOND: Refusals = [
    LINE, None, FROZEN, None, FROZEN, None, None, FROZEN, None, None, FROZEN, None, None, FROZEN,
    None,
];

/// A capacity of an element that isn't there.
static OF_POST: Refusals = [
    OTHER, OTHER, FROZEN, OTHER, FROZEN, OTHER, OTHER, FROZEN, OTHER, OTHER, FROZEN, OTHER, OTHER,
    FROZEN, OTHER,
];

/// A freeze at the last stamp.
static OF_FREEZE: Refusals = [
    EARLY, EARLY, FROZEN, EARLY, FROZEN, EARLY, EARLY, FROZEN, None, EARLY, FROZEN, None, None,
    FROZEN, EARLY,
];

/// A waiver of a line that isn't there.
static OF_WAIVE: Refusals = [
    CUT, CUT, FROZEN, CUT, FROZEN, CUT, CUT, FROZEN, LINE, CUT, FROZEN, LINE, LINE, FROZEN, CUT,
];

static OF_SKIP: Refusals = [
    CUT, CUT, FROZEN, CUT, FROZEN, CUT, CUT, FROZEN, None, CUT, FROZEN, None, None, FROZEN, CUT,
];

/// The certificate of round 5, which was published.
static OF_PUBLISH: Refusals = [
    OPEN, OPEN, ONE, OPEN, TWO, OPEN, OPEN, THREE, OPEN, OPEN, FOUR, OPEN, OPEN, None, OPEN,
];

/// The cut of the rounds before, for round 5.
static OF_DECLARE: Refusals = [
    OPEN, OPEN, ONE, OPEN, TWO, OPEN, OPEN, THREE, OPEN, OPEN, FOUR, OPEN, OPEN, SET, OPEN,
];

fn of_nominate(rt: &impl Abort) -> Event {
    Event::Nominate {
        moment: at(rt, 0),
        party: name(rt, "SHIP"),
        key: line(rt, "FIRM", "Q"),
        quantity: dth(rt, 21),
    }
}

fn of_respond(rt: &impl Abort) -> Event {
    Event::Respond {
        moment: at(rt, 0),
        party: name(rt, "OPR"),
        line: 0,
        end: End::Origin,
        quantity: dth(rt, 1),
    }
}

fn of_post(rt: &impl Abort) -> Event {
    Event::PostCapacity {
        moment: at(rt, 0),
        element: Element(3),
        capacity: dth(rt, 1),
    }
}

fn of_declare(rt: &impl Abort, alloc: Global) -> Event {
    Event::Declare {
        moment: at(rt, 0),
        round: round(rt, 5),
        cut: cut(rt, alloc),
    }
}

/// Compares the first refusals of an event with these.
fn shows(rt: &impl Abort, book: &Book, event: &Event, wanted: &Refusals) {
    assert_eq!(rt; book.history().len(), 14);
    for (length, refusal) in wanted.iter().enumerate() {
        assert!(rt; length <= book.history().len());
        let told = book.refusal_at(length, event).expect(rt, "memory");
        assert_eq!(rt; told, *refusal);
    }
}

/// Compares as `shows` does, and lets the event go.
fn ends(rt: &impl Abort, book: &Book, event: Event, wanted: &Refusals) {
    shows(rt, book, &event, wanted);
    drop(event);
}

fn of_publish(rt: &impl Abort, book: &Book) {
    let (event, _) = book.history().last().expect(rt, "an event");
    shows(rt, book, event, &OF_PUBLISH);
}

/// An event of each kind.
fn of_each(rt: &impl Abort, alloc: Global, book: &Book) {
    let moment = at(rt, 0);
    ends(rt, book, of_nominate(rt), &OF_NOMINATE);
    ends(rt, book, of_respond(rt), &OF_RESPOND);
    ends(rt, book, of_post(rt), &OF_POST);
    ends(rt, book, Event::Freeze { moment }, &OF_FREEZE);
    ends(rt, book, Event::Waive { moment, line: 1 }, &OF_WAIVE);
    ends(rt, book, Event::Skip { moment }, &OF_SKIP);
    ends(rt, book, of_declare(rt, alloc), &OF_DECLARE);
    of_publish(rt, book);
}

#[test]
fn cut_and_waived(rt: HostRuntime) {
    let (mut day, other) = (
        book(&rt, rt.alloc(), "DEMO"),
        asked(&rt, rt.alloc(), "OTHER"),
    );
    let board = Board::new(rt.alloc());
    makes(
        &rt,
        rt.alloc(),
        &mut day,
        &board,
        &other,
        CUT_DAY.as_slice(),
    );
    of_each(&rt, rt.alloc(), &day);
    drop(board);
    drop(other);
    drop(day);
}
