//! Receipts that a book never made: those of a twin, which gives the same event another number, or the same number once more.

use crate::day::{at, dth};
use crate::office::calls::{reconciles, session};
use crate::office::day::{NOMINATED, keep, line, office};
use crate::office::receipts::misfit;
use crate::office::types::{Office, Session};
use gd_office::ReconcileFault;
use gd_office_part::Receipt;
use gd_system::Element;
use gd_units::End;
use std::alloc::Global;
use std::process::Abort;
use std::sync::Wait;

/// A call of SHIP.
#[derive(Clone, Copy)]
enum Call {
    /// Nominates on the first line, which there is from then on.
    Nominate,
    /// Confirms the first line, of which SHIP is no operator: `UnknownLine` as long as there is no line, and then `NotOperator`.
    Respond,
    /// Posts a capacity, which changes no other reply but its number.
    Post,
}

/// The slot, its call, and the list to which the receipt goes, if it goes to any.
type Row = (u32, Call, Option<usize>);

/// The slot against whose book the lists are held.
const BOOK: u32 = 1;

const TWIN: u32 = 2;

/// The twin's nomination is its third event. The book has a capacity there.
static OTHER_NUMBER: [Row; 6] = [
    (BOOK, Call::Post, Some(0)),
    (TWIN, Call::Post, None),
    (TWIN, Call::Post, None),
    (TWIN, Call::Nominate, Some(0)),
    (BOOK, Call::Nominate, None),
    (BOOK, Call::Post, Some(0)),
];

/// The twin's nomination has the number 2, as the book's has, which stands in list 0.
static DOUBLED: [Row; 4] = [
    (BOOK, Call::Post, Some(0)),
    (BOOK, Call::Nominate, Some(0)),
    (TWIN, Call::Post, None),
    (TWIN, Call::Nominate, Some(1)),
];

/// Without the book's own receipt of it number 2 is given once, and nothing tells who made it.
static ONCE: [Row; 4] = [
    (BOOK, Call::Post, Some(0)),
    (BOOK, Call::Nominate, None),
    (TWIN, Call::Post, None),
    (TWIN, Call::Nominate, Some(1)),
];

/// After one event the twin has no line yet. The book has one, and would answer `NotOperator`. That the nomination has a
/// number no greater than the length before it comes later.
static LONGER: [Row; 3] = [
    (TWIN, Call::Post, None),
    (TWIN, Call::Respond, Some(0)),
    (BOOK, Call::Nominate, Some(0)),
];

/// After no event both answer `UnknownLine`, but the list has number 1 before it.
static SHORTER: [Row; 2] = [
    (BOOK, Call::Nominate, Some(0)),
    (TWIN, Call::Respond, Some(0)),
];

/// In a list of its own it may come first.
static SHORTER_APART: [Row; 2] = [
    (BOOK, Call::Nominate, Some(0)),
    (TWIN, Call::Respond, Some(1)),
];

/// The book has one event, and never had two.
static TOO_LONG: [Row; 4] = [
    (BOOK, Call::Nominate, Some(0)),
    (TWIN, Call::Post, None),
    (TWIN, Call::Post, None),
    (TWIN, Call::Respond, Some(1)),
];

fn make(rt: &(impl Abort + Wait), session: &mut Session<'_>, call: Call) -> Receipt {
    let (moment, quantity) = (at(rt, NOMINATED), dth(rt, 40));
    let made = match call {
        Call::Nominate => session.nominate(rt, moment, line(rt, "A0"), quantity),
        Call::Respond => session.respond(rt, moment, 0, End::Origin, quantity),
        Call::Post => session.post_capacity(rt, moment, Element(2), quantity),
    };
    made.expect(rt, "memory")
}

/// Makes a call, and keeps its receipt where it goes to a list.
fn add(rt: &(impl Abort + Wait), office: &Office, lists: &mut [Vec<Receipt>], row: Row) {
    let (slot, call, list) = row;
    let receipt = make(rt, &mut session(rt, office, slot, "SHIP"), call);
    if let Some(at) = list {
        keep(rt, lists.get_mut(at).expect(rt, "a list"), receipt);
    }
}

/// Two lists of the receipts that go to them.
fn lists(
    rt: &(impl Abort + Wait),
    alloc: Global,
    office: &Office,
    rows: &[Row],
) -> [Vec<Receipt>; 2] {
    let mut lists = [Vec::new(alloc), Vec::new(alloc)];
    for row in rows {
        add(rt, office, lists.as_mut_slice(), *row);
    }
    lists
}

/// Makes calls on a book and its twin, and shows what both lists are told.
fn shows(
    rt: &(impl Abort + Wait),
    alloc: Global,
    rows: &[Row],
    wanted: Result<u64, ReconcileFault>,
) {
    let office = office(rt, alloc, ["BOOK", "TWIN"].as_slice());
    let lists = lists(rt, alloc, &office, rows);
    reconciles(rt, alloc, &office, BOOK, lists.as_slice(), wanted);
}

#[test]
fn forged_receipts(rt: HostRuntime) {
    shows(&rt, rt.alloc(), OTHER_NUMBER.as_slice(), misfit(0, 1));
    shows(&rt, rt.alloc(), DOUBLED.as_slice(), misfit(1, 0));
    shows(&rt, rt.alloc(), ONCE.as_slice(), Ok(2));
    shows(&rt, rt.alloc(), LONGER.as_slice(), misfit(0, 0));
    shows(&rt, rt.alloc(), SHORTER.as_slice(), misfit(0, 1));
    shows(&rt, rt.alloc(), SHORTER_APART.as_slice(), Ok(1));
    shows(&rt, rt.alloc(), TOO_LONG.as_slice(), misfit(1, 0));
}
