//! The board of a slot, read without its lock under two notes.

ghost use Rattle.std.specs.Prelude.{◌≡◌};

use crate::day::{at, dth, name};
use crate::office::calls::{Said, nominate, says, session};
use crate::office::day::{NOMINATED, office};
use crate::office::desks::{round, told_by};
use crate::office::types::Office;
use gd_board::{Board, BoardNote, Posting};
use gd_desk::Open;
use gd_system::Element;
use gd_units::{CycleNo, End};
use std::alloc::Global;
use std::process::Abort;
use std::sync::Wait;
use std::thread::Threads;
use std::time::Clock;

/// The operator of an end confirms 70 of the first line.
fn respond(rt: &(impl Abort + Wait), office: &Office, party: &str, end: End, wanted: Said) {
    let mut session = session(rt, office, 1, party);
    let made = session.respond(rt, at(rt, NOMINATED), 0, end, dth(rt, 70));
    assert_eq!(rt; says(&made.expect(rt, "memory")), wanted);
}

/// Posts a capacity of 40 for D1, which has the number 2.
fn post(rt: &(impl Abort + Wait), office: &Office, wanted: Said) {
    let mut session = session(rt, office, 1, "OPD");
    let made = session.post_capacity(rt, at(rt, NOMINATED), Element(2), dth(rt, 40));
    assert_eq!(rt; says(&made.expect(rt, "memory")), wanted);
}

/// Nominates 70 on a line, which both operators confirm, and posts less than that.
fn confirmed(rt: &(impl Abort + Wait), office: &Office) {
    let _receipt = nominate(rt, &mut session(rt, office, 1, "SHIP"), "P", 70);
    respond(rt, office, "OPR", End::Origin, Said::Done(2));
    respond(rt, office, "OPD", End::Dest, Said::Done(3));
    post(rt, office, Said::Done(4));
}

/// What the desk tells of the line.
fn settled(rt: &(impl Abort + Threads + Wait + Clock + Sync), alloc: Global, office: &Office) {
    let desks = round(rt, alloc, office, &Open);
    let receipts = desks.first().expect(rt, "a desk");
    let told = (Said::Frozen(5, 1, 1, 1), Said::Published(6, 1, 1));
    assert_eq!(rt; told_by(rt, receipts.as_slice()), told);
}

/// The quantity of the first line of a posting of round 1 of DEMO.
fn posted(rt: &impl Abort, posting: &Posting) -> u64 {
    assert_eq!(rt; posting.book, name(rt, "DEMO"));
    assert_eq!(rt; posting.round.number(), 1);
    let first = posting.schedule.quantities().first();
    first.expect(rt, "a line").get()
}

/// Shows what is posted for Timely of the first line, if anything is.
fn reads(rt: &impl Abort, board: &Board, note: &mut BoardNote, wanted: Option<u64>)
    requires { note.old.cells ≡ board.now }
    ensures { note.new.cells ≡ note.old.cells }
{
    let timely = CycleNo::new(1).expect(rt, "a cycle");
    let told = match board.read(timely, note) {
        Some(posting) => Some(posted(rt, posting)),
        None => None,
    };
    assert_eq!(rt; told, wanted);
}

fn under_notes(
    rt: &(impl Abort + Threads + Wait + Clock + Sync),
    alloc: Global,
    office: &Office,
    board: &Board,
) {
    let mut first = board.note();
    reads(rt, board, &mut first, None);
    confirmed(rt, office);
    settled(rt, alloc, office);
    reads(rt, board, &mut first, Some(40));
    let mut second = board.note();
    reads(rt, board, &mut second, Some(40));
    first.compare(second);
}

#[test]
fn read_by_notes(rt: HostRuntime) {
    let office = office(&rt, rt.alloc(), ["DEMO"].as_slice());
    let board = office.board(1).expect(&rt, "a board");
    under_notes(&rt, rt.alloc(), &office, board);
}
