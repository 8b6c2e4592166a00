//! What a contract's quantity lets through, and a history with as many events as there can be.

use crate::calls::{Call, Row, Told, day, makes};
use crate::day::{at, book, dth};
use gd_board::Board;
use gd_book::{Book, MAX_EVENTS, Refusal};
use gd_system::Element;
use std::process::Abort;

/// Lines of a contract of 100.
static QUANTITY: [Row; 7] = [
    (
        1772910000,
        Call::Nominate("FIRM", "P", 60),
        Told::Accepted(1, 1, 0),
    ),
    (
        1772910000,
        Call::Nominate("FIRM", "Q", 41),
        Told::Refused(Refusal::OverContract),
    ),
    (
        1772910000,
        Call::Nominate("FIRM", "Q", 40),
        Told::Accepted(2, 1, 1),
    ),
    (
        1772910000,
        Call::Nominate("FIRM", "P", 50),
        Told::Accepted(3, 1, 0),
    ),
    (
        1772910000,
        Call::Nominate("FIRM", "R", 10),
        Told::Accepted(4, 1, 2),
    ),
    (
        1772910000,
        Call::Nominate("FIRM", "S", 1),
        Told::Refused(Refusal::OverContract),
    ),
    (
        1772910000,
        Call::Nominate("FIRM", "S", 0),
        Told::Accepted(5, 1, 3),
    ),
];

/// A call more than a history has room for, and one that is refused for another reason first.
static TOO_MANY: [Row; 2] = [
    (0, Call::Post(100), Told::Refused(Refusal::TooManyEvents)),
    (
        0,
        Call::Nominate("NONE", "P", 1),
        Told::Refused(Refusal::UnknownContract),
    ),
];

#[test]
fn contract_quantity(rt: HostRuntime) {
    day(&rt, rt.alloc(), "OTHER", QUANTITY.as_slice());
}

/// Fills a history with capacities of S1.
fn fill(rt: &impl Abort, book: &mut Book) {
    for _ in 0..MAX_EVENTS {
        let posted = book.post_capacity(at(rt, 0), Element(0), dth(rt, 100));
        assert!(rt; posted.is_ok());
        drop(posted);
    }
    assert_eq!(rt; book.history().len(), MAX_EVENTS);
}

#[test]
fn full_history(rt: HostRuntime) {
    let (mut full, other) = (book(&rt, rt.alloc(), "DEMO"), book(&rt, rt.alloc(), "NONE"));
    fill(&rt, &mut full);
    let board = Board::new(rt.alloc());
    makes(
        &rt,
        rt.alloc(),
        &mut full,
        &board,
        &other,
        TOO_MANY.as_slice(),
    );
    drop(board);
    drop(other);
    drop(full);
}
