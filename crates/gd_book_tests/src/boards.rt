//! Certificates that don't fit the round, a board that is taken, and notes of one board.

ghost use Rattle.std.specs.Prelude.{◌≡◌};

use crate::calls::{Call, Row, Told, asked, day, frozen, makes};
use crate::day::{cycle, dth, made, name, pipeline, round};
use gd_board::{Board, BoardNote};
use gd_book::{Book, Refusal};
use gd_question::{Question, QuestionBuilder};
use gd_units::End;
use std::alloc::Global;
use std::process::Abort;
use std::thread::Threads;

/// Round 1, of one line that both ends confirm. The other book's question of that round is another one: its certificate
/// comes before a publish, before the next freeze and after it.
static OTHERS: [Row; 9] = [
    (
        1772910900,
        Call::Nominate("INT", "P", 70),
        Told::Accepted(1, 1, 0),
    ),
    (1772910902, Call::Respond(0, End::Origin, 70), Told::Done(2)),
    (1772910903, Call::Respond(0, End::Dest, 70), Told::Done(3)),
    (1772922600, Call::Freeze, Told::Frozen(4, 1, 1, 1)),
    (
        1772922600,
        Call::Offer,
        Told::Refused(Refusal::OtherQuestion),
    ),
    (1772922600, Call::Settle, Told::Published(5, 1, 1, (0, 0))),
    (1772922600, Call::Offer, Told::Refused(Refusal::NotFrozen)),
    (1772937000, Call::Freeze, Told::Frozen(6, 2, 2, 1)),
    (
        1772937000,
        Call::Offer,
        Told::Refused(Refusal::StaleRound(2)),
    ),
];

/// The same round with the certificates of a book alike.
static ALIKE: [Row; 8] = [
    (
        1772910900,
        Call::Nominate("INT", "P", 70),
        Told::Accepted(1, 1, 0),
    ),
    (1772910902, Call::Respond(0, End::Origin, 70), Told::Done(2)),
    (1772910903, Call::Respond(0, End::Dest, 70), Told::Done(3)),
    (1772922600, Call::Freeze, Told::Frozen(4, 1, 1, 1)),
    (1772922600, Call::Offer, Told::Published(5, 1, 1, (0, 0))),
    (1772922600, Call::Offer, Told::Refused(Refusal::NotFrozen)),
    (1772937000, Call::Freeze, Told::Frozen(6, 2, 2, 1)),
    (
        1772937000,
        Call::Offer,
        Told::Refused(Refusal::StaleRound(2)),
    ),
];

#[test]
fn once_a_round(rt: HostRuntime) {
    day(&rt, rt.alloc(), "OTHER", OTHERS.as_slice());
    day(&rt, rt.alloc(), "DEMO", ALIKE.as_slice());
}

/// A publish on a board that nothing is posted on.
static FREE: [Row; 1] = [(1772922600, Call::Settle, Told::Published(5, 1, 1, (0, 0)))];

static TAKEN: [Row; 1] = [(1772922600, Call::Settle, Told::Refused(Refusal::BoardTaken))];

/// Shows whether the book DEMO has posted for Timely.
fn reads(rt: &impl Abort, board: &Board, note: &mut BoardNote, wanted: bool)
    requires { note.old.cells ≡ board.now }
    ensures { note.new.cells ≡ note.old.cells }
{
    let demo = name(rt, "DEMO");
    let posting = board.read(cycle(rt, 1), note);
    assert_eq!(rt; posting.is_some_and(|posting| posting.book == demo), wanted);
}

/// Two books publish on one board, and the one that comes too late on a board of its own.
fn post_both(
    rt: &(impl Abort + Threads + Sync),
    alloc: Global,
    first: &mut Book,
    second: &mut Book,
    board: &Board,
) {
    makes(rt, alloc, first, board, second, FREE.as_slice());
    makes(rt, alloc, second, board, first, TAKEN.as_slice());
    let free = Board::new(alloc);
    makes(rt, alloc, second, &free, first, FREE.as_slice());
    drop(free);
}

/// A note from before both publish and one from after it read the same.
fn under_two_notes(
    rt: &(impl Abort + Threads + Sync),
    alloc: Global,
    first: &mut Book,
    second: &mut Book,
    board: &Board,
) {
    let mut former = board.note();
    reads(rt, board, &mut former, false);
    post_both(rt, alloc, first, second, board);
    reads(rt, board, &mut former, true);
    let mut latter = board.note();
    reads(rt, board, &mut latter, true);
    former.compare(latter);
}

fn builder(rt: &impl Abort, alloc: Global) -> QuestionBuilder {
    let (timely, first) = (cycle(rt, 1), round(rt, 1));
    let builder = QuestionBuilder::new(alloc, pipeline(rt, alloc), name(rt, "DEMO"), timely, first);
    made(rt, builder)
}

fn add_line(rt: &impl Abort, builder: &mut QuestionBuilder) {
    let added = builder.line(name(rt, "R1"), name(rt, "D1"), 4, dth(rt, 0), dth(rt, 70));
    assert!(rt; added.is_ok());
}

/// The question of round 1 of DEMO, as it is built by hand.
fn question(rt: &impl Abort, alloc: Global) -> Question {
    let mut builder = builder(rt, alloc);
    add_line(rt, &mut builder);
    builder.finish()
}

fn shows_question(rt: &impl Abort, alloc: Global, book: &Book) {
    let question = question(rt, alloc);
    assert!(rt; frozen(rt, book).same(&question));
    drop(question);
}

#[test]
fn taken_board(rt: HostRuntime) {
    let (mut first, mut second) = (
        asked(&rt, rt.alloc(), "DEMO"),
        asked(&rt, rt.alloc(), "OTHER"),
    );
    let board = Board::new(rt.alloc());
    shows_question(&rt, rt.alloc(), &first);
    under_two_notes(&rt, rt.alloc(), &mut first, &mut second, &board);
    drop(board);
    drop(second);
    drop(first);
}
