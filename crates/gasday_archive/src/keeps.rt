//! Keeping what a gas day published.

ghost use Rattle.std.specs.Prelude.{◌≡◌, ◌<◌, ◌≤◌, ◌+◌, ◌++◌, All, IfOk, OnErr};
ghost use Rattle.std.specs.Vec.{vec_len, vec_capacity};
ghost use Rattle.sqlite.specs.Held.{state};
ghost use Rattle.sqlite.specs.State.{HasCleanDisk};
ghost use Rattle.gd_board.specs.Known.{StaysKnown};
ghost use Rattle.gd_book.specs.Postings.{AllPosted};
ghost use Rattle.gasday_archive.specs.Keeping as spec;

use gd_archive::{KeepFault, Repeat, Repeated, StoreFault, compare, keep};
use gd_board::{Board, BoardNote, Posting};
use gd_book::{Book, Event, Reply as BookReply};
use gd_replies::Reply;
use gd_units::CycleNo;
use sqlite::{Alter, Connection};
use std::alloc::{AllocError, Global};

/// The cycles that a history published, in order.
fn published_cycles(
    alloc: Global,
    history: &[(Event, BookReply)],
) -> Result<Vec<CycleNo>, AllocError>
    ensures { IfOk result (λ cycles. cycles.items ≡ spec.published_cycles history.now) }
{
    let mut cycles = Vec::new(alloc);
    'events: for event in history {
        if let BookReply::Published { cycle, .. } = &event.1 {
            cycles.push(*cycle)?;
        }
    }
    Ok(cycles)
}

/// What came of keeping a posting.
#[derive(Debug, Drop)]
pub(crate) enum KeepAnswer {
    /// It is kept.
    Kept,
    /// One of its book and cycle was kept before. How that goes with it, where it could be read.
    Before(Option<Repeat>),
    /// The archive refuses.
    Refused(StoreFault),
}

/// How what is kept goes with a posting, where it can be read.
fn compared<S: Alter>(conn: &mut Connection<S>, alloc: Global, posting: &Posting) -> Option<Repeat>
    ensures compared { HasCleanDisk (state S.Store conn.new) → spec.HasCompared
        (state S.Store conn.old) (state S.Store conn.new) posting.now result }
    ensures clean { HasCleanDisk (state S.Store conn.new) → HasCleanDisk (state S.Store conn.old) }
{
    match compare(conn, alloc, posting) {
        Ok(found) => found,
        Err(_) => None,
    }
}

/// Keeps a posting, or compares it with the one of its book and cycle that is kept already.
fn try_keep<S: Alter>(conn: &mut Connection<S>, alloc: Global, posting: &Posting) -> KeepAnswer
    ensures tried { HasCleanDisk (state S.Store conn.new) → spec.Tries
        S.Store conn.old conn.new posting.now result }
    ensures clean { HasCleanDisk (state S.Store conn.new) → HasCleanDisk (state S.Store conn.old) }
{
    match keep(conn, alloc, posting) {
        Ok(()) => KeepAnswer::Kept,
        Err(KeepFault::Kept) => KeepAnswer::Before(compared(conn, alloc, posting)),
        Err(KeepFault::OldVersion) => KeepAnswer::Refused(StoreFault::OldVersion),
        Err(KeepFault::Store(error)) => KeepAnswer::Refused(StoreFault::Store(error)),
    }
}

/// Keeps the posting of a cycle, which the note knows. It asks for a note of the board.
fn keep_cycle<S: Alter>(
    conn: &mut Connection<S>,
    alloc: Global,
    board: &Board,
    note: &mut BoardNote,
    cycle: CycleNo,
) -> KeepAnswer
    requires board { note.old.cells ≡ board.now }
    requires known { spec.IsThere note.old cycle }
    ensures board { note.new.cells ≡ note.old.cells }
    ensures stays { StaysKnown note.old note.new }
    ensures tried { HasCleanDisk (state S.Store conn.new) → spec.TriesKnown S.Store
        note.old cycle conn.old conn.new result }
    ensures clean { HasCleanDisk (state S.Store conn.new) → HasCleanDisk (state S.Store conn.old) }
{
    let Some(posting) = board.read(cycle, note) else {
        unreachable!();
    };
    try_keep(conn, alloc, posting)
}

/// The exit status behind an answer.
fn status_of(is_strict: bool, answer: &KeepAnswer) -> u8
    ensures { result ≡ spec.answer_status is_strict answer.now }
{
    match answer {
        KeepAnswer::Kept => 0,
        KeepAnswer::Before(Some(Repeat::Same)) if is_strict => 0,
        KeepAnswer::Before(_) => 1,
        KeepAnswer::Refused(_) => 2,
    }
}

/// Appends the row of an answer, if one tells of it. It asks for room.
fn tell(answer: &KeepAnswer, told: &mut Vec<Reply>)
    requires { vec_len told.old < vec_capacity told.old }
    ensures rows { told.new.items ≡ told.old.items ++ spec.keep_rows answer.now }
    ensures room { vec_capacity told.new ≡ vec_capacity told.old }
    ensures len { vec_len told.new ≤ vec_len told.old + 1 }
{
    match answer {
        KeepAnswer::Kept => {}
        KeepAnswer::Before(_) => told.push_reserved(Reply::Kept),
        KeepAnswer::Refused(StoreFault::OldVersion) => told.push_reserved(Reply::OldVersion),
        KeepAnswer::Refused(StoreFault::Store(_)) => told.push_reserved(Reply::Store),
    }
}

/// Notes how a posting that was kept before goes with that of this cycle, where there is memory for it.
fn note_repeat(answer: &KeepAnswer, cycle: CycleNo, repeats: &mut Vec<Repeated>) {
    if let KeepAnswer::Before(found) = answer {
        let _ = repeats.push(Repeated {
            cycle,
            found: *found,
        });
    }
}

/// Keeps the postings of these cycles, which the note knows, up to a refusal other than `Kept`. It appends the rows of the
/// refusals to `told`, notes in `repeats` how what was kept before goes with what was published, and answers the exit status. It
/// asks for a note of the board. The only error is want of memory, and then nothing is kept.
fn keep_all<S: Alter>(
    conn: &mut Connection<S>,
    alloc: Global,
    board: &Board,
    note: &mut BoardNote,
    cycles: &[CycleNo],
    is_strict: bool,
    told: &mut Vec<Reply>,
    repeats: &mut Vec<Repeated>,
) -> Result<u8, AllocError>
    requires board { note.old.cells ≡ board.now }
    requires known { All (spec.IsThere note.old) cycles.now }
    ensures kept { HasCleanDisk (state S.Store conn.new) → IfOk result (spec.KeepsTold
        S.Store is_strict (spec.IsKnownIn note.old) cycles.now conn.old conn.new told.old.items
        told.new.items) }
    ensures clean { HasCleanDisk (state S.Store conn.new) → HasCleanDisk (state S.Store conn.old) }
    ensures short { OnErr result (conn.new ≡ conn.old) }
    ensures untold { OnErr result (told.new.items ≡ told.old.items) }
{
    told.reserve(cycles.len())?;
    let mut status = 0;
    'cycles: for &cycle in cycles {
        let answer = keep_cycle(conn, alloc, board, note, cycle);
        let ends = status_of(is_strict, &answer);
        status = status.max(ends);
        tell(&answer, told);
        note_repeat(&answer, cycle, repeats);
        if ends == 2 {
            return Ok(status);
        }
    }
    Ok(status)
}

/// Keeps what a book published, by cycle, as `keep_all` does. It asks for a note of the board that knows what was published.
pub(crate) fn keep_published<S: Alter>(
    conn: &mut Connection<S>,
    alloc: Global,
    book: &Book,
    board: &Board,
    note: &mut BoardNote,
    is_strict: bool,
    told: &mut Vec<Reply>,
    repeats: &mut Vec<Repeated>,
) -> Result<u8, AllocError>
    requires board { note.old.cells ≡ board.now }
    requires posted { AllPosted book.now.day book.now.history note.old }
    ensures kept { HasCleanDisk (state S.Store conn.new) → IfOk result (spec.KeepsTold
        S.Store is_strict (spec.IsPublishedIn book.now.day book.now.history)
        (spec.published_cycles book.now.history) conn.old conn.new told.old.items
        told.new.items) }
    ensures clean { HasCleanDisk (state S.Store conn.new) → HasCleanDisk (state S.Store conn.old) }
    ensures short { OnErr result (conn.new ≡ conn.old) }
    ensures untold { OnErr result (told.new.items ≡ told.old.items) }
{
    let cycles = published_cycles(alloc, book.history())?;
    keep_all(
        conn,
        alloc,
        board,
        note,
        cycles.as_slice(),
        is_strict,
        told,
        repeats,
    )
}
