//! A gas day whose postings are kept.

ghost use Rattle.std.specs.Prelude.{◌≡◌, [], ◌∷◌, ◌++◌, IfOk, OnErr};
ghost use Rattle.sqlite.specs.Held.{state};
ghost use Rattle.sqlite.specs.State.{HasCleanDisk};
ghost use Rattle.gd_day.specs.Calls.{calls_of};
ghost use Rattle.gd_day.specs.Groups.{AllPass};
ghost use Rattle.gd_course.specs.Course.{RunsInPart};
ghost use Rattle.gasday_part.specs.AnswerSeen.{answer_seen};
ghost use Rattle.gasday_part.specs.Answers.{no_memory};
ghost use Rattle.gasday_archive.specs.Runs as spec;

use crate::answer::of_store_fault;
use crate::keeps::keep_published;
use gasday_part::{Answer, course_status};
use gd_archive::{Repeated, make};
use gd_board::Board;
use gd_book::Book;
use gd_course::run;
use gd_replies::Reply;
use gd_rounds::{Summary, summary_of};
use gd_text_part::Row;
use sqlite::{Alter, Connection};
use std::alloc::{AllocError, Global};
use std::thread::Threads;

/// Makes the calls of the rows on a new book, and keeps what it published. It appends to `told` what they give, notes in `repeats` how
/// what was kept before goes with what was published, and answers the exit status, with what the gas day came to. The only error is
/// want of memory: then nothing is kept, and `told` has what the first calls give.
fn run_and_keep<S: Alter>(
    rt: &(impl Threads + Sync),
    alloc: Global,
    conn: &mut Connection<S>,
    book: &mut Book,
    rows: Vec<Row>,
    is_strict: bool,
    told: &mut Vec<Reply>,
    repeats: &mut Vec<Repeated>,
) -> Result<(u8, Summary), AllocError>
    requires new { book.old.history ≡ [] }
    requires pass { AllPass book.old.day.holdings.pipeline (calls_of rows.items) }
    requires empty { told.old.items ≡ [] }
    ensures kept { HasCleanDisk (state S.Store conn.new) → IfOk result (λ ended.
        spec.KeepsRun S.Store is_strict book.old.day (calls_of rows.items) conn.old conn.new told.new.items ended.0) }
    ensures clean { HasCleanDisk (state S.Store conn.new) → HasCleanDisk (state S.Store conn.old) }
    ensures short { OnErr result (conn.new ≡ conn.old) }
    ensures part { OnErr result (RunsInPart book.old.day [] (calls_of rows.items) told.new.items) }
{
    let board = Board::new(alloc);
    let mut note = board.note();
    run(rt, alloc, book, &board, &mut note, rows, told)?;
    let summary = summary_of(book, told.as_slice());
    let status = keep_published(
        conn, alloc, book, &board, &mut note, is_strict, told, repeats,
    )?;
    Ok((status.max(course_status(is_strict, &summary)), summary))
}

/// Makes the calls of the rows on a new book, and keeps what it published, and tells both.
fn tell_calls<S: Alter>(
    rt: &(impl Threads + Sync),
    alloc: Global,
    conn: &mut Connection<S>,
    book: &mut Book,
    rows: Vec<Row>,
    is_strict: bool,
    repeats: &mut Vec<Repeated>,
) -> Answer
    requires new { book.old.history ≡ [] }
    requires pass { AllPass book.old.day.holdings.pipeline (calls_of rows.items) }
    ensures kept { HasCleanDisk (state S.Store conn.new) → spec.TellsKept S.Store is_strict
        book.old.day (calls_of rows.items) conn.old conn.new (answer_seen result) }
    ensures clean { HasCleanDisk (state S.Store conn.new) → HasCleanDisk (state S.Store conn.old) }
{
    let mut replies = Vec::new(alloc);
    match run_and_keep(
        rt,
        alloc,
        conn,
        book,
        rows,
        is_strict,
        &mut replies,
        repeats,
    ) {
        Ok((status, summary)) => Answer::summed(replies, status, summary),
        Err(_) => Answer::cut_short(replies),
    }
}

/// Makes the archive where there is none, and then the calls of the rows on a new book.
pub(crate) fn tell_in_archive<S: Alter>(
    rt: &(impl Threads + Sync),
    alloc: Global,
    conn: &mut Connection<S>,
    book: &mut Book,
    rows: Vec<Row>,
    is_strict: bool,
    repeats: &mut Vec<Repeated>,
) -> Result<Answer, AllocError>
    requires new { book.old.history ≡ [] }
    requires pass { AllPass book.old.day.holdings.pipeline (calls_of rows.items) }
    ensures made { spec.Tells (λ a. HasCleanDisk (state S.Store conn.new) → spec.TellsMade S.Store is_strict
        book.old.day (calls_of rows.items) conn.old conn.new a) result }
    ensures clean { HasCleanDisk (state S.Store conn.new) → HasCleanDisk (state S.Store conn.old) }
{
    match make(conn) {
        Ok(()) => Ok(tell_calls(rt, alloc, conn, book, rows, is_strict, repeats)),
        Err(fault) => of_store_fault(alloc, fault),
    }
}
