//! What the command answers.

ghost use Rattle.std.specs.Prelude.{◌≡◌, ◌&&◌, ◌++◌, ◌∷◌, [], IfOk, Ok, map, vec_len, length as len_of};
ghost use Rattle.gd_machine.specs.Day.{Day};
ghost use Rattle.gd_machine.specs.History.{History};
ghost use Rattle.gd_office.specs.Slots.{AreDaysOf};
ghost use Rattle.gasday_office.specs.Calls.{seen_phase, asked_phase, pipelines};
ghost use Rattle.gasday_office.specs.Days.{days_of as days_by, opened};
ghost use Rattle.gasday_office.specs.Phases as texts;
ghost use Rattle.gd_rounds.specs.Summaries.{is_in_order};
ghost use Rattle.gasday_part.specs.AnswerSeen.{answer_seen};
ghost use Rattle.gasday_office.specs.Offices as spec;

use crate::asked::calls_in;
use crate::books::{books_of, calendars_of};
use crate::days::days_of;
use crate::phases::phases_of;
use gasday_part::{Answer, of_fault, of_no_calendar};
use gd_book::Book;
use gd_day::DayText;
use gd_desk::Open;
use gd_office::Office;
use gd_office_part::{Days, Phase, Slot};
use gd_office_run::{RunFault, run};
use gd_replies::Reply;
use gd_rounds::{Summary, summary_of};
use gd_text_part::{Form, Row, rows_in};
use std::alloc::{AllocError, Global};
use std::marker::Brand;
use std::sync::Wait;
use std::thread::Threads;
use std::time::Clock;

/// An answer that ends early with this row behind the others, or, where there is no memory for it, with that.
fn ended(replies: Vec<Reply>, last: Reply) -> Answer
    requires { spec.EndsRun last }
    ensures { (row : Reply) × spec.EndsRun row × (answer_seen result
        ≡ record { replies = replies.items ++ row ∷ []; status = 2 }) }
{
    let mut replies = replies;
    match replies.push(last) {
        Ok(()) => Answer::whole(replies, 2),
        Err(_) => Answer::cut_short(replies),
    }
}

/// What the gas day of a slot came to, by the history behind its lock, for which it waits.
fn summary_in<R: Wait, J: Days>(rt: &R, slot: &Slot<J>) -> Summary
    ensures { (p : Day × History) × spec.IsEnd J.days slot.now.number p × (result ≡ spec.day_summary p) }
{
    let kept = slot.lock(rt);
    let book = kept.book();
    // (What is proved of the history is known once it is asked for.)
    let _ = book.history();
    summary_of(book, &[])
}

/// Whether all is in order behind a gas day that came to this.
fn stays_in_order(before: bool, summary: &Summary) -> bool
    ensures { result ≡ (before && is_in_order summary.now) }
{
    before && summary.is_in_order()
}

/// What the gas days of an office came to together, by the histories behind its locks, for which it waits, and by the rows that told
/// of their calls; and whether each came to what is in order, and no row tells that a call was refused.
fn course_of<R: Wait, J: Days>(rt: &R, office: &Office<J>, rows: &[Reply]) -> (Summary, bool)
    ensures { spec.IsOrder J.days (len_of office.now.slots.items) rows.now result.1 }
{
    let mut together = Summary::of_rows(rows);
    let mut is_in_order = together.refused == 0;
    'slots: for slot in office.slots() {
        let summary = summary_in(rt, slot);
        is_in_order = stays_in_order(is_in_order, &summary);
        together = together.and(summary);
    }
    (together, is_in_order)
}

/// The exit status of a run.
fn status_of(is_strict: bool, is_reconciled: bool, is_in_order: bool) -> u8
    ensures { result ≡ spec.run_status is_strict is_reconciled is_in_order }
{
    if is_reconciled && (is_in_order || !is_strict) {
        0
    } else {
        1
    }
}

/// What a run of these phases in an office tells.
fn tell_run<R: Threads + Wait + Clock + Sync, J: Days + Send + Sync>(
    rt: &R,
    alloc: Global,
    office: &Office<J>,
    phases: Vec<Phase>,
    is_strict: bool,
) -> Answer
    ensures { spec.TellsPhases is_strict J.days (len_of office.now.slots.items) phases.items (answer_seen result) }
{
    let mut replies = Vec::new(alloc);
    match run(rt, alloc, office, phases, &Open, &mut replies) {
        Ok(is_reconciled) => {
            let (summary, is_in_order) = course_of(rt, office, replies.as_slice());
            let status = status_of(is_strict, is_reconciled, is_in_order);
            Answer::summed(replies, status, summary)
        }
        Err(RunFault::NoThread) => ended(replies, Reply::NoThread),
        Err(RunFault::TooMany) => ended(replies, Reply::TooMany),
        Err(RunFault::OutOfMemory) => Answer::cut_short(replies),
    }
}

/// What a run of these phases tells in an office of books, whose opening values are known.
fn tell_opened<R: Threads + Wait + Clock + Sync, J: Days + Send + Sync>(
    rt: &R,
    alloc: Global,
    books: Vec<Book>,
    phases: Vec<Phase>,
    is_strict: bool,
) -> Result<Answer, AllocError>
    requires { AreDaysOf J.days books.items }
    ensures { IfOk result (λ a. spec.TellsPhases is_strict J.days (vec_len books) phases.items (answer_seen a)) }
{
    match Office::<J>::new(alloc, books) {
        Ok(office) => Ok(tell_run(rt, alloc, &office, phases, is_strict)),
        // A text that was read has at most 64 books, each with a name of its own, so that nothing but memory can be wanting.
        Err(_) => Err(AllocError),
    }
}

/// What a run of these phases in an office of these books tells.
fn tell_books<R: Threads + Wait + Clock + Sync>(
    rt: &R,
    alloc: Global,
    books: Vec<Book>,
    phases: Vec<Phase>,
    is_strict: bool,
) -> Result<Answer, AllocError>
    ensures { IfOk result (λ a. spec.TellsPhases is_strict (map (λ b. b.day) books.items) (vec_len books)
        phases.items (answer_seen a)) }
{
    tell_opened::<R, Brand>(rt, alloc, books, phases, is_strict)
}

/// The phases that the rows ask for, of which nothing else is left. The only error is want of memory.
fn asked_of(alloc: Global, days: &[DayText], rows: Vec<Row>) -> Result<Vec<Phase>, AllocError>
    ensures { IfOk result (λ phases. map seen_phase phases.items
        ≡ map (asked_phase (pipelines days.now)) (texts.phases_of rows.items)) }
{
    let texts = phases_of(alloc, rows.as_slice())?;
    drop(rows);
    calls_in(alloc, days, texts.as_slice())
}

/// What a run of the phases that the rows ask for tells, with a book for each of these gas days.
fn tell_days<R: Threads + Wait + Clock + Sync>(
    rt: &R,
    alloc: Global,
    days: Vec<DayText>,
    rows: Vec<Row>,
    is_strict: bool,
) -> Result<Answer, AllocError>
    ensures { IfOk result (λ a. spec.TellsDays is_strict rows.items (map opened days.items) (answer_seen a)) }
{
    let calendars = match calendars_of(alloc, days.as_slice()) {
        Ok(calendars) => calendars,
        Err(fault) => return of_no_calendar(alloc, fault),
    };
    let phases = asked_of(alloc, days.as_slice(), rows)?;
    let books = books_of(alloc, days, calendars)?;
    tell_books(rt, alloc, books, phases, is_strict)
}

/// What the rows of an office's text are answered.
fn tell_office<R: Threads + Wait + Clock + Sync>(
    rt: &R,
    alloc: Global,
    rows: Vec<Row>,
    is_strict: bool,
) -> Result<Answer, AllocError>
    ensures { IfOk result (λ a. spec.AnswersOffice is_strict rows.items (answer_seen a)) }
{
    match days_of(alloc, rows.as_slice()) {
        Ok(days) => tell_days(rt, alloc, days, rows, is_strict),
        Err(fault) => of_fault(alloc, fault),
    }
}

/// What the bytes of an office's text are answered: its exit status is 0 where all slots are reconciled, 1 where one is not or a
/// gas day has no calendar, 2 after a fault of the text, memory or a thread. Of a strict office it is 1 too where a call was refused,
/// or a gas day didn't come to what is in order. The only error is want of memory. It waits for threads and locks.
pub fn answer_office<R: Threads + Wait + Clock + Sync>(
    rt: &R,
    alloc: Global,
    text: &[u8],
    is_strict: bool,
) -> Result<Answer, AllocError>
    ensures { IfOk result (λ a. spec.AnswersOfficeBytes is_strict text.now (answer_seen a)) }
{
    match rows_in(alloc, Form::Office, text) {
        Ok(rows) => tell_office(rt, alloc, rows, is_strict),
        Err(fault) => of_fault(alloc, fault),
    }
}
