//! What is told of the course of a gas day.

ghost use Rattle.std.specs.Prelude.{◌≡◌, [], IfOk};
ghost use Rattle.gd_day.specs.Calls.{calls_of};
ghost use Rattle.gd_day.specs.Groups.{AllPass};
ghost use Rattle.gd_day.specs.Opening.{opened_of};
ghost use Rattle.gasday_part.specs.Answers as spec;
ghost use Rattle.gasday_part.specs.AnswerSeen.{answer_seen};

use crate::answer::Answer;
use crate::opened::{of_no_book, open_book};
use gd_board::Board;
use gd_book::Book;
use gd_course::run;
use gd_rounds::{Summary, summary_of};
use gd_text_part::Row;
use std::alloc::{AllocError, Global};
use std::thread::Threads;

/// The exit status of a course that came to this.
pub fn course_status(is_strict: bool, summary: &Summary) -> u8
    ensures { result ≡ spec.course_status is_strict summary.now }
{
    if is_strict && !summary.is_in_order() {
        1
    } else {
        0
    }
}

/// What the calls of the rows give on a new book.
fn tell_calls(
    rt: &(impl Threads + Sync),
    alloc: Global,
    book: &mut Book,
    rows: Vec<Row>,
    is_strict: bool,
) -> Answer
    requires new { book.old.history ≡ [] }
    requires pass { AllPass book.old.day.holdings.pipeline (calls_of rows.items) }
    ensures { spec.TellsCourse is_strict book.old.day (calls_of rows.items) (answer_seen result) }
{
    let board = Board::new(alloc);
    let mut note = board.note();
    let mut replies = Vec::new(alloc);
    match run(rt, alloc, book, &board, &mut note, rows, &mut replies) {
        Ok(()) => {
            let summary = summary_of(book, replies.as_slice());
            Answer::summed(replies, course_status(is_strict, &summary), summary)
        }
        Err(_) => Answer::cut_short(replies),
    }
}

/// The course of the gas day that the rows tell. A strict one ends with status 1 where it didn't come to what is in order.
pub(crate) fn tell_day(
    rt: &(impl Threads + Sync),
    alloc: Global,
    rows: Vec<Row>,
    is_strict: bool,
) -> Result<Answer, AllocError>
    ensures { IfOk result (λ a. spec.TellsDay is_strict rows.items (opened_of rows.items) (answer_seen a)) }
{
    match open_book(alloc, rows.as_slice()) {
        Ok(mut book) => {
            let told = tell_calls(rt, alloc, &mut book, rows, is_strict);
            drop(book);
            Ok(told)
        }
        Err(why) => of_no_book(alloc, why),
    }
}
