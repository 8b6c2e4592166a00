//! All calls of a day's text.

ghost use Rattle.std.specs.Prelude.{◌≡◌, [], ◌∷◌, ◌++◌, MatchOption, OnOk, OnErr};
ghost use Rattle.gd_day.specs.Calls.{calls_of};
ghost use Rattle.gd_day.specs.Groups.{AllPass};
ghost use Rattle.gd_book.specs.Postings.{AllPosted};
ghost use Rattle.gd_machine.specs.Headline.{Holds};
ghost use Rattle.gd_course.specs.Course as spec;

use crate::event::call;
use gd_board::{Board, BoardNote};
use gd_book::Book;
use gd_day::event_of;
use gd_replies::Reply;
use gd_text_part::Row;
use std::alloc::{AllocError, Global};
use std::thread::Threads;

/// How many rows' room is given back at a time.
const ROWS: usize = 1 << 14;

/// The next of rows that lie from the last one to the first, which leaves them. What room they no longer need is given back,
/// many rows at a time.
fn next_row(rows: &mut Vec<Row>) -> Option<Row>
    ensures { MatchOption result (rows.old.items ≡ []) (λ row. rows.old.items ≡ rows.new.items ++ row ∷ []) }
{
    if rows.len().is_multiple_of(ROWS) {
        rows.shrink_to_fit();
    }
    rows.pop()
}

/// Makes the calls of a text's rows one after the other, and appends to `told` what is told of each. It asks for rows whose
/// groups can be made, and for a note of the board. What holds of every history of a book holds of that at the end. The rows are
/// let go of as they are made, since those of a long day take as much room as its book. The only error is want of memory: then
/// `told` has what is told of the first calls.
pub fn run(
    rt: &(impl Threads + Sync),
    alloc: Global,
    book: &mut Book,
    board: &Board,
    note: &mut BoardNote,
    rows: Vec<Row>,
    told: &mut Vec<Reply>,
) -> Result<(), AllocError>
    requires board { note.old.cells ≡ board.now }
    requires pass { AllPass book.old.day.holdings.pipeline (calls_of rows.items) }
    requires empty { told.old.items ≡ [] }
    ensures ok { OnOk result (spec.Runs book.old.day book.old.history
        (calls_of rows.items) told.new.items book.new.history) }
    ensures holds { OnOk result (Holds book.old.day book.new.history) }
    ensures err { OnErr result (spec.RunsInPart book.old.day book.old.history
        (calls_of rows.items) told.new.items) }
    ensures day { book.new.day ≡ book.old.day }
    ensures board { note.new.cells ≡ note.old.cells }
    ensures posted { OnOk result (AllPosted book.old.day book.old.history note.old
        → AllPosted book.old.day book.new.history note.new) }
{
    let _ = book.history();
    let mut left = rows;
    left.reverse();
    let mut group = Vec::new(alloc);
    'calls: while let Some(row) = next_row(&mut left) {
        let Some(event) = event_of(&row) else {
            group.push(row)?;
            continue;
        };
        let mut answer = call(rt, alloc, book, board, note, group.as_slice(), event)?;
        told.append(&mut answer)?;
        let _ = book.history();
        group.clear();
    }
    Ok(())
}
