//! The opening of a book.

ghost use Rattle.std.specs.Prelude.{◌≡◌, ◌≢◌, ◌<◌, ◌+◌, [], length, take, IfOk, IfErr, MatchOption};
ghost use Rattle.gd_day.specs.Calls.{calls_of};
ghost use Rattle.gd_live.specs.Seen.{at_desk};
ghost use Rattle.gd_text_part.specs.declared.fault.Cause.TheVariants as cause;
ghost use Rattle.gd_text_part.specs.declared.fault.TextFault.TheVariants as fault;
ghost use Rattle.gasday_part.specs.declared.opened.NoBook.TheVariants as none;
ghost use Rattle.gasday_live.specs.Books.{OpensSo, stand_behind};
ghost use Rattle.gasday_live.specs.Unopened.{OpensNone};

use gasday_part::{NoBook, open_book};
use gd_book::Book;
use gd_day::event_of;
use gd_live::{Desk, Room, is_closed};
use gd_text_part::{Cause, Form, MAX_BYTES, MAX_ROWS, Row, TextFault, rows_in};
use std::alloc::Global;

/// A book with no event, and how many rows and bytes its opening has.
#[derive(Drop)]
pub(crate) struct Opened {
    pub(crate) book: Book,
    pub(crate) rows: usize,
    pub(crate) bytes: usize,
}

impl Opened {
    /// A desk on the book, where as much may be kept behind the opening as a text may have.
    pub(crate) fn into_desk(self, alloc: Global) -> Desk
        ensures { at_desk result ≡ stand_behind self.book self.rows self.bytes }
    {
        let rows = (MAX_ROWS as usize).saturating_sub(self.rows);
        let room = Room::new(rows, MAX_BYTES.saturating_sub(self.bytes));
        Desk::new(alloc, self.book, self.rows as u64, room)
    }
}

/// The first row that is a call, counted from 0.
fn first_call(rows: &[Row]) -> Option<usize>
    ensures { MatchOption result (calls_of rows.now ≡ []) (λ at. (at < length rows.now)
        × (calls_of (take at rows.now) ≡ []) × (calls_of (take (at + 1) rows.now) ≢ [])) }
{
    let mut at = 0;
    'rows: for row in rows {
        if event_of(row).is_some() {
            return Some(at);
        }
        at += 1;
    }
    None
}

/// The fault of a quotation mark where a live row has none: `rows` rows are before its own.
fn quoted(rows: usize) -> NoBook
    ensures { rows < 18446744073709551615
        → result ≡ none.Fault (fault.Row (rows + 1) cause.FieldCount) }
{
    NoBook::Fault(TextFault::at((rows as u64).saturating_add(1), Cause::FieldCount))
}

/// The book that the text of an opening opens.
///
/// # Errors
///
/// As `rows_in` and `open_book` tell them; and `FieldCount` at a row that is a call, or at an open quote, which only a quotation
/// mark can bring into whole lines before the first one that is of calls.
pub(crate) fn open_opening(alloc: Global, text: &[u8]) -> Result<Opened, NoBook>
    ensures opened { IfOk result (λ o. OpensSo text.now o.book o.rows o.bytes) }
    ensures refused { IfErr result (OpensNone text.now) }
{
    let rows = match rows_in(alloc, Form::Day, text) {
        Ok(rows) => rows,
        Err(fault) => return Err(NoBook::Fault(fault)),
    };
    if let Some(at) = first_call(rows.as_slice()) {
        return Err(quoted(at));
    }
    if !is_closed(text) {
        return Err(quoted(rows.len()));
    }
    let book = open_book(alloc, rows.as_slice())?;
    Ok(Opened {
        book,
        rows: rows.len(),
        bytes: text.len(),
    })
}
