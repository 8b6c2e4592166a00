//! The book that the rows of a gas day open.

ghost use Rattle.std.specs.Prelude.{IfOk, IfErr};
ghost use Rattle.gasday_part.specs.AnswerSeen.{answer_seen};
ghost use Rattle.gasday_part.specs.OpenedBooks as opened;

use crate::answer::{Answer, of_fault};
use crate::day::{DayFault, calendar_of, of_no_calendar};
use gd_book::Book;
use gd_day::{DayText, day_text_of};
use gd_text_part::{Row, TextFault};
use std::alloc::{AllocError, Global};

/// Why rows open no book.
#[derive(Clone, Copy, Debug, PartialEq, Eq, Drop)]
pub enum NoBook {
    /// The first refusal of the rows, or want of memory.
    Fault(TextFault),
    /// Their gas day has no calendar in their zone, or want of memory.
    NoCalendar(DayFault),
}

/// The book that a text opens.
fn open_text(alloc: Global, text: DayText) -> Result<Book, NoBook>
    ensures opened { IfOk result (opened.IsOpened (record {
      date = text.date;
      zone = text.zone;
      book = text.book;
      holdings = text.contracts;
      carry = text.carry.items;
    })) }
    ensures refused { IfErr result (opened.ExplainsNone text.date text.zone) }
{
    let DayText {
        date,
        zone,
        book,
        contracts,
        carry,
    } = text;
    match calendar_of(alloc, date, &zone) {
        Ok(calendar) => match Book::open(alloc, book, contracts, calendar, carry) {
            Ok(book) => Ok(book),
            // No line is carried over twice, so that nothing but memory can be wanting.
            Err(_) => Err(NoBook::Fault(TextFault::OutOfMemory)),
        },
        Err(fault) => {
            drop(contracts);
            drop(carry);
            Err(NoBook::NoCalendar(fault))
        }
    }
}

/// The book that the rows of a gas day open, with no event yet: their calls can be made on it.
///
/// # Errors
///
/// `Fault` with the first refusal of the rows, as `day_text_of` tells it; then `NoCalendar`, as `calendar_of` tells it. Want of
/// memory may come in place of either.
pub fn open_book(alloc: Global, rows: &[Row]) -> Result<Book, NoBook>
    ensures opened { IfOk result (opened.OpensBook rows.now) }
    ensures refused { IfErr result (opened.ExplainsNoBook rows.now) }
{
    match day_text_of(alloc, rows) {
        Ok(text) => open_text(alloc, text),
        Err(fault) => Err(NoBook::Fault(fault)),
    }
}

/// The answer to rows that open no book. Want of memory is handed on as such.
pub fn of_no_book(alloc: Global, why: NoBook) -> Result<Answer, AllocError>
    ensures { IfOk result (λ a. opened.TellsNoBook why (answer_seen a)) }
{
    match why {
        NoBook::Fault(fault) => of_fault(alloc, fault),
        NoBook::NoCalendar(fault) => of_no_calendar(alloc, fault),
    }
}
