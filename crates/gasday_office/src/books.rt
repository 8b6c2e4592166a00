//! The books of an office.

ghost use Rattle.std.specs.Prelude.{◌≡◌, ◌++◌, ◌∷◌, [], ℕ, List, IfOk, IfErr, OnOk, map, vec_len, length as len_of};
ghost use Rattle.std.specs.List.{AllZip};
ghost use Rattle.gasday_office.specs.Days.{opened};
ghost use Rattle.gasday_part.specs.Answers.{ExplainsDay, day_in};
ghost use Rattle.gasday_office.specs.Offices as spec;

use gasday_part::{DayFault, calendar_of};
use gd_book::Book;
use gd_calendar::Calendar;
use gd_day::DayText;
use std::alloc::{AllocError, Global};

/// Adds the calendar of a gas day.
fn take_day(alloc: Global, calendars: &mut Vec<Calendar>, day: &DayText) -> Result<(), DayFault>
    ensures ok { OnOk result ((moments : List ℕ) × spec.IsCalendarFor (opened day.now) moments
        × (calendars.new.items ≡ calendars.old.items ++ moments ∷ [])) }
    ensures err { IfErr result (ExplainsDay day.now.date day.now.zone) }
{
    let calendar = calendar_of(alloc, day.date, &day.zone)?;
    match calendars.push(calendar) {
        Ok(()) => Ok(()),
        Err(_) => Err(DayFault::OutOfMemory),
    }
}

/// The calendar of each gas day, or why the first that has none has none.
pub(crate) fn calendars_of(alloc: Global, days: &[DayText]) -> Result<Vec<Calendar>, DayFault>
    ensures len { IfOk result (λ calendars. vec_len calendars ≡ len_of days.now) }
    ensures each { IfOk result (λ calendars. AllZip spec.IsCalendarFor (map opened days.now) calendars.items) }
    ensures first { IfErr result (spec.LacksCalendar (map opened days.now)) }
{
    let Ok(mut calendars) = Vec::with_capacity(alloc, days.len()) else {
        return Err(DayFault::OutOfMemory);
    };
    for day in days {
        take_day(alloc, &mut calendars, day)?;
    }
    Ok(calendars)
}

/// Opens a book for each gas day in its calendar. The only error is want of memory.
pub(crate) fn books_of(
    alloc: Global,
    days: Vec<DayText>,
    calendars: Vec<Calendar>,
) -> Result<Vec<Book>, AllocError>
    requires len { vec_len calendars ≡ vec_len days }
    requires each { AllZip spec.IsCalendarFor (map opened days.items) calendars.items }
    ensures len { IfOk result (λ books. vec_len books ≡ vec_len days) }
    ensures each { IfOk result
        (λ books. AllZip spec.IsOpenedWith (map opened days.items) (map (λ b. b.day) books.items)) }
{
    let mut books = Vec::with_capacity(alloc, days.len())?;
    let mut calendars = calendars.into_iter();
    for day in days {
        let Some(calendar) = calendars.next() else {
            unreachable!()
        };
        books.push(open(alloc, day, calendar)?)?;
    }
    Ok(books)
}

/// Opens a book.
fn open(alloc: Global, day: DayText, calendar: Calendar) -> Result<Book, AllocError>
    ensures { IfOk result (λ book. book.day ≡ day_in (opened day) calendar) }
{
    let DayText {
        book,
        contracts,
        carry,
        ..
    } = day;
    match Book::open(alloc, book, contracts, calendar, carry) {
        Ok(book) => Ok(book),
        // No line is carried over twice in a text that was read, so that nothing but memory can be wanting.
        Err(_) => Err(AllocError),
    }
}
