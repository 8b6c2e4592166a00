//! What is done with an archive that the opener gives.

ghost use Rattle.std.specs.Prelude.{◌≡◌, [], None};
ghost use Rattle.sqlite.specs.Held.{state};
ghost use Rattle.sqlite.specs.State.{HasCleanDisk};
ghost use Rattle.gd_day.specs.Calls.{calls_of};
ghost use Rattle.gd_day.specs.Groups.{AllPass};
ghost use Rattle.gd_day.specs.Opening.{opened_of};
ghost use Rattle.gasday_archive.specs.Runs as spec;

use crate::answer::{of_audit, of_each, of_migration, of_no_store, of_store_fault};
use crate::day::tell_in_archive;
use gasday_part::{Answer, calendar_of, of_fault, of_no_calendar};
use gd_archive::{Opener, Repeated, audit, audit_each, migrate};
use gd_book::Book;
use gd_day::{DayText, day_text_of};
use gd_text_part::{Form, Row, rows_in};
use sqlite::{Alter, Connection, Error};
use std::alloc::{AllocError, Global};
use std::thread::Threads;

/// What is told, and the archive that was opened, as it is left, to be closed. The only error is want of memory.
#[derive(Drop)]
pub struct Outcome<S: Alter + Drop> {
    pub answer: Result<Answer, AllocError>,
    pub archive: Option<Connection<S>>,
    /// The postings of which the archive had one of the same book and cycle, where a gas day was kept.
    pub repeats: Option<Vec<Repeated>>,
}

impl<S: Alter + Drop> Outcome<S> {
    /// An answer for which nothing is open.
    pub fn unopened(answer: Result<Answer, AllocError>) -> Outcome<S>
        ensures answer { result.answer ≡ answer }
        ensures archive { result.archive ≡ None }
    {
        Outcome {
            answer,
            archive: None,
            repeats: None,
        }
    }
}

/// Audits an archive that is open: how many of its postings are sound, or the first that is not, or why it can't be read. The only
/// error is want of memory.
pub fn audit_archive<S: Alter>(
    alloc: Global,
    conn: &mut Connection<S>,
) -> Result<Answer, AllocError>
    ensures told { spec.Tells (λ a. HasCleanDisk (state S.Store conn.new)
        → spec.TellsAudit S.Store conn.old conn.new a) result }
    ensures clean { HasCleanDisk (state S.Store conn.new) → HasCleanDisk (state S.Store conn.old) }
{
    let found = audit(conn, alloc);
    of_audit(alloc, &found)
}

/// Audits each posting of an archive that is open: what is found of each, and how many are sound, or why it can't be read. The only
/// error is want of memory.
pub fn audit_postings<S: Alter>(
    alloc: Global,
    conn: &mut Connection<S>,
) -> Result<Answer, AllocError>
    ensures told { spec.Tells (λ a. HasCleanDisk (state S.Store conn.new)
        → spec.TellsEach S.Store conn.old conn.new a) result }
    ensures clean { HasCleanDisk (state S.Store conn.new) → HasCleanDisk (state S.Store conn.old) }
{
    match audit_each(conn, alloc) {
        Ok(findings) => of_each(alloc, findings.as_slice()),
        Err(fault) => of_store_fault(alloc, fault),
    }
}

/// Migrates what was opened.
pub(crate) fn tell_migration<S: Alter + Drop>(
    alloc: Global,
    opened: Result<Connection<S>, Error>,
) -> Outcome<S>
    ensures { spec.Tells (spec.TellsOf S.Store (spec.TellsMigration S.Store) opened result.archive)
        result.answer }
{
    let Ok(mut conn) = opened else {
        return Outcome::unopened(of_no_store(alloc));
    };
    let carried = migrate(&mut conn, alloc);
    Outcome {
        answer: of_migration(alloc, carried),
        archive: Some(conn),
        repeats: None,
    }
}

/// The course of a gas day on its new book, in what was opened.
fn tell_book<S: Alter + Drop>(
    rt: &(impl Threads + Sync),
    alloc: Global,
    opened: Result<Connection<S>, Error>,
    book: &mut Book,
    rows: Vec<Row>,
    is_strict: bool,
) -> Outcome<S>
    requires new { book.old.history ≡ [] }
    requires pass { AllPass book.old.day.holdings.pipeline (calls_of rows.items) }
    ensures { spec.Tells (spec.TellsOf S.Store (spec.TellsMade S.Store is_strict book.old.day (calls_of rows.items))
        opened result.archive) result.answer }
{
    let Ok(mut conn) = opened else {
        return Outcome::unopened(of_no_store(alloc));
    };
    let mut repeats = Vec::new(alloc);
    let answer = tell_in_archive(rt, alloc, &mut conn, book, rows, is_strict, &mut repeats);
    Outcome {
        answer,
        archive: Some(conn),
        repeats: Some(repeats),
    }
}

/// The course of the gas day of a text, on the book that it opens, in the archive that the opener gives.
fn tell_text<S: Alter + Drop, O: Opener<S>>(
    rt: &(impl Threads + Sync),
    alloc: Global,
    text: DayText,
    rows: Vec<Row>,
    is_strict: bool,
    opener: O,
) -> Outcome<S>
    requires pass { AllPass text.contracts.pipeline (calls_of rows.items) }
    ensures { spec.Tells (spec.OrNoMemory (spec.TellsDate S.Store (O.Opener.opens opener) is_strict rows.items (record {
      date = text.date;
      zone = text.zone;
      book = text.book;
      holdings = text.contracts;
      carry = text.carry.items;
    })) result.archive) result.answer }
{
    let DayText {
        date,
        zone,
        book,
        contracts,
        carry,
    } = text;
    match calendar_of(alloc, date, &zone) {
        Ok(calendar) => match Book::open(alloc, book, contracts, calendar, carry) {
            Ok(mut book) => {
                let told = tell_book(rt, alloc, opener.open(), &mut book, rows, is_strict);
                drop(book);
                told
            }
            // No line is carried over twice, so that nothing but memory can be wanting.
            Err(_) => {
                drop(rows);
                drop(opener);
                Outcome::unopened(Err(AllocError))
            }
        },
        Err(fault) => {
            drop(rows);
            drop(contracts);
            drop(carry);
            drop(opener);
            Outcome::unopened(of_no_calendar(alloc, fault))
        }
    }
}

/// The course of the gas day that the rows tell, in the archive that the opener gives.
fn tell_rows<S: Alter + Drop, O: Opener<S>>(
    rt: &(impl Threads + Sync),
    alloc: Global,
    rows: Vec<Row>,
    is_strict: bool,
    opener: O,
) -> Outcome<S>
    ensures { spec.Tells (spec.OrNoMemory (spec.TellsDay S.Store (O.Opener.opens opener) is_strict rows.items
        (opened_of rows.items)) result.archive) result.answer }
{
    match day_text_of(alloc, rows.as_slice()) {
        Ok(text) => tell_text(rt, alloc, text, rows, is_strict, opener),
        Err(fault) => Outcome::unopened(of_fault(alloc, fault)),
    }
}

/// The course of the gas day of these bytes, a strict one or any, in the archive that the opener gives.
pub(crate) fn tell_day<S: Alter + Drop, O: Opener<S>>(
    rt: &(impl Threads + Sync),
    alloc: Global,
    text: &[u8],
    is_strict: bool,
    opener: O,
) -> Outcome<S>
    ensures { spec.Tells (spec.OrNoMemory (spec.TellsBytes S.Store (O.Opener.opens opener) is_strict text.now)
        result.archive) result.answer }
{
    match rows_in(alloc, Form::Day, text) {
        Ok(rows) => tell_rows(rt, alloc, rows, is_strict, opener),
        Err(fault) => Outcome::unopened(of_fault(alloc, fault)),
    }
}
