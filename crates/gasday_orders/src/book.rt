//! Orders on the file of a book.

ghost use Rattle.std.specs.Prelude.{◌≡◌, ◌≢◌, IfSome};
ghost use Rattle.gasday_words.specs.Ordered.{seen};
ghost use Rattle.gasday_orders.specs.Files.{AsksFile, AsksFor, IsInquiry, PrintsFile, ServesFile, TellsUnopened, unopened_row as row_of};

use gasday_files::Ran;
use gasday_live::{Witness, ask_book, print_book, serve_book};
use gasday_part::{Inquiry, Written, last_of, of_one, write_answer};
use gasday_words::Order;
use gd_archive::Opener;
use gd_replies::Reply;
use gd_units::{CycleNo, Round};
use sqlite::{Alter, Error, ErrorCode};
use std::alloc::Global;
use std::io::{Read, Write};
use std::thread::Threads;

/// What an order asks of a book. `None` of one that asks nothing, or names a cycle or a round that can't be.
pub(crate) fn inquiry_of(order: Order<'_>) -> Option<Inquiry>
    ensures asks { IfSome result (AsksFor (seen order.entry)) }
    ensures all { IsInquiry (seen order.entry) → result ≢ None }
{
    match order {
        Order::Question {
            cycle,
            round: None,
            ..
        } => Some(Inquiry::Round(CycleNo::new(cycle)?, None)),
        Order::Question {
            cycle,
            round: Some(number),
            ..
        } => Some(Inquiry::Round(CycleNo::new(cycle)?, Some(Round::new(number)?))),
        Order::Carry(_) => Some(Inquiry::Carried),
        _ => None,
    }
}

/// The row of a file that can't be opened.
fn unopened_row(error: &Error) -> Reply
    ensures { result ≡ row_of error.now }
{
    match error {
        Error::SqliteFailure(ErrorCode::DatabaseBusy) => Reply::Busy,
        _ => Reply::Store,
    }
}

/// Writes that a file can't be opened.
fn write_unopened<S: Alter + Drop, W: Write>(alloc: Global, error: &Error, writer: &mut W) -> Ran<S>
    ensures told { TellsUnopened (W.contents writer.old) (W.contents writer.new) result.status error.now }
    ensures file { result.file ≡ None }
{
    let answer = of_one(alloc, unopened_row(error), 2);
    let status = write_answer(alloc, writer, &answer);
    Ran {
        status,
        last: last_of(answer),
        file: None,
        course: None,
    }
}

/// Serves lines of a reader, as they come, on the book of the file that the opener gives.
pub(crate) fn serve_over<T, S, R, W, V, O>(
    threads: &T,
    alloc: Global,
    reader: R,
    writer: &mut W,
    witness: V,
    opener: O,
) -> Ran<S>
where
    T: Threads + Sync,
    S: Alter + Drop,
    R: Read + Drop,
    W: Write,
    V: Witness,
    O: Opener<S>,
    ensures { ServesFile S.Store (O.Opener.opens opener) (R.remaining reader) result.file
        (W.contents writer.old) (W.contents writer.new) result.status }
{
    match opener.open() {
        Ok(mut conn) => {
            let Written { status, last } = serve_book(
                threads, alloc, &mut conn, reader, writer, witness,
            );
            Ran {
                status,
                last,
                file: Some(conn),
                course: None,
            }
        }
        Err(error) => {
            drop(witness);
            write_unopened(alloc, &error, writer)
        }
    }
}

/// Prints the text that the file keeps which the opener gives.
pub(crate) fn print_over<S: Alter + Drop, W: Write, O: Opener<S>>(
    alloc: Global,
    writer: &mut W,
    opener: O,
) -> Ran<S>
    ensures { PrintsFile S.Store (O.Opener.opens opener) result.file
        (W.contents writer.old) (W.contents writer.new) result.status }
{
    match opener.open() {
        Ok(mut conn) => {
            let Written { status, last } = print_book(alloc, &mut conn, writer);
            Ran {
                status,
                last,
                file: Some(conn),
                course: None,
            }
        }
        Err(error) => write_unopened(alloc, &error, writer),
    }
}

/// Writes what is asked of the book that the file keeps which the opener gives.
pub(crate) fn ask_over<T, S, W, O>(
    threads: &T,
    alloc: Global,
    inquiry: Inquiry,
    writer: &mut W,
    opener: O,
) -> Ran<S>
where
    T: Threads + Sync,
    S: Alter + Drop,
    W: Write,
    O: Opener<S>,
    ensures { AsksFile S.Store (O.Opener.opens opener) inquiry result.file
        (W.contents writer.old) (W.contents writer.new) result.status }
{
    match opener.open() {
        Ok(mut conn) => {
            let Written { status, last } = ask_book(threads, alloc, &mut conn, inquiry, writer);
            Ran {
                status,
                last,
                file: Some(conn),
                course: None,
            }
        }
        Err(error) => write_unopened(alloc, &error, writer),
    }
}
