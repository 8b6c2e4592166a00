//! What is asked of the book of a file, and printed of it.

ghost use Rattle.std.specs.Prelude.{◌≡◌, None};
ghost use Rattle.gasday_words.specs.Ordered.{seen};
ghost use Rattle.gasday_part.specs.Inquiries.{AsksText};
ghost use Rattle.gasday_orders.specs.Files.{AsksFile, PrintsFile};
ghost use Rattle.gasday_orders.specs.Orders.{Asks};

use crate::book::{ask_over, inquiry_of, print_over};
use gasday_files::{Ended, Ran, Text, failed, named_by, refuse};
use gasday_part::{Inquiry, Written, ask_text};
use gasday_words::Order;
use gd_archive::Opener;
use sqlite::Alter;
use std::io::Write;
use std::thread::Threads;

/// Prints the text that the file keeps which an opener gives, as `print_book` does. A file that can't be opened is told by its row,
/// with status 2.
pub fn print<'a, S: Alter + Drop, W: Write, O: Opener<S>>(
    rt: &HostRuntime,
    writer: &mut W,
    file: O,
) -> Ended<'a, S>
    ensures { PrintsFile S.Store (O.Opener.opens file) result.ran.file
        (W.contents writer.old) (W.contents writer.new) result.ran.status }
{
    let ran = print_over(rt.alloc(), writer, file);
    Ended {
        ran,
        text: Text::empty(rt),
        unread: None,
    }
}

/// Writes what is asked of the book of an order's file, a database.
fn ask_file<'a, T: Threads + Sync, S: Alter + Drop, W: Write, O: Opener<S>>(
    threads: &T,
    rt: &HostRuntime,
    inquiry: Inquiry,
    writer: &mut W,
    file: O,
) -> Ended<'a, S>
    ensures { AsksFile S.Store (O.Opener.opens file) inquiry result.ran.file
        (W.contents writer.old) (W.contents writer.new) result.ran.status }
{
    let ran = ask_over(threads, rt.alloc(), inquiry, writer, file);
    Ended {
        ran,
        text: Text::empty(rt),
        unread: None,
    }
}

/// Writes what is asked of the book of a text.
fn ask_rows<'a, T: Threads + Sync, S: Alter + Drop, W: Write>(
    threads: &T,
    rt: &HostRuntime,
    inquiry: Inquiry,
    text: Text<'a>,
    writer: &mut W,
) -> Ended<'a, S>
    ensures asked { AsksText text.entry.bytes.items inquiry
        (W.contents writer.old) (W.contents writer.new) result.ran.status }
    ensures file { result.ran.file ≡ None }
{
    let bytes = text.bytes.as_slice();
    let Written { status, last } = ask_text(threads, rt.alloc(), bytes, inquiry, writer);
    let ran = Ran {
        status,
        last,
        file: None,
        course: None,
    };
    Ended {
        ran,
        text,
        unread: None,
    }
}

/// Writes what an order asks of the book of the file of this name: of a database, which the opener gives, as `ask_book` does, and
/// else of a text, as `ask_text` does. The name `-` is standard input's. A file that can't be read is told to people alone, with
/// status 2; so ends an order that asks nothing.
pub fn ask<'a, T: Threads + Sync, S: Alter + Drop, W: Write, O: Opener<S>>(
    threads: &T,
    rt: &HostRuntime,
    order: Order<'a>,
    name: &'a str,
    writer: &mut W,
    file: O,
) -> Ended<'a, S>
    ensures { Asks S.Store (O.Opener.opens file) (seen order.entry) name.entry.now result.ran.file
        (W.contents writer.old) (W.contents writer.new) result.ran.status }
{
    // (What is no cycle or round is a usage fault, of which there is no request.)
    let Some(inquiry) = inquiry_of(order) else {
        return failed(rt, None);
    };
    match named_by(rt, name) {
        Ok(None) => ask_file(threads, rt, inquiry, writer, file),
        Ok(Some(text)) => ask_rows(threads, rt, inquiry, text, writer),
        Err(unread) => refuse(rt, unread, writer),
    }
}
