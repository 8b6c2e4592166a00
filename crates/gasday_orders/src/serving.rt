//! Lines that are served on the book of a file as they come, and told to people.

ghost use Rattle.gasday_words.specs.Ordered.{requested};
ghost use Rattle.gasday_orders.specs.Files.{ServesFile};
ghost use Rattle.gasday_orders.specs.Orders.{Serves};

use crate::book::serve_over;
use crate::witness::ClockWitness;
use gasday_files::{Ended, Ran, Text, refuse, tell_waiting};
use gasday_words::Request;
use gd_archive::Opener;
use gd_replies::Reply;
use gd_text_part::TextFault;
use sqlite::Alter;
use std::io::{Read, Write};
use std::thread::Threads;

/// The row with which lines as they came ended, where something can be told of it without their text, of which nothing is left.
fn without_text(last: Option<Reply>) -> Option<Reply> {
    match last {
        Some(Reply::Fault(TextFault::Row { .. }) | Reply::OutOfRange | Reply::BadZone) => None,
        last => last,
    }
}

/// Serves the lines of standard input as they come.
fn serve_input<'a, T, S, R, W, O>(
    threads: &T,
    rt: &HostRuntime,
    input: R,
    writer: &mut W,
    file: O,
) -> Ended<'a, S>
where
    T: Threads + Sync,
    S: Alter + Drop,
    R: Read + Drop,
    W: Write,
    O: Opener<S>,
    ensures { ServesFile S.Store (O.Opener.opens file) (R.remaining input) result.ran.file
        (W.contents writer.old) (W.contents writer.new) result.ran.status }
{
    tell_waiting(rt);
    let clock = ClockWitness::new(rt);
    let Ran {
        status,
        last,
        file,
        course,
    } = serve_over(threads, rt.alloc(), input, writer, clock, file);
    Ended {
        ran: Ran {
            status,
            last: without_text(last),
            file,
            course,
        },
        text: Text::empty(rt),
        unread: None,
    }
}

/// Serves the lines of the files that a request names, or of standard input as they come, on the book of the file that the opener
/// gives, as `serve_book` does. Where a file of lines can't be read, none is served: that is told to people alone, with status 2.
pub fn serve<'a, T, S, R, W, O>(
    threads: &T,
    rt: &HostRuntime,
    request: &Request<'a>,
    input: R,
    writer: &mut W,
    file: O,
) -> Ended<'a, S>
where
    T: Threads + Sync,
    S: Alter + Drop,
    R: Read + Drop,
    W: Write,
    O: Opener<S>,
    ensures { Serves S.Store (O.Opener.opens file) (R.remaining input) (requested request.now).texts
        result.ran.file (W.contents writer.old) (W.contents writer.new) result.ran.status }
{
    if request.texts.is_empty() {
        return serve_input(threads, rt, input, writer, file);
    }
    match Text::of_files(rt, request.texts.as_slice()) {
        Ok(text) => {
            let (lines, clock) = (text.bytes.as_slice(), ClockWitness::new(rt));
            let ran = serve_over(threads, rt.alloc(), lines, writer, clock, file);
            Ended {
                ran,
                text,
                unread: None,
            }
        }
        Err(unread) => refuse(rt, unread, writer),
    }
}
