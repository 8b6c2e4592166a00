//! The check of an answer to a question.

ghost use Rattle.std.specs.Prelude.{◌≡◌, None, take, drop};
ghost use Rattle.gasday_words.specs.Ordered.{requested};
ghost use Rattle.gasday_part.specs.Output.{WritesTold};
ghost use Rattle.gasday_orders.specs.Checked.{TellsAnswer};
ghost use Rattle.gasday_orders.specs.Orders.{Checks, ChecksText, first_length};

use gasday_files::{Ended, Ran, Text, refuse};
use gasday_part::{Written, check_answer, write_rows};
use gasday_words::Request;
use sqlite::Alter;
use std::alloc::Global;
use std::io::Write;
use std::thread::Threads;

/// The bytes of a text's first file, and those behind it.
fn first_and_rest<'t>(text: &'t Text<'_>) -> (&'t [u8], &'t [u8])
    ensures first { result.0.now ≡ take (first_length text.now) text.now.bytes.items }
    ensures rest { result.1.now ≡ drop (first_length text.now) text.now.bytes.items }
{
    let bytes = text.bytes.as_slice();
    let end = match text.parts.get(1) {
        Some(part) => part.begin.min(bytes.len()),
        None => bytes.len(),
    };
    bytes.split_at(end)
}

/// Writes what is told of an answer to the text of a question.
fn check_over<T: Threads + Sync, S: Alter + Drop, W: Write>(
    threads: &T,
    alloc: Global,
    question: &[u8],
    answer: &[u8],
    writer: &mut W,
) -> Ran<S>
    ensures told { WritesTold (TellsAnswer question.now answer.now) (W.contents writer.old)
        (W.contents writer.new) result.status }
    ensures file { result.file ≡ None }
{
    let told = check_answer(threads, alloc, question, answer);
    let Written { status, last } = write_rows(alloc, writer, told);
    Ran {
        status,
        last,
        file: None,
        course: None,
    }
}

/// Writes what is told of an answer: of a text whose first file is the question's, and whose second one is the answer's.
fn check_files<'a, T: Threads + Sync, S: Alter + Drop, W: Write>(
    threads: &T,
    rt: &HostRuntime,
    text: Text<'a>,
    writer: &mut W,
) -> Ended<'a, S>
    ensures { ChecksText text.entry result.ran.file
        (W.contents writer.old) (W.contents writer.new) result.ran.status }
{
    let (question, answer) = first_and_rest(&text);
    let ran = check_over(threads, rt.alloc(), question, answer, writer);
    Ended {
        ran,
        text,
        unread: None,
    }
}

/// Writes what is told of an answer, by the files that a request names: the question's and the answer's, as `check_answer` does. A file
/// that can't be read is told to people alone, with status 2.
pub fn check<'a, T: Threads + Sync, S: Alter + Drop, W: Write>(
    threads: &T,
    rt: &HostRuntime,
    request: &Request<'a>,
    writer: &mut W,
) -> Ended<'a, S>
    ensures { Checks (requested request.now).texts result.ran.file
        (W.contents writer.old) (W.contents writer.new) result.ran.status }
{
    match Text::of_files(rt, request.texts.as_slice()) {
        Ok(text) => check_files(threads, rt, text, writer),
        Err(unread) => refuse(rt, unread, writer),
    }
}
