//! `gasday`, the scheduling office of one gas pipeline: rows from files or standard input, rows to standard output, and
//! beside them what people are told on standard error.
#![tactic(auto)]

ghost use Rattle.gasday_words.specs.Ordered.{requested, seen};
ghost use Rattle.gasday_archive.specs.Runs.{OrNoMemory, Tells};
ghost use Rattle.gasday_files.specs.Noting.{noted};
ghost use Rattle.gasday_files.specs.Opening.{FindsAs, disk_of};
ghost use Rattle.gasday.specs.Carried.{AnswersOrder, AnswersSlots, CarriesOut, CarriesRequest, IsCarriedOut, RunsOn};

use gasday_archive::{Outcome, answer_to};
use gasday_files::{
    AsFound, CopiedFile, Course, Ended, NamedFile, Noted, Ran, Text, end, refuse, text_of,
    unwritable,
};
use gasday_office::answer_office;
use gasday_orders::{ask, check, print, serve, tell_audit};
use gasday_part::{Answer, last_of, summary_in, write_answer};
use gasday_words::{Order, Request, UsageFault, request_of};
use gd_archive::Opener;
use gd_replies::Reply;
use sqlite::{Alter, FileStore};
use sqlite_disk::{Disk, Start};
use std::alloc::{AllocError, Global};
use std::io::{Read, Write};
use std::process::ExitCode;
use std::sync::Wait;
use std::thread::Threads;
use std::time::Clock;
use std::{env, io};

/// What the text of an office is answered, for which nothing is opened.
fn answer_slots<T: Threads + Wait + Clock + Sync, S: Alter + Drop>(
    threads: &T,
    alloc: Global,
    text: &[u8],
    is_strict: bool,
) -> Outcome<S>
    ensures { Tells (OrNoMemory (AnswersSlots is_strict text.now) result.archive) result.answer }
{
    Outcome::unopened(answer_office(threads, alloc, text, is_strict))
}

/// What an order is answered, over the bytes of its text. The threads are the runtime's, which has them in `main` alone.
fn answered<T: Threads + Wait + Clock + Sync, S: Alter + Drop, O: Opener<S>>(
    threads: &T,
    alloc: Global,
    order: Order<'_>,
    text: &[u8],
    opener: O,
) -> Outcome<S>
    requires { IsCarriedOut (seen order) }
    ensures { Tells (AnswersOrder S.Store (O.Opener.opens opener) (seen order.entry) text.now
        result.archive) result.answer }
{
    match order {
        Order::Office { is_strict } => answer_slots(threads, alloc, text, is_strict),
        Order::Audit(_) => tell_audit(threads, alloc, opener.open(), false),
        Order::AuditEach(_) => tell_audit(threads, alloc, opener.open(), true),
        order => answer_to(threads, alloc, order, text, opener),
    }
}

/// The row that tells why an answer isn't good: of an office's that of the last slot that is not reconciled, where one is, and else the
/// last one.
fn telling_row(order: Order<'_>, answer: Result<Answer, AllocError>) -> Option<Reply> {
    if let (Order::Office { .. }, Ok(answer)) = (order, &answer) {
        for row in answer.replies.as_slice().iter().rev() {
            match *row {
                Reply::Mismatch { slot, list, index } => {
                    return Some(Reply::Mismatch { slot, list, index });
                }
                Reply::Missing { slot, count } => return Some(Reply::Missing { slot, count }),
                _ => {}
            }
        }
    }
    last_of(answer)
}

/// Carries out an order over the bytes of its text: writes its answer and nothing else.
fn run_over<T: Threads + Wait + Clock + Sync, S: Alter + Drop, W: Write, O: Opener<S>>(
    threads: &T,
    alloc: Global,
    order: Order<'_>,
    text: &[u8],
    writer: &mut W,
    opener: O,
) -> Ran<S>
    requires { IsCarriedOut (seen order) }
    ensures { CarriesOut S.Store (O.Opener.opens opener) (seen order.entry) text.now result.file
        (W.contents writer.old) (W.contents writer.new) result.status }
{
    let Outcome {
        answer,
        archive,
        repeats,
    } = answered(threads, alloc, order, text, opener);
    let status = write_answer(alloc, writer, &answer);
    let course = match summary_in(&answer) {
        Some(summary) => Some(Course { summary, repeats }),
        None => {
            drop(repeats);
            None
        }
    };
    Ran {
        status,
        last: telling_row(order, answer),
        file: archive,
        course,
    }
}

/// Answers a text.
fn answer<'a, T: Threads + Wait + Clock + Sync, S: Alter + Drop, W: Write, O: Opener<S>>(
    threads: &T,
    rt: &HostRuntime,
    order: Order<'a>,
    text: Text<'a>,
    writer: &mut W,
    file: O,
) -> Ended<'a, S>
    requires { IsCarriedOut (seen order) }
    ensures { CarriesOut S.Store (O.Opener.opens file) (seen order.entry) text.entry.bytes.items result.ran.file
        (W.contents writer.old) (W.contents writer.new) result.ran.status }
{
    let bytes = text.bytes.as_slice();
    let ran = run_over(threads, rt.alloc(), order, bytes, writer, file);
    Ended {
        ran,
        text,
        unread: None,
    }
}

/// Carries out a request whose text is answered. Where that can't be read nothing is answered.
fn answer_request<'a, T, S, R, W, O>(
    threads: &T,
    rt: &HostRuntime,
    request: &Request<'a>,
    input: R,
    writer: &mut W,
    file: O,
) -> Ended<'a, S>
where
    T: Threads + Wait + Clock + Sync,
    S: Alter + Drop,
    R: Read + Drop,
    W: Write,
    O: Opener<S>,
    requires { IsCarriedOut (seen request.now.order) }
    ensures { CarriesRequest S.Store (O.Opener.opens file) (R.remaining input) (requested request.now).texts
        (seen request.now.order) result.ran.file (W.contents writer.old) (W.contents writer.new) result.ran.status }
{
    match text_of(rt, request, input) {
        Ok(text) => answer(threads, rt, request.order, text, writer, file),
        Err(unread) => refuse(rt, unread, writer),
    }
}

/// Carries out a request, on the file that an opener gives where it names one.
fn carry_out<'a, T, S, R, W, O>(
    threads: &T,
    rt: &HostRuntime,
    request: &Request<'a>,
    input: R,
    writer: &mut W,
    file: O,
) -> Ended<'a, S>
where
    T: Threads + Wait + Clock + Sync,
    S: Alter + Drop,
    R: Read + Drop,
    W: Write,
    O: Opener<S>,
    ensures { CarriesRequest S.Store (O.Opener.opens file) (R.remaining input) (requested request.now).texts
        (seen request.now.order) result.ran.file (W.contents writer.old) (W.contents writer.new) result.ran.status }
{
    let order = request.order;
    match order {
        Order::CheckAnswer => check(threads, rt, request, writer),
        Order::LiveDay(_) => serve(threads, rt, request, input, writer, file),
        Order::BookText(_) => print(rt, writer, file),
        Order::Question { file: name, .. } => ask(threads, rt, order, name, writer, file),
        Order::Carry(name) => ask(threads, rt, order, name, writer, file),
        _ => answer_request(threads, rt, request, input, writer, file),
    }
}

/// Carries out a request on the file that an opener gives, closes that, and answers the exit status.
fn run_on<T, D, R, W, O>(
    threads: &T,
    rt: &HostRuntime,
    request: &Request<'_>,
    input: R,
    writer: &mut Noted<W>,
    file: O,
) -> u8
where
    T: Threads + Wait + Clock + Sync,
    D: Disk + Drop,
    R: Read + Drop,
    W: Write,
    O: Opener<FileStore<D>>,
    ensures { RunsOn D.Disk (O.Opener.opens file) (R.remaining input) (requested request.now).texts
        (seen request.now.order) (noted W.contents writer.old) (noted W.contents writer.new) result }
{
    let ended = carry_out(threads, rt, request, input, writer, file);
    end(rt, request.order, ended, writer.error())
}

/// Carries out a request on the file that it names, closes that, and answers the exit status. What that file and its log hold no code
/// can read beforehand: `found` stands for it, and this is proved of whatever they hold.
fn run_file<T, F, R, W>(
    threads: &T,
    rt: &HostRuntime,
    request: &Request<'_>,
    input: R,
    writer: &mut Noted<W>,
    found: F,
) -> u8
where
    T: Threads + Wait + Clock + Sync,
    F: Start + Copy,
    R: Read + Drop,
    W: Write,
    ensures { RunsOn (disk_of F.row F.Start) (FindsAs F.Start) (R.remaining input) (requested request.now).texts
        (seen request.now.order) (noted W.contents writer.old) (noted W.contents writer.new) result }
{
    let file = NamedFile {
        rt,
        order: request.order,
        wait: request.wait,
        found,
    };
    run_on(threads, rt, request, input, writer, file)
}

/// Carries out a request on the file that it names, or on a copy of that where it is only read and may not be written, and answers
/// the exit status.
fn run<T: Threads + Wait + Clock + Sync>(
    threads: &T,
    rt: &HostRuntime,
    request: &Request<'_>,
) -> u8 {
    let (input, mut writer) = (rt.reader(), Noted::new(io::writer(rt)));
    if let Some(name) = unwritable(rt, request.order) {
        let copy = CopiedFile { rt, name };
        return run_on(threads, rt, request, input, &mut writer, copy);
    }
    run_file(threads, rt, request, input, &mut writer, AsFound)
}

/// Tells help or the version on standard output, and a usage fault on standard error. Answers the exit status.
fn tell_usage(rt: &HostRuntime, fault: UsageFault) -> u8 {
    match fault {
        UsageFault::Help(text) | UsageFault::Version(text) => match rt.print(text) {
            Ok(()) => 0,
            Err(_) => 2,
        },
        UsageFault::Usage(text) => {
            let _ = rt.eprint(text);
            2
        }
        UsageFault::OutOfMemory => 2,
    }
}

/// Reads the words of the command line, and carries out the order that they name.
///
/// Where there is no memory for the words nothing is printed.
fn main(rt: HostRuntime) -> ExitCode {
    let Ok(words) = env::args(&rt) else {
        return ExitCode::from(2);
    };
    let Ok(words) = words.collect::<Vec<String>>(rt.alloc()) else {
        return ExitCode::from(2);
    };
    ExitCode::from(match request_of(rt.alloc(), words.as_slice()) {
        Ok(request) => run(&rt, &rt, &request),
        Err(fault) => tell_usage(&rt, fault),
    })
}
