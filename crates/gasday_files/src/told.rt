//! What people are told on standard error, beside the rows of an answer.

use crate::input::{Text, Unread};
use gasday_words::{Command, Order};
use gd_archive::{Repeat, Repeated};
use gd_messages::{Count, Source, message_of};
use gd_replies::Reply;
use gd_rounds::Summary;
use gd_text_part::Form;
use hex::encode;
use sqlite::Error;
use std::alloc::{AllocError, Global};
use std::io;
use std::io::{ErrorKind, IsTerminal};

/// Tells a person something, where there is memory for it and somebody to tell.
pub fn tell(rt: &HostRuntime, message: &str) {
    if let Ok(line) = format!(in rt.alloc(); "gasday: {message}\n") {
        let _ = rt.eprint(line);
    }
}

/// Tells what went wrong with something.
fn tell_error(rt: &HostRuntime, what: &str, error: &io::Error) {
    if let Ok(message) = format!(in rt.alloc(); "can't {what}: {error}") {
        tell(rt, message.as_str());
    }
}

/// Tells that an answer can't be written, and why. A reader that has gone, as behind `| head -1`, is told of by nothing.
pub(crate) fn tell_unwritten(rt: &HostRuntime, error: &io::Error) {
    if error.kind() != ErrorKind::BrokenPipe {
        tell_error(rt, "write to standard output", error);
    }
}

/// Tells that the file of an order can't be opened, and why.
pub(crate) fn tell_unopened(rt: &HostRuntime, name: &str, why: &str) {
    if let Ok(message) = format!(in rt.alloc(); "can't open {name}: {why}") {
        tell(rt, message.as_str());
    }
}

/// The same, with a cause that there may have been no memory for.
pub(crate) fn tell_cause(rt: &HostRuntime, name: &str, cause: Result<String, AllocError>) {
    if let Ok(cause) = cause {
        tell_unopened(rt, name, cause.as_str());
    }
}

/// Tells why a text was not read.
pub(crate) fn tell_unread(rt: &HostRuntime, order: Order<'_>, unread: &Unread<'_>) {
    match unread {
        Unread::File(name, error) => {
            if let Ok(what) = format!(in rt.alloc(); "read {name}") {
                tell_error(rt, what.as_str(), error);
            }
        }
        Unread::Standard(_, Some(error)) => tell_error(rt, "read standard input", error),
        Unread::Standard(fault, None) => {
            let text = Text::empty(rt);
            tell_why(rt, order, &text, &Reply::Fault(*fault));
        }
    }
}

/// Tells that what the log of a file has is not in the file yet, and why. It is read from the log all the same.
pub(crate) fn tell_unclosed(rt: &HostRuntime, error: &Error) {
    if let Ok(message) = format!(in rt.alloc();
        "can't copy the log into its file: {error}; keep FILE-wal beside it"
    ) {
        tell(rt, message.as_str());
    }
}

/// What is told of the course of a gas day, or of the gas days of an office, beside its rows.
#[derive(Drop)]
pub struct Course {
    pub summary: Summary,
    /// The postings of which the archive had one of the same cycle, where there is an archive.
    pub repeats: Option<Vec<Repeated>>,
}

impl Course {
    /// Whether each posting that the archive had is the very one that was published.
    pub(crate) fn is_repeated(&self) -> bool {
        match &self.repeats {
            Some(repeats) => all_same(repeats.as_slice()),
            None => false,
        }
    }
}

/// Whether each of these postings is the very one that was published.
fn all_same(repeats: &[Repeated]) -> bool {
    for repeated in repeats {
        if !matches!(repeated.found, Some(Repeat::Same)) {
            return false;
        }
    }
    true
}

/// Tells what a gas day came to, and how what its archive had goes with what was published.
pub(crate) fn tell_course(rt: &HostRuntime, course: &Course) {
    tell_summary(rt, &course.summary);
    if let Some(repeats) = &course.repeats {
        for repeated in repeats.as_slice() {
            tell_repeat(rt, repeated);
        }
    }
}

/// Tells how a posting that an archive had goes with the one that was published.
fn tell_repeat(rt: &HostRuntime, repeated: &Repeated) {
    let alloc = rt.alloc();
    let cycle = repeated.cycle.number();
    let message = match &repeated.found {
        Some(Repeat::Same) => {
            format!(in alloc; "cycle {cycle}: the archive has this very posting already")
        }
        Some(Repeat::Other { kept, published }) => told_other(alloc, cycle, kept, published),
        None => format!(in alloc;
            "cycle {cycle}: the archive has a posting already, and it can't be compared with what is published now"
        ),
    };
    if let Ok(message) = message {
        tell(rt, message.as_str());
    }
}

/// What is told of another posting than was published, with the SHA-256 of both bodies.
fn told_other(
    alloc: Global,
    cycle: u8,
    kept: &[u8; 32],
    published: &[u8; 32],
) -> Result<String, AllocError> {
    let (kept, published) = (encode(alloc, kept)?, encode(alloc, published)?);
    format!(in alloc;
        "cycle {cycle}: the archive has another posting, of SHA-256 {kept}; what is published now has {published}"
    )
}

/// Tells what a gas day came to, and of calls that came later than they can have been meant.
fn tell_summary(rt: &HostRuntime, summary: &Summary) {
    let alloc = rt.alloc();
    let (cycles, refused) = (
        Count(summary.published, "cycle"),
        Count(summary.refused, "call"),
    );
    let (declared, skipped, unreached) = (summary.declared, summary.skipped, summary.unreached);
    if let Ok(message) = format!(in alloc;
        "{cycles} published, {declared} declared impossible, {skipped} skipped, {unreached} never frozen; {refused} refused"
    ) {
        tell(rt, message.as_str());
    }
    tell_late(rt, summary);
}

/// Tells of freezes that came when their cycle was in effect already, and of calls behind the end of the gas day.
fn tell_late(rt: &HostRuntime, summary: &Summary) {
    let alloc = rt.alloc();
    if summary.late > 0 {
        let freezes = Count(summary.late, "freeze");
        let were = if summary.late == 1 {
            "its cycle was"
        } else {
            "their cycles were"
        };
        if let Ok(message) = format!(in alloc;
            "{freezes} came when {were} in effect already; look at the moments, and at the clock that gave them"
        ) {
            tell(rt, message.as_str());
        }
    }
    if summary.beyond > 0 {
        let calls = Count(summary.beyond, "call");
        if let Ok(message) = format!(in alloc;
            "{calls} came when the gas day was over; what comes behind them counts as made then, so look at the moments, and at the clock that gave them"
        ) {
            tell(rt, message.as_str());
        }
    }
}

/// Whose text an order reads, by the words of the command, and how. Who audits or migrates an archive reads none, and that of an
/// answer's check is read in parts.
fn reading_of(order: Order<'_>) -> Option<(&'static str, Form)> {
    match order {
        Order::Text(Command::CheckAllowed) => Some(("check allowed", Form::CheckAllowed)),
        Order::Text(Command::CheckBest) => Some(("check best", Form::CheckBest)),
        Order::Text(Command::CheckCut) => Some(("check cut", Form::CheckCut)),
        Order::Text(Command::Solve) => Some(("solve", Form::Solve)),
        Order::Text(Command::Calendar) => Some(("calendar", Form::Calendar)),
        Order::Text(Command::Day | Command::StrictDay)
        | Order::ArchivedDay { .. }
        | Order::LiveDay(_)
        | Order::Question { .. }
        | Order::Carry(_) => Some(("day", Form::Day)),
        Order::Office { .. } => Some(("office", Form::Office)),
        Order::CheckAnswer
        | Order::Audit(_)
        | Order::AuditEach(_)
        | Order::Migrate(_)
        | Order::BookText(_) => None,
    }
}

/// Tells who sits at a terminal that a text is waited for.
pub fn tell_waiting(rt: &HostRuntime) {
    if rt.stdin().is_terminal() {
        tell(
            rt,
            "the text is read from the terminal; end it with Ctrl-D, or name files",
        );
    }
}

/// Tells why an answer isn't good, which ends with this row.
pub(crate) fn tell_why(rt: &HostRuntime, order: Order<'_>, text: &Text<'_>, last: &Reply) {
    let (command, form) = match reading_of(order) {
        Some((command, form)) => (command, Some(form)),
        None => ("", None),
    };
    let source = Source {
        alloc: rt.alloc(),
        command,
        form,
        bytes: text.bytes.as_slice(),
        parts: text.parts.as_slice(),
    };
    if let Ok(Some(message)) = message_of(source, last) {
        tell(rt, message.as_str());
    }
}
