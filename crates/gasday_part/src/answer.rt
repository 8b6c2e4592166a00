//! What a command answers to a text.

ghost use Rattle.std.specs.Prelude.{◌≡◌, ◌≢◌, [], ◌∷◌, ◌++◌, Some, IfOk, IsErr};
ghost use Rattle.gd_text_part.specs.declared.fault.TextFault.TheVariants.{OutOfMemory};
ghost use Rattle.gd_text.specs.Values.{asked_of as asked_by};
ghost use Rattle.gasday_part.specs.Answers as spec;
ghost use Rattle.gasday_part.specs.AnswerSeen.{answer_seen};

use crate::certificate::{tell_best, tell_cut};
use crate::course::tell_day;
use crate::day::tell_calendar;
use crate::solve::tell_solved;
use gasday_words::Command;
use gd_replies::{Reply, allowed_replies, broken_reply};
use gd_rounds::Summary;
use gd_text::{Asked, asked_of};
use gd_text_part::{Form, Row, TextFault, rows_in};
use std::alloc::{AllocError, Global};
use std::thread::Threads;

/// The rows that answer a text, and the exit status that goes with them.
#[derive(Drop)]
pub struct Answer {
    pub replies: Vec<Reply>,
    pub status: u8,
    /// Memory ran out behind these rows, which is told in a last one.
    pub short: bool,
    /// What it came to, where it tells the whole course of a gas day, or of the gas days of an office.
    pub summary: Option<Summary>,
}

impl Answer {
    /// All rows of an answer.
    pub fn whole(replies: Vec<Reply>, status: u8) -> Answer
        ensures { answer_seen result ≡ record { replies = replies.items; status = status } }
    {
        Answer {
            replies,
            status,
            short: false,
            summary: None,
        }
    }

    /// The rows that were told before memory ran out, which is told behind them.
    pub fn cut_short(replies: Vec<Reply>) -> Answer
        ensures { answer_seen result ≡ record { replies = replies.items ++ spec.no_memory ∷ []; status = 2 } }
    {
        Answer {
            replies,
            status: 2,
            short: true,
            summary: None,
        }
    }

    /// The rows that tell the whole course of a gas day or of several, and what it came to.
    pub fn summed(replies: Vec<Reply>, status: u8, summary: Summary) -> Answer
        ensures { answer_seen result ≡ record { replies = replies.items; status = status } }
    {
        Answer {
            replies,
            status,
            short: false,
            summary: Some(summary),
        }
    }
}

/// What a gas day or several came to, where an answer tells their whole course.
pub fn summary_in(answer: &Result<Answer, AllocError>) -> Option<Summary> {
    match answer {
        Ok(answer) => answer.summary,
        Err(_) => None,
    }
}

/// The row with which an answer ends; where there was no memory for one, that is told in its place.
pub fn last_of(answer: Result<Answer, AllocError>) -> Option<Reply>
    ensures last { IfOk answer (λ a. result ≡ spec.last_of (answer_seen a).replies) }
    ensures short { IsErr answer → result ≡ Some spec.no_memory }
{
    match answer {
        Ok(answer) if !answer.short => {
            let mut replies = answer.replies;
            replies.pop()
        }
        _ => Some(Reply::Fault(TextFault::OutOfMemory)),
    }
}

/// How a command's text is read.
pub(crate) fn form_of(command: Command) -> Form
    ensures { result ≡ spec.form_of command }
{
    match command {
        Command::CheckAllowed => Form::CheckAllowed,
        Command::CheckBest => Form::CheckBest,
        Command::CheckCut => Form::CheckCut,
        Command::Solve => Form::Solve,
        Command::Calendar => Form::Calendar,
        Command::Day | Command::StrictDay => Form::Day,
    }
}

/// An answer of one row.
pub fn of_one(alloc: Global, reply: Reply, status: u8) -> Result<Answer, AllocError>
    ensures { IfOk result (λ a. answer_seen a ≡ record { replies = reply ∷ []; status = status }) }
{
    let mut replies = Vec::new(alloc);
    replies.push(reply)?;
    Ok(Answer::whole(replies, status))
}

/// The answer to a text that could not be read, or whose rows were refused. Want of memory is handed on as such.
pub fn of_fault(alloc: Global, fault: TextFault) -> Result<Answer, AllocError>
    ensures { IfOk result (λ a. (fault ≢ OutOfMemory) × (answer_seen a ≡ spec.fault_answer fault)) }
{
    if matches!(fault, TextFault::OutOfMemory) {
        return Err(AllocError);
    }
    of_one(alloc, Reply::Fault(fault), 2)
}

/// Whether the schedule is allowed, with its class totals, or what is first wrong with it.
fn check_allowed(alloc: Global, asked: &Asked) -> Result<Answer, AllocError>
    ensures { IfOk result
        (λ a. spec.ChecksAllowed asked.now.question asked.now.schedule (answer_seen a)) }
{
    match asked.schedule.allowed(alloc, &asked.question) {
        Ok(()) => {
            let replies = allowed_replies(alloc, &asked.question, &asked.schedule)?;
            Ok(Answer::whole(replies, 0))
        }
        Err(broken) => {
            let reply = broken_reply(&asked.question, &asked.schedule, broken)?;
            of_one(alloc, reply, 1)
        }
    }
}

/// Whether the schedule of the rows is allowed.
fn tell_allowed(alloc: Global, rows: &[Row]) -> Result<Answer, AllocError>
    ensures { IfOk result (λ a. spec.ChecksAsked (asked_by rows.now) (answer_seen a)) }
{
    match asked_of(alloc, rows) {
        Ok(asked) => check_allowed(alloc, &asked),
        Err(fault) => of_fault(alloc, fault),
    }
}

/// What a command answers to the rows of its text.
fn answer_to_rows(
    rt: &(impl Threads + Sync),
    alloc: Global,
    command: Command,
    rows: Vec<Row>,
) -> Result<Answer, AllocError>
    ensures { IfOk result (λ a. spec.AnswersRows command rows.items (answer_seen a)) }
{
    match command {
        Command::CheckAllowed => tell_allowed(alloc, rows.as_slice()),
        Command::CheckBest => tell_best(alloc, rows.as_slice()),
        Command::CheckCut => tell_cut(alloc, rows.as_slice()),
        Command::Solve => tell_solved(alloc, rows.as_slice()),
        Command::Calendar => tell_calendar(alloc, rows.as_slice()),
        Command::Day => tell_day(rt, alloc, rows, false),
        Command::StrictDay => tell_day(rt, alloc, rows, true),
    }
}

/// What a command answers to the bytes of a text. The only error is want of memory.
///
/// This is all that a command does between reading and printing.
pub fn answer_of(
    rt: &(impl Threads + Sync),
    alloc: Global,
    command: Command,
    text: &[u8],
) -> Result<Answer, AllocError>
    ensures { IfOk result (λ a. spec.AnswersBytes command text.now (answer_seen a)) }
{
    match rows_in(alloc, form_of(command), text) {
        Ok(rows) => answer_to_rows(rt, alloc, command, rows),
        Err(fault) => of_fault(alloc, fault),
    }
}
