//! What is told of an answer of `solve` to a question, by the check that it asks for itself.

ghost use Rattle.std.specs.Prelude.{◌≡◌, ◌≤◌, ◌<◌, ◌+◌, ◌^◌, ◌++◌, false, true, length, map, IfOk};
ghost use Rattle.gd_replies.specs.Lines.{lines_of};
ghost use Rattle.gasday_part.specs.Solutions as spec;
ghost use Rattle.gasday_part.specs.AnswerSeen.{answer_seen};

use crate::answer::{Answer, answer_of, form_of, of_fault};
use crate::inquiry::text_of;
use gasday_words::Command;
use gd_replies::Reply;
use gd_text_part::{Cause, Row, TextFault, rows_in};
use std::alloc::{AllocError, Global};
use std::thread::Threads;

/// Whether a line begins an answer.
fn is_head(line: &[u8]) -> bool
    ensures { result ≡ spec.is_head line.now }
{
    line.starts_with(b"best,") || line.starts_with(b"cut,")
}

/// Whether a line is one of the rows behind an answer's head.
fn is_row(line: &[u8]) -> bool
    ensures { result ≡ spec.is_row line.now }
{
    line.starts_with(b"sched,") || line.starts_with(b"price,") || line.starts_with(b"inside,")
}

/// How many bytes the head of an answer has: those before its first line that is one of the rows behind it.
fn head_len(answer: &[u8]) -> usize
    ensures value { result ≡ spec.head_len true answer.now }
    ensures within { result ≤ length answer.now }
{
    let mut count = 0;
    let mut begun = true;
    let mut rest = answer;
    'bytes: while let Some((first, behind)) = rest.split_first() {
        if begun && is_row(rest) {
            return count;
        }
        begun = *first == b'\n';
        count += 1;
        rest = behind;
    }
    count
}

/// The check that an answer asks for.
fn check_of(answer: &[u8]) -> Command
    ensures { result ≡ spec.check_of answer.now }
{
    if answer.starts_with(b"cut,") {
        Command::CheckCut
    } else {
        Command::CheckBest
    }
}

/// How many rows lines have.
fn row_count(lines: &[u8]) -> usize
    ensures value { result ≡ spec.row_count true lines.now }
    ensures within { result ≤ length lines.now }
{
    let mut count = 0;
    let mut begun = true;
    let mut rest = lines;
    'bytes: while let Some((first, behind)) = rest.split_first() {
        if begun && *first != b'\n' && *first != b'\r' {
            count += 1;
        }
        begun = *first == b'\n';
        rest = behind;
    }
    count
}

/// The row and the field behind one more byte of a row.
fn behind_byte(row: u64, field: usize, byte: u8) -> (u64, usize)
    requires row { row + 1 < 2 ^ 64 }
    requires field { field + 1 < 2 ^ 64 }
    ensures { result ≡ spec.behind_byte row field byte }
{
    match byte {
        b'\n' => (row + 1, 1),
        b',' => (row, field + 1),
        _ => (row, field),
    }
}

/// The fault of a head that is another one than it should be, at its first other byte, where it begins at this row.
fn other_head(first: u64, head: &[u8], wanted: &[u8]) -> TextFault
    requires { first + length head.now + 1 < 2 ^ 64 }
    ensures { result ≡ spec.other_head first head.now wanted.now }
{
    let mut row = first;
    let mut field = 1;
    let mut rest = head;
    let mut left = wanted;
    'bytes: while let Some((byte, behind)) = rest.split_first() {
        let Some((other, more)) = left.split_first() else {
            return TextFault::at(row, Cause::BadField(field));
        };
        if *byte != *other {
            return TextFault::at(row, Cause::BadField(field));
        }
        (row, field) = behind_byte(row, field, *byte);
        rest = behind;
        left = more;
    }
    TextFault::at(row, Cause::BadField(field))
}

/// A row of the text without the head as a row of the whole text, where the head has so many rows behind so many others.
fn counted_in(row: u64, before: u64, more: u64) -> u64
    ensures { result ≡ spec.counted_in before more row }
{
    if row <= before || u64::MAX - row < more {
        row
    } else {
        row + more
    }
}

/// What is told, with the rows of a head counted in.
fn moved(reply: Reply, before: u64, more: u64) -> Reply
    ensures { result ≡ spec.moved before more reply }
{
    match reply {
        Reply::Fault(TextFault::Row { row, cause }) => {
            Reply::Fault(TextFault::at(counted_in(row, before, more), cause))
        }
        reply => reply,
    }
}

/// All that is told, with the rows of a head counted in.
fn all_moved(
    alloc: Global,
    replies: Vec<Reply>,
    before: u64,
    more: u64,
) -> Result<Vec<Reply>, AllocError>
    ensures { IfOk result (λ v. v.items ≡ map (spec.moved before more) replies.items) }
{
    let mut all = Vec::with_capacity(alloc, replies.len())?;
    for reply in replies {
        all.push(moved(reply, before, more))?;
    }
    Ok(all)
}

/// What is told of an answer with this head, behind a question of these rows, of which its check told this.
fn judged(alloc: Global, rows: &[Row], head: &[u8], told: Answer) -> Result<Answer, AllocError>
    ensures { IfOk result (λ a. answer_seen a ≡ spec.judged (length rows.now) head.now (answer_seen told)) }
{
    if told.short {
        return Err(AllocError);
    }
    let before = rows.len() as u64;
    if told.status != 0 {
        let more = row_count(head) as u64;
        let status = told.status;
        let replies = all_moved(alloc, told.replies, before, more)?;
        return Ok(Answer::whole(replies, status));
    }
    let wanted = text_of(alloc, told.replies.as_slice())?;
    if head == wanted.as_bytes() {
        return Ok(told);
    }
    of_fault(alloc, other_head(before + 1, head, wanted.as_bytes()))
}

/// The fault of an answer whose first row this is, and that doesn't begin as one.
fn no_answer(first: u64, answer: &[u8]) -> TextFault
    ensures { result ≡ spec.no_answer first answer.now }
{
    if answer.is_empty() {
        TextFault::at(first, Cause::Missing)
    } else {
        TextFault::at(first, Cause::BadField(1))
    }
}

/// One text behind another.
fn joined(alloc: Global, front: &[u8], behind: &[u8]) -> Result<Vec<u8>, AllocError>
    ensures { IfOk result (λ v. v.items ≡ front.now ++ behind.now) }
{
    let mut text = Vec::from_slice(alloc, front)?;
    text.extend_from_slice(behind)?;
    Ok(text)
}

/// What is told of an answer to a question with these rows.
fn check_behind(
    rt: &(impl Threads + Sync),
    alloc: Global,
    question: &[u8],
    rows: &[Row],
    answer: &[u8],
) -> Result<Answer, AllocError>
    ensures { IfOk result
        (λ a. spec.ChecksBehind question.now (length rows.now) answer.now (answer_seen a)) }
{
    if !is_head(answer) {
        return of_fault(alloc, no_answer(rows.len() as u64 + 1, answer));
    }
    let (head, behind) = answer.split_at(head_len(answer));
    let text = joined(alloc, question, behind)?;
    let told = answer_of(rt, alloc, check_of(answer), text.as_slice())?;
    judged(alloc, rows, head, told)
}

/// Whether an answer to a question is right: all that `solve` answered to the text of the question, whose last line is ended. The
/// check that the answer asks for itself is made of the question and the answer's rows, and its head has to be what that tells:
/// with its totals, or its excess. The only error is want of memory.
///
/// The first fault of the question comes first; then, one row past its last, `Missing` where there is no answer, and `BadField`
/// where its first row is neither `best` nor `cut`; then what the check tells where it isn't good, with the rows of the question
/// and the answer counted; and then `BadField`, at the first field of the head that is another one.
pub fn check_answer(
    rt: &(impl Threads + Sync),
    alloc: Global,
    question: &[u8],
    answer: &[u8],
) -> Result<Answer, AllocError>
    ensures { IfOk result (λ a. spec.ChecksAnswer question.now answer.now (answer_seen a)) }
{
    match rows_in(alloc, form_of(check_of(answer)), question) {
        Ok(rows) => check_behind(rt, alloc, question, rows.as_slice(), answer),
        Err(fault) => of_fault(alloc, fault),
    }
}
