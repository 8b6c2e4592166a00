//! What is asked of a gas day's book, and what is printed of it.

ghost use Rattle.std.specs.Prelude.{◌≡◌, [], IfOk, IsErr, string_bytes};
ghost use Rattle.gd_day.specs.Calls.{calls_of};
ghost use Rattle.gd_day.specs.Groups.{AllPass};
ghost use Rattle.gd_replies.specs.Lines.{lines_of};
ghost use Rattle.gasday_part.specs.AnswerSeen.{answer_seen};
ghost use Rattle.gasday_part.specs.Answers.{Told};
ghost use Rattle.gasday_part.specs.Inquiries as spec;
ghost use Rattle.gasday_part.specs.Output as output;

use crate::answer::{Answer, last_of, of_fault};
use crate::engine::write_answer;
use crate::opened::{of_no_book, open_book};
use gd_board::Board;
use gd_book::{Book, Replay};
use gd_course::run;
use gd_replies::Reply;
use gd_rounds::{carry_replies, round_text, write_replies};
use gd_text_part::{Form, Row, rows_in, write_bytes};
use gd_units::{CycleNo, Round};
use std::alloc::{AllocError, Global};
use std::io::Write;
use std::thread::Threads;

/// What is asked of a book.
#[derive(Clone, Copy, Debug)]
pub enum Inquiry {
    /// The frozen question of this round of a cycle, or of the last one where none is named, with what came of it.
    Round(CycleNo, Option<Round>),
    /// What each line is carried over with to the next gas day.
    Carried,
}

/// What is printed, and the exit status that goes with it, beside the row that tells why it isn't 0.
#[derive(Drop)]
pub struct Printed {
    pub text: String,
    pub status: u8,
    pub last: Option<Reply>,
}

/// How an answer was written: the exit status, and the row that tells why it isn't 0, if it is known.
#[derive(Drop)]
pub struct Written {
    pub status: u8,
    pub last: Option<Reply>,
}

/// The bytes of rows.
pub(crate) fn text_of(alloc: Global, rows: &[Reply]) -> Result<String, AllocError>
    ensures { IfOk result (λ text. string_bytes text ≡ lines_of rows.now) }
{
    let mut text = String::new(alloc);
    write_replies(&mut text, rows)?;
    Ok(text)
}

/// What is printed of a round.
fn print_round(
    alloc: Global,
    walk: Replay<'_>,
    cycle: CycleNo,
    round: Option<Round>,
) -> Result<Printed, AllocError>
    requires { walk.at ≡ 0 }
    ensures { IfOk result (λ it. spec.PrintsRound walk.entry.day walk.entry.history cycle round (string_bytes it.text) it.status) }
{
    match round_text(alloc, walk, cycle, round)? {
        Some(text) => Ok(Printed {
            text,
            status: 0,
            last: None,
        }),
        None => Ok(Printed {
            text: text_of(alloc, &[Reply::NeverFrozen])?,
            status: 1,
            last: Some(Reply::NeverFrozen),
        }),
    }
}

/// What is printed of what is carried over.
fn print_carried(alloc: Global, walk: &Replay<'_>) -> Result<Printed, AllocError>
    ensures { IfOk result (λ it. spec.PrintsCarried walk.now.day walk.now.history (string_bytes it.text) it.status) }
{
    let rows = carry_replies(alloc, walk.history())?;
    let text = text_of(alloc, rows.as_slice())?;
    Ok(Printed {
        text,
        status: 0,
        last: None,
    })
}

/// What is printed where this is asked of the book of a walk, which stands at its beginning. The only error is want of memory.
pub fn print_inquiry(
    alloc: Global,
    walk: Replay<'_>,
    inquiry: Inquiry,
) -> Result<Printed, AllocError>
    requires { walk.at ≡ 0 }
    ensures { IfOk result (λ it. spec.PrintsInquiry walk.entry.day walk.entry.history inquiry (string_bytes it.text) it.status) }
{
    match inquiry {
        Inquiry::Round(cycle, round) => print_round(alloc, walk, cycle, round),
        Inquiry::Carried => print_carried(alloc, &walk),
    }
}

/// Writes an answer of rows.
pub fn write_rows<W: Write>(
    alloc: Global,
    writer: &mut W,
    answer: Result<Answer, AllocError>,
) -> Written
    ensures { (told : Told) → IfOk answer (λ a. answer_seen a ≡ told)
        → output.Written (W.contents writer.old) (W.contents writer.new) result.status told }
{
    let status = write_answer(alloc, writer, &answer);
    Written {
        status,
        last: last_of(answer),
    }
}

/// Writes what is printed. The status is that of it, or 2 where not all was written.
pub fn write_printed<W: Write>(
    alloc: Global,
    writer: &mut W,
    printed: Result<Printed, AllocError>,
) -> Written
    ensures written { IfOk printed (λ it. spec.WritesText (string_bytes it.text) it.status
        (W.contents writer.old) (W.contents writer.new) result.status) }
    ensures short { IsErr printed → spec.WritesNoMemory (W.contents writer.old) (W.contents writer.new) result.status }
{
    match printed {
        Ok(Printed { text, status, last }) => match write_bytes(writer, text.as_bytes()) {
            Ok(()) => Written { status, last },
            Err(_) => Written {
                status: 2,
                last: None,
            },
        },
        Err(_) => write_rows(alloc, writer, Err(AllocError)),
    }
}

/// Makes all calls of rows on a new book.
fn make_calls(
    rt: &(impl Threads + Sync),
    alloc: Global,
    book: &mut Book,
    rows: Vec<Row>,
) -> Result<(), AllocError>
    requires new { book.old.history ≡ [] }
    requires pass { AllPass book.old.day.holdings.pipeline (calls_of rows.items) }
    ensures run { IfOk result (λ _. spec.IsRun book.old.day (calls_of rows.items) book.new.history) }
    ensures day { book.new.day ≡ book.old.day }
{
    let board = Board::new(alloc);
    let mut note = board.note();
    let mut replies = Vec::new(alloc);
    run(rt, alloc, book, &board, &mut note, rows, &mut replies)
}

/// What is printed where this is asked of a new book behind the calls of rows.
fn print_behind(
    rt: &(impl Threads + Sync),
    alloc: Global,
    book: &mut Book,
    rows: Vec<Row>,
    inquiry: Inquiry,
) -> Result<Printed, AllocError>
    requires new { book.old.history ≡ [] }
    requires pass { AllPass book.old.day.holdings.pipeline (calls_of rows.items) }
    ensures { IfOk result (λ it. spec.PrintsBehind book.old.day (calls_of rows.items) inquiry (string_bytes it.text) it.status) }
{
    make_calls(rt, alloc, book, rows)?;
    print_inquiry(alloc, book.replay()?, inquiry)
}

/// Writes what is asked of the book behind the rows of a gas day, or why they open none.
fn ask_rows<W: Write>(
    rt: &(impl Threads + Sync),
    alloc: Global,
    rows: Vec<Row>,
    inquiry: Inquiry,
    writer: &mut W,
) -> Written
    ensures { spec.AsksRows rows.items inquiry (W.contents writer.old) (W.contents writer.new) result.status }
{
    match open_book(alloc, rows.as_slice()) {
        Ok(mut book) => {
            let printed = print_behind(rt, alloc, &mut book, rows, inquiry);
            drop(book);
            write_printed(alloc, writer, printed)
        }
        Err(why) => write_rows(alloc, writer, of_no_book(alloc, why)),
    }
}

/// Makes all calls of a gas day's text, and writes what is asked of its book then, or what is first wrong with the text.
/// The status is 0, or 1 where the book was never frozen in the round that is asked for; 1 or 2 as `day` has it where the text
/// opens no book; and 2 where memory runs out or the writer fails.
pub fn ask_text<W: Write>(
    rt: &(impl Threads + Sync),
    alloc: Global,
    text: &[u8],
    inquiry: Inquiry,
    writer: &mut W,
) -> Written
    ensures { spec.AsksText text.now inquiry (W.contents writer.old) (W.contents writer.new) result.status }
{
    match rows_in(alloc, Form::Day, text) {
        Ok(rows) => ask_rows(rt, alloc, rows, inquiry, writer),
        Err(fault) => write_rows(alloc, writer, of_fault(alloc, fault)),
    }
}
