//! An answer from its rows to the bytes of a writer.

ghost use Rattle.std.specs.Prelude.{◌≡◌, ◌≤◌, ℕ, [], ◌∷◌, ◌++◌, IfOk, OnErr, OnOk, length, string_bytes, take};
ghost use Rattle.std.specs.Io.KnownBytes.{Appends};
ghost use Rattle.gd_replies.specs.Lines.{line_of, lines_of};
ghost use Rattle.gasday_part.specs.AnswerSeen.{answer_seen, last_row};
ghost use Rattle.gasday_part.specs.Answers.{Told, no_memory};
ghost use Rattle.gasday_part.specs.Output.{TellsShort, Written};

use crate::answer::Answer;
use gd_replies::Reply;
use gd_text_part::write_bytes;
use std::alloc::{AllocError, Global};
use std::io::Write;

/// How many bytes of rows are written at once at the least, but for the last ones.
const BLOCK: usize = 1 << 15;

/// Puts a row into a text, in place of what it had.
fn print(line: &mut String, reply: &Reply) -> Result<(), AllocError>
    ensures { OnOk result (string_bytes line.new ≡ line_of reply.now) }
{
    line.clear();
    write!(line, "{reply}")
}

/// Adds a row to a block, by way of a text. Where there is no memory the block has what it had.
fn add(block: &mut Vec<u8>, line: &mut String, reply: &Reply) -> Result<(), AllocError>
    ensures ok { OnOk result (block.new.items ≡ block.old.items ++ line_of reply.now) }
    ensures err { OnErr result (block.new.items ≡ block.old.items) }
{
    print(line, reply)?;
    block.extend_from_slice(line.as_bytes())
}

/// Prints replies in order, and behind them that memory ran out, where it did. Answers the status, or 2 where not all was
/// written.
fn tell<W: Write>(alloc: Global, writer: &mut W, replies: &[Reply], short: bool, status: u8) -> u8
    ensures { Written (W.contents writer.old) (W.contents writer.new) result
        (record { replies = replies.now ++ last_row short; status = status }) }
{
    let mut line = String::new(alloc);
    let mut block = Vec::new(alloc);
    'replies: for reply in replies {
        let Ok(()) = add(&mut block, &mut line, reply) else {
            return tell_short(writer, block.as_slice());
        };
        if block.len() >= BLOCK {
            let Ok(()) = write_bytes(writer, block.as_slice()) else {
                return 2;
            };
            block.clear();
        }
    }
    if short {
        return tell_short(writer, block.as_slice());
    }
    match write_bytes(writer, block.as_slice()) {
        Ok(()) => status,
        Err(_) => 2,
    }
}

/// Writes a block of rows, and behind it that memory ran out.
fn tell_short<W: Write>(writer: &mut W, block: &[u8]) -> u8
    ensures told { TellsShort (W.contents writer.old) (W.contents writer.new) block.now }
    ensures status { result ≡ 2 }
{
    match write_bytes(writer, block) {
        Ok(()) => tell_no_memory(writer),
        Err(_) => 2,
    }
}

/// Tells that memory ran out, which needs none.
fn tell_no_memory<W: Write>(writer: &mut W) -> u8
    ensures front { (n : ℕ) × (n ≤ length (lines_of (no_memory ∷ [])))
        × Appends (W.contents writer.old) (W.contents writer.new) (take n (lines_of (no_memory
        ∷ []))) }
    ensures status { result ≡ 2 }
{
    let _ = write_bytes(writer, b"fault,0,OutOfMemory,,,,,\n");
    2
}

/// Prints an answer and nothing else. Where there was no memory for one, that is printed in its place. Answers the exit status:
/// that of the answer, or 2 where not all of it was written.
///
/// Where memory runs out, the first rows of the answer are followed by `fault,0,OutOfMemory` or by nothing. After a failed
/// write nothing more is written.
pub fn write_answer<W: Write>(
    alloc: Global,
    writer: &mut W,
    answer: &Result<Answer, AllocError>,
) -> u8
    ensures { (told : Told) → IfOk answer.now (λ a. answer_seen a ≡ told)
        → Written (W.contents writer.old) (W.contents writer.new) result told }
{
    match answer {
        Ok(answer) => tell(
            alloc,
            writer,
            answer.replies.as_slice(),
            answer.short,
            answer.status,
        ),
        Err(_) => tell_no_memory(writer),
    }
}
