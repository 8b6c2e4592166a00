//! The opening of a gas day, as it is read.

ghost use Rattle.std.specs.Prelude.{◌≡◌, ◌++◌, true, IfOk, IfErr, IfSome};
ghost use Rattle.std.specs.Io.KnownBytes.{Consumes, IsAtEnd};
ghost use Rattle.gd_text_part.specs.Texts.{BlamesNoRow};
ghost use Rattle.gd_live.specs.Openings.{HasLongOpening, IsOpening};

use crate::line::take_block;
use gd_text_part::TextFault;
use std::alloc::Global;
use std::io::Read;

/// How many bytes a read may give.
const BLOCK: usize = 65_536;

/// What was read of a text that opens a gas day and goes on by the lines of its calls.
#[derive(Debug, Drop)]
pub struct Opening {
    /// Whole lines, each with its line feed: all those before the first one that is of calls (`is_of_calls`).
    pub text: Vec<u8>,
    /// What was read behind them: it begins with that line, or it is the unfinished line with which the text ended, if any.
    pub begun: Vec<u8>,
    /// The text ended without a line of calls.
    pub has_ended: bool,
}

/// Reads whole lines up to the first one that is of calls, or all there are. What was read behind them is handed out too: who
/// goes on reads that first, and then what the reader has left.
///
/// # Errors
///
/// `ReadFailed` where a read fails; `TooLong` where the lines and the beginning of the next, which isn't known for one of calls
/// yet, have more bytes than a text may have (`MAX_BYTES`); and else `OutOfMemory`. At each of them some of the bytes were read,
/// and which is left open.
pub fn read_opening<R: Read>(alloc: Global, reader: &mut R) -> Result<Opening, TextFault>
    ensures opening { IfOk result (λ o. IsOpening o.text.items o.begun.items o.has_ended) }
    ensures bytes { IfOk result (λ o. Consumes (R.remaining reader.old) (R.remaining reader.new)
        (o.text.items ++ o.begun.items)) }
    ensures ended { IfOk result (λ o. o.has_ended ≡ true → IsAtEnd (R.remaining reader.new)) }
    ensures fault { IfErr result (BlamesNoRow (IfSome (R.remaining reader.old) HasLongOpening)) }
{
    let mut text = Vec::new(alloc);
    let mut begun = Vec::new(alloc);
    let mut block = [0; BLOCK];
    'reads: loop {
        let Ok(count) = reader.read(&mut block) else {
            return Err(TextFault::ReadFailed);
        };
        if count == 0 {
            return Ok(Opening {
                text,
                begun,
                has_ended: true,
            });
        }
        if take_block(&mut text, &mut begun, &block[..count])? {
            return Ok(Opening {
                text,
                begun,
                has_ended: false,
            });
        }
    }
}
