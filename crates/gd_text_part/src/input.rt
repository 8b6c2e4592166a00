//! The bytes of a reader.

ghost use Rattle.std.specs.Prelude.{◌≡◌, ◌≤◌, ◌<◌, ◌+◌, ◌++◌, length, IfOk, IfErr, IfSome, OnOk};
ghost use Rattle.gd_text_part.specs.Texts.{BlamesNoRow, HasManyBytes};

use crate::fault::TextFault;
use std::alloc::Global;
use std::io::Read;

/// The most bytes that a text may have (own).
pub const MAX_BYTES: usize = 268_435_456;

/// The most reads that a text may take (own).
pub const MAX_READS: usize = 4_194_304;

/// How many bytes a read may give.
const BLOCK: usize = 65_536;

/// Adds a block that was read to the text, if the text may have so many bytes.
fn append(text: &mut Vec<u8>, block: &[u8]) -> Result<(), TextFault>
    requires { length text.old.items ≤ MAX_BYTES }
    ensures all { OnOk result (text.new.items ≡ text.old.items ++ block.now) }
    ensures few { OnOk result (length text.new.items ≤ MAX_BYTES) }
    ensures fault { IfErr result (BlamesNoRow (MAX_BYTES < length text.old.items
        + length block.now)) }
{
    if MAX_BYTES - text.len() < block.len() {
        return Err(TextFault::TooLong);
    }
    text.extend_from_slice(block)?;
    Ok(())
}

/// All the bytes that a reader has left.
///
/// # Errors
///
/// `ReadFailed` where a read fails, `TooLong` where there are more bytes than a text may have or they take too many reads, and
/// `OutOfMemory`. At each of them some of the bytes were read, and which is left open.
pub fn read_bytes<R: Read>(alloc: Global, reader: &mut R) -> Result<Vec<u8>, TextFault>
    ensures bytes { IfOk result (λ text. IfSome (R.remaining reader.old) (λ all. text.items
        ≡ all)) }
    ensures few { IfOk result (λ text. length text.items ≤ MAX_BYTES) }
    ensures fault { IfErr result (BlamesNoRow (IfSome (R.remaining reader.old) HasManyBytes)) }
{
    let mut text = Vec::new(alloc);
    let mut block = [0; BLOCK];
    'reads: for _ in 0..MAX_READS {
        let Ok(count) = reader.read(&mut block) else {
            return Err(TextFault::ReadFailed);
        };
        if count == 0 {
            return Ok(text);
        }
        append(&mut text, &block[..count])?;
    }
    Err(TextFault::TooLong)
}
