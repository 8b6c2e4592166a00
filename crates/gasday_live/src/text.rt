//! The text that a book's file keeps.

ghost use Rattle.std.specs.Prelude.{◌≡◌, ◌≤◌, ℕ, List, length, map, take, OnOk, IfErr};
ghost use Rattle.std.specs.Io.KnownBytes.{Appends};
ghost use Rattle.sqlite.specs.Held.{state};
ghost use Rattle.sqlite.specs.State.{HasCleanDisk};
ghost use Rattle.gd_journal_store.specs.Pieces.{Piece as APiece, Keeps, LeavesNoMore};
ghost use Rattle.gd_journal_store.specs.Seen.{seen};
ghost use Rattle.gd_serving.specs.Runs.{rows_text};
ghost use Rattle.gasday_live.specs.Texts.{FailsPrint, Prints, WritesFront};

use crate::output::{tell_failure, told_nothing};
use gasday_part::Written;
use gd_journal_store::{Piece, count, pieces};
use gd_serving::Failure;
use gd_text_part::write_bytes;
use sqlite::{Alter, Connection};
use std::alloc::Global;
use std::io::Write;

/// How many pieces are held in memory at once.
const BATCH: u32 = 256;

/// Writes the rows of pieces, one after the other.
fn write_pieces<W: Write>(writer: &mut W, all: &[Piece]) -> Result<(), Failure>
    ensures all { OnOk result (Appends (W.contents writer.old) (W.contents writer.new)
        (rows_text (map seen all.now))) }
    ensures failed { IfErr result FailsPrint }
    ensures front { (n : ℕ) × (n ≤ length (rows_text (map seen all.now)))
        × Appends (W.contents writer.old) (W.contents writer.new) (take n (rows_text (map seen all.now))) }
{
    'pieces: for piece in all {
        let Ok(()) = write_bytes(writer, piece.rows.as_slice()) else {
            return Err(Failure::WriteFailed);
        };
    }
    Ok(())
}

/// Writes the rows that a book's file keeps, in order: a `day` text, to which `day` answers what the file says was told. It
/// flushes nothing.
///
/// # Errors
///
/// `Store` where the file can't be read, and `WriteFailed`. Bytes at the front of the rows may have been written, and no others.
pub fn write_text<S: Alter, W: Write>(
    alloc: Global,
    conn: &mut Connection<S>,
    writer: &mut W,
) -> Result<(), Failure>
    ensures text { HasCleanDisk (state S.Store conn.new) → OnOk result ((ps : List APiece)
        × Keeps ps (state S.Store conn.old).now
        × Appends (W.contents writer.old) (W.contents writer.new) (rows_text ps)) }
    ensures failed { IfErr result FailsPrint }
    ensures front { HasCleanDisk (state S.Store conn.new) → WritesFront (state S.Store conn.old)
        (W.contents writer.old) (W.contents writer.new) }
    ensures any_moment { let new = state S.Store conn.new in HasCleanDisk new
        → LeavesNoMore (state S.Store conn.old) new }
    ensures clean { HasCleanDisk (state S.Store conn.new) → HasCleanDisk (state S.Store conn.old) }
{
    let count = count(conn)?;
    let mut at = 0;
    'batches: while at < count {
        let size = BATCH.min(count - at);
        let some = pieces(conn, alloc, at, size)?;
        write_pieces(writer, some.as_slice())?;
        at += size;
    }
    Ok(())
}

/// Prints the text that a book's file keeps. The status is 0 where all of it was written; and 2 where the file can't be read,
/// which is told behind what was written, or the writer failed.
pub fn print_book<S: Alter, W: Write>(
    alloc: Global,
    conn: &mut Connection<S>,
    writer: &mut W,
) -> Written
    ensures printed { HasCleanDisk (state S.Store conn.new) → Prints (state S.Store conn.old) (W.contents writer.old)
        (W.contents writer.new) result.status }
    ensures clean { HasCleanDisk (state S.Store conn.new) → HasCleanDisk (state S.Store conn.old) }
{
    match write_text(alloc, conn, writer) {
        Ok(()) => {
            if writer.flush().is_err() {
                return told_nothing(2);
            }
            told_nothing(0)
        }
        Err(why) => tell_failure(alloc, writer, &why),
    }
}
