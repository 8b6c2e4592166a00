//! A run on a book's file.

ghost use Rattle.std.specs.Prelude.{◌⊎◌, List, ℕ};
ghost use Rattle.sqlite.specs.Effect.{Database};
ghost use Rattle.sqlite.specs.Held.{state};
ghost use Rattle.sqlite.specs.State.{HasCleanDisk};
ghost use Rattle.gd_live.specs.Seen.{at_desk};
ghost use Rattle.gasday_live.specs.Runs.{IsBegun, OpensUntold, Runs, ServesOpened, found_at};

use crate::beginning::{Begun, begin, of_no_run};
use crate::lines::serve_lines;
use crate::output::{tell, tell_end, told_nothing};
use crate::watched::Witness;
use gasday_part::{Written, write_rows};
use sqlite::{Alter, Connection};
use std::alloc::Global;
use std::io::{Read, Write};
use std::thread::Threads;

/// Tells that a book is open, and serves lines on it.
fn serve_begun<S: Alter, R: Read + Drop, W: Write, V: Witness>(
    rt: &(impl Threads + Sync),
    alloc: Global,
    conn: &mut Connection<S>,
    begun: Begun,
    reader: R,
    writer: &mut W,
    witness: V,
) -> Written
    ensures run { (had : Database) (head : List ℕ)
        → IsBegun (found_at had head begun.book.calls) begun.next (at_desk begun.book.desk) (state S.Store conn.old)
        → OpensUntold (found_at had head begun.book.calls) (at_desk begun.book.desk) (state S.Store conn.new)
        (W.contents writer.old) (W.contents writer.new) result.status
        ⊎ ServesOpened (found_at had head begun.book.calls) (at_desk begun.book.desk) (state S.Store conn.new)
        begun.bytes.items (R.remaining reader) (W.contents writer.old) (W.contents writer.new) result.status }
    ensures clean { HasCleanDisk (state S.Store conn.new) → HasCleanDisk (state S.Store conn.old) }
{
    if !tell(alloc, writer, begun.book.opened()) {
        drop(begun);
        drop(witness);
        return told_nothing(2);
    }
    let Begun { book, next, bytes } = begun;
    let ended = serve_lines(
        rt,
        alloc,
        conn,
        book.desk,
        next,
        bytes.as_slice(),
        reader,
        writer,
        witness,
    );
    drop(bytes);
    tell_end(alloc, writer, &ended)
}

/// Serves the calls of a gas day's book line by line, as they come, on the book that the file keeps. Where the file keeps none, the
/// head of the input opens it. What is told is written and flushed once it is kept; how each event of a call came is shown to the witness
/// as soon as it is made, before it is kept.
///
/// The status is 0 where the input ended and no row was faulty, 1 where some row was, the file differs or the opening has no
/// calendar, and 2 where the run failed. The connection is one that nobody else has, and is to be closed by the caller.
pub fn serve_book<S: Alter, R: Read + Drop, W: Write, V: Witness>(
    rt: &(impl Threads + Sync),
    alloc: Global,
    conn: &mut Connection<S>,
    reader: R,
    writer: &mut W,
    witness: V,
) -> Written
    ensures run { Runs (R.remaining reader) (state S.Store conn.old) (state S.Store conn.new)
        (W.contents writer.old) (W.contents writer.new) result.status }
    ensures clean { HasCleanDisk (state S.Store conn.new) → HasCleanDisk (state S.Store conn.old) }
{
    let mut reader = reader;
    match begin(rt, alloc, conn, &mut reader) {
        Ok(begun) => serve_begun(rt, alloc, conn, begun, reader, writer, witness),
        Err(why) => {
            drop(witness);
            write_rows(alloc, writer, of_no_run(alloc, why))
        }
    }
}
