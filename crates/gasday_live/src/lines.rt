//! The lines of a run.

ghost use Rattle.std.specs.Prelude.{◌++◌, IfOk, IfErr, IfSome};
ghost use Rattle.sqlite.specs.Held.{state};
ghost use Rattle.sqlite.specs.State.{HasCleanDisk};
ghost use Rattle.gd_live.specs.Seen.{at_desk};
ghost use Rattle.gasday_live.specs.Runs.{Found, IsBegun, ComesToEnd, Stops};

use crate::laws::a_book_grows;
use crate::watched::{Watched, Witness};
use gd_live::Desk;
use gd_serving::{Failure, Finish, serve};
use sqlite::{Alter, Connection};
use std::alloc::Global;
use std::io::{Read, Write};
use std::thread::Threads;

/// How the input came to its end, and whether a row was faulty.
#[derive(Clone, Copy, Debug)]
pub(crate) struct Ending {
    pub(crate) finish: Finish,
    pub(crate) has_fault: bool,
}

/// Serves what a reader has left, line by line.
fn serve_reader<S: Alter, R: Read, W: Write, V: Witness>(
    rt: &(impl Threads + Sync),
    alloc: Global,
    conn: &mut Connection<S>,
    desk: Desk,
    next: u32,
    reader: &mut R,
    writer: &mut W,
    witness: V,
) -> Result<Ending, Failure>
    ensures ended { (found : Found) → IsBegun found next (at_desk desk) (state S.Store conn.old)
        → IfOk result (λ it. IfSome (R.remaining reader.old) (λ text. ComesToEnd found (at_desk desk) text
        (state S.Store conn.new) (W.contents writer.old) (W.contents writer.new) it.finish it.has_fault)) }
    ensures stopped { (found : Found) → IsBegun found next (at_desk desk) (state S.Store conn.old)
        → IfErr result (λ why. IfSome (R.remaining reader.old) (λ text. Stops found (at_desk desk) text
        (state S.Store conn.new) (W.contents writer.old) (W.contents writer.new) why)) }
    ensures clean { HasCleanDisk (state S.Store conn.new) → HasCleanDisk (state S.Store conn.old) }
{
    a_book_grows();
    let mut watched = Watched::new(desk, witness);
    let ended = serve(rt, alloc, conn, &mut watched, next, reader, writer);
    let has_fault = watched.has_fault();
    drop(watched);
    match ended {
        Ok(finish) => Ok(Ending { finish, has_fault }),
        Err(why) => Err(why),
    }
}

/// Serves these bytes and then what a reader has left, line by line.
pub(crate) fn serve_lines<S: Alter, R: Read + Drop, W: Write, V: Witness>(
    rt: &(impl Threads + Sync),
    alloc: Global,
    conn: &mut Connection<S>,
    desk: Desk,
    next: u32,
    bytes: &[u8],
    reader: R,
    writer: &mut W,
    witness: V,
) -> Result<Ending, Failure>
    ensures ended { (found : Found) → IsBegun found next (at_desk desk) (state S.Store conn.old)
        → IfOk result (λ it. IfSome (R.remaining reader) (λ rest. ComesToEnd found (at_desk desk) (bytes.now ++ rest)
        (state S.Store conn.new) (W.contents writer.old) (W.contents writer.new) it.finish it.has_fault)) }
    ensures stopped { (found : Found) → IsBegun found next (at_desk desk) (state S.Store conn.old)
        → IfErr result (λ why. IfSome (R.remaining reader) (λ rest. Stops found (at_desk desk) (bytes.now ++ rest)
        (state S.Store conn.new) (W.contents writer.old) (W.contents writer.new) why)) }
    ensures clean { HasCleanDisk (state S.Store conn.new) → HasCleanDisk (state S.Store conn.old) }
{
    let mut lines = bytes.chain(reader);
    serve_reader(rt, alloc, conn, desk, next, &mut lines, writer, witness)
}
