//! One read, one piece, and then what is told.

ghost use Rattle.std.specs.Prelude.{◌≡◌, ◌<◌, ℕ, List, Ok, Err, [], length, take, OnOk, IfErr};
ghost use Rattle.std.specs.Io.KnownBytes.{Appends, Consumes, IsAtEnd};
ghost use Rattle.sqlite.specs.Held.{state};
ghost use Rattle.sqlite.specs.State.{HasCleanDisk};
ghost use Rattle.gd_journal_store.specs.Pieces.{LeavesOr};
ghost use Rattle.gd_serving.specs.Lines.{cut};
ghost use Rattle.gd_serving.specs.Seen.{seen};
ghost use Rattle.gd_serving.specs.Yields.{kept_of};
ghost use Rattle.gd_serving.specs.Turns.{grown, OnSettled, IsSettledAt, GoesOn, Stops, Fails};

use crate::block::take_block;
use crate::failure::Failure;
use crate::given::Given;
use crate::output::write_bytes;
use crate::taking::TakesLines;
use gd_journal_store::{StoreFault, append};
use sqlite::{Alter, Connection, Error, ErrorCode};
use std::alloc::Global;
use std::io::{Read, Write};
use std::thread::Threads;

/// How a turn ended: more may come, or the input is at its end.
#[derive(Clone, Copy, Debug, PartialEq, Eq)]
pub enum Turn {
    GoesOn,
    Ended,
}

/// The beginning of the line that comes, and the number of the next piece.
#[derive(Debug, Drop)]
pub struct Intake {
    pub begun: Vec<u8>,
    pub next: u32,
}

/// Keeps what is to be kept, if anything: one commit.
fn keep<S: Alter>(conn: &mut Connection<S>, next: &mut u32, given: &Given) -> Result<(), StoreFault>
    ensures kept { let old = state S.Store conn.old in let new = state S.Store conn.new in
        OnSettled next.old old new (λ ps. OnOk result (IsSettledAt (grown ps (kept_of (seen given.now))) next.new new)) }
    ensures any_moment { let old = state S.Store conn.old in let new = state S.Store conn.new in
        OnSettled next.old old new (λ ps. LeavesOr (grown ps (kept_of (seen given.now))) old new) }
    ensures clean { HasCleanDisk (state S.Store conn.new) → HasCleanDisk (state S.Store conn.old) }
{
    if given.is_nothing() {
        return Ok(());
    }
    if *next == u32::MAX {
        return Err(StoreFault::Store(Error::SqliteFailure(ErrorCode::TooBig)));
    }
    append(conn, *next, given.rows.as_slice(), given.replies.as_slice())?;
    *next += 1;
    Ok(())
}

/// Keeps what lines gave, and then tells it.
fn keep_and_tell<S: Alter, W: Write>(
    conn: &mut Connection<S>,
    next: &mut u32,
    given: &Given,
    writer: &mut W,
) -> Result<(), Failure>
    ensures told { OnOk result (Appends (W.contents writer.old) (W.contents writer.new) given.now.told.items) }
    ensures kept { let old = state S.Store conn.old in let new = state S.Store conn.new in
        OnSettled next.old old new (λ ps. OnOk result (IsSettledAt (grown ps (kept_of (seen given.now))) next.new new)) }
    ensures failed { IfErr result (Fails (seen given.now) next.old (state S.Store conn.old) (state S.Store conn.new)
        (W.contents writer.old) (W.contents writer.new)) }
    ensures clean { HasCleanDisk (state S.Store conn.new) → HasCleanDisk (state S.Store conn.old) }
{
    keep(conn, next, given)?;
    write_bytes(writer, given.told.as_slice())
}

/// Reads once, keeps what is to be kept of the lines that came to their end, and then tells of them.
///
/// All that one read brings is one piece and one commit, and what is told is written and flushed behind it. Where nothing is
/// to be kept, nothing is committed. The read takes as many bytes as `block` has; what was in it is overwritten.
///
/// # Errors
///
/// Each as `Failure` says. After any of them the desk and the intake are not to be used.
pub fn take_turn<S: Alter, D: TakesLines, R: Read, W: Write>(
    rt: &(impl Threads + Sync),
    alloc: Global,
    conn: &mut Connection<S>,
    desk: &mut D,
    intake: &mut Intake,
    block: &mut [u8],
    reader: &mut R,
    writer: &mut W,
) -> Result<Turn, Failure>
    requires { 0 < length block.old }
    ensures goes_on { result ≡ Ok Turn.GoesOn → (bytes : List ℕ)
        × Consumes (R.remaining reader.old) (R.remaining reader.new) bytes
        × (intake.new.begun.items ≡ (cut intake.old.begun.items bytes).1)
        × GoesOn D.gives desk.old (cut intake.old.begun.items bytes).0 desk.new intake.old.next intake.new.next
        (state S.Store conn.old) (state S.Store conn.new) (W.contents writer.old) (W.contents writer.new) }
    ensures ended { result ≡ Ok Turn.Ended → IsAtEnd (R.remaining reader.old) × (conn.new ≡ conn.old)
        × (desk.new ≡ desk.old) × (intake.new ≡ intake.old) × (writer.new ≡ writer.old) }
    ensures failed { IfErr result (λ why. (bytes : List ℕ)
        × Consumes (R.remaining reader.old) (R.remaining reader.new) bytes
        × Stops D.gives desk.old (cut intake.old.begun.items bytes).0 intake.old.next
        (state S.Store conn.old) (state S.Store conn.new) (W.contents writer.old) (W.contents writer.new) why) }
    ensures clean { HasCleanDisk (state S.Store conn.new) → HasCleanDisk (state S.Store conn.old) }
{
    let Ok(count) = reader.read(block) else {
        return Err(Failure::ReadFailed);
    };
    if count == 0 {
        return Ok(Turn::Ended);
    }
    let mut given = Given::new(alloc);
    take_block(rt, desk, &mut intake.begun, &block[..count], &mut given)?;
    keep_and_tell(conn, &mut intake.next, &given, writer)?;
    Ok(Turn::GoesOn)
}
