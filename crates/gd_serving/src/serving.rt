//! Turns until the input ends.

ghost use Rattle.std.specs.Prelude.{◌≡◌, [], length, IfSome, IfOk, IfErr};
ghost use Rattle.sqlite.specs.Held.{state};
ghost use Rattle.sqlite.specs.State.{HasCleanDisk};
ghost use Rattle.gd_serving.specs.Lines.{cut};
ghost use Rattle.gd_serving.specs.Runs.{Served, Stopped, EndsAs};

use crate::failure::{Failure, Finish};
use crate::taking::TakesLines;
use crate::turn::{Intake, Turn, take_turn};
use sqlite::{Alter, Connection};
use std::alloc::{AllocError, Global};
use std::io::{Read, Write};
use std::thread::Threads;

/// How many bytes one read takes at most.
const BLOCK: usize = 65_536;

/// Room for one read.
fn new_block(alloc: Global) -> Result<Vec<u8>, AllocError>
    ensures { IfOk result (λ block. length block.items ≡ 65_536) }
{
    vec![in alloc; 0u8; BLOCK]
}

/// How the input ended, by the beginning of the line that came last.
fn finish_of(begun: &[u8]) -> Finish
    ensures { EndsAs begun.now result }
{
    if begun.is_empty() {
        return Finish::Ended;
    }
    Finish::Unfinished
}

/// Serves a reader's lines to its end, turn by turn, or until something fails. A line that the end leaves unfinished isn't taken.
///
/// `next` is the number of the next piece. A read takes 65,536 bytes at most. Nothing that was told stays in memory.
///
/// # Errors
///
/// Each as `Failure` says. After any of them the desk is not to be used.
pub fn serve<S: Alter, D: TakesLines, R: Read, W: Write>(
    rt: &(impl Threads + Sync),
    alloc: Global,
    conn: &mut Connection<S>,
    desk: &mut D,
    next: u32,
    reader: &mut R,
    writer: &mut W,
) -> Result<Finish, Failure>
    ensures ended { IfOk result (λ finish. IfSome (R.remaining reader.old) (λ text. EndsAs (cut [] text).1 finish
        × Served D.gives desk.old (cut [] text).0 desk.new next
        (state S.Store conn.old) (state S.Store conn.new) (W.contents writer.old) (W.contents writer.new))) }
    ensures stopped { IfErr result (λ why. IfSome (R.remaining reader.old) (λ text.
        Stopped D.gives desk.old (cut [] text).0 next
        (state S.Store conn.old) (state S.Store conn.new) (W.contents writer.old) (W.contents writer.new) why)) }
    ensures clean { HasCleanDisk (state S.Store conn.new) → HasCleanDisk (state S.Store conn.old) }
{
    let mut bytes = new_block(alloc)?;
    let block = bytes.as_mut_slice();
    let mut intake = Intake {
        begun: Vec::new(alloc),
        next,
    };
    'turns: for _ in 0..u64::MAX {
        match take_turn(rt, alloc, conn, desk, &mut intake, block, reader, writer)? {
            Turn::GoesOn => {}
            Turn::Ended => return Ok(finish_of(intake.begun.as_slice())),
        }
    }
    Err(Failure::ReadFailed)
}
