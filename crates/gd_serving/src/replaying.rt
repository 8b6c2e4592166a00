//! A journal's pieces taken again.

ghost use Rattle.std.specs.Prelude.{◌≡◌, ◌+◌, ◌-◌, ℕ, List, length, map, drop, OnOk, IfOk, IfErr};
ghost use Rattle.sqlite.specs.Held.{state};
ghost use Rattle.sqlite.specs.State.{HasCleanDisk};
ghost use Rattle.gd_journal_store.specs.Pieces.{Piece as APiece, IsSettled, LeavesNoMore};
ghost use Rattle.gd_journal_store.specs.Seen.{seen};
ghost use Rattle.gd_serving.specs.Replays.{Replays, Blames};

use crate::fitting::fits;
use crate::taking::TakesLines;
use gd_journal_store::{Piece, StoreFault, pieces};
use sqlite::{Alter, Connection};
use std::alloc::{AllocError, Global};
use std::thread::Threads;

/// How many pieces are held in memory at once.
const BATCH: u32 = 256;

/// Why pieces are not replayed.
#[derive(Debug, Drop)]
pub enum ReplayFault {
    /// The lines of the piece of this number don't give what it keeps, and the call of this number is the first that differs,
    /// counted from 1 over all pieces that were taken. Where a piece has more than its calls give, it is the one behind them.
    Differs { piece: u64, call: u64 },
    /// Memory ended, or there are more calls than a number has room for.
    OutOfMemory,
    /// A read was refused.
    Store(StoreFault),
}

impl From<AllocError> for ReplayFault {
    ghost use Rattle.std.specs.Prelude.{◌≡◌};
    ghost use Rattle.gd_serving.specs.declared.replaying.ReplayFault.TheVariants.{OutOfMemory};

    ghost from_gives = { λ error fault. fault ≡ OutOfMemory };

    fn from(_error: AllocError) -> ReplayFault {
        ReplayFault::OutOfMemory
    }
}

impl From<StoreFault> for ReplayFault {
    ghost use Rattle.std.specs.Prelude.{◌≡◌};
    ghost use Rattle.gd_serving.specs.declared.replaying.ReplayFault.TheVariants.{Store};

    ghost from_gives = { λ error fault. fault ≡ Store error };

    fn from(fault: StoreFault) -> ReplayFault {
        ReplayFault::Store(fault)
    }
}

/// Takes pieces again, the first of which has this number and the one behind.
fn take_pieces<D: TakesLines>(
    rt: &(impl Threads + Sync),
    alloc: Global,
    desk: &mut D,
    all: &[Piece],
    after: u32,
    next: &mut u64,
) -> Result<(), ReplayFault>
    ensures replayed { OnOk result ((calls : ℕ) × Replays D.gives desk.old (map seen all.now) desk.new calls
        × (next.new ≡ next.old + calls)) }
    ensures differs { IfErr result (Blames D.gives desk.old (map seen all.now) (after + 1) next.old) }
{
    let mut number = u64::from(after);
    'pieces: for piece in all {
        number += 1;
        if !fits(rt, alloc, desk, piece, next)? {
            return Err(ReplayFault::Differs {
                piece: number,
                call: *next,
            });
        }
    }
    Ok(())
}

/// Takes all lines of a journal's pieces behind the first `after` ones again, and answers how many of them kept something.
/// What they give has to be what the pieces keep: the same rows, and the same replies. What they tell beside is not kept.
///
/// `count` is how many pieces the journal has. Some 256 of them are held in memory at a time. Nothing of the file changes.
///
/// # Errors
///
/// `Differs` at the first line that gives something else, also where a piece ends within a line, or has more than its lines
/// give. Else memory ended, or a read was refused. After any of them the desk is not to be used.
pub fn replay<S: Alter, D: TakesLines>(
    rt: &(impl Threads + Sync),
    alloc: Global,
    conn: &mut Connection<S>,
    desk: &mut D,
    after: u32,
    count: u32,
) -> Result<u64, ReplayFault>
    ensures replayed { let old = state S.Store conn.old in let new = state S.Store conn.new in
        HasCleanDisk new → (ps : List APiece) → IsSettled ps old → count ≡ length ps
        → IfOk result (λ calls. Replays D.gives desk.old (drop after ps) desk.new calls × IsSettled ps new) }
    ensures differs { let old = state S.Store conn.old in let new = state S.Store conn.new in
        HasCleanDisk new → (ps : List APiece) → IsSettled ps old → count ≡ length ps
        → IfErr result (Blames D.gives desk.old (drop after ps) (after + 1) 1) }
    ensures any_moment { let new = state S.Store conn.new in HasCleanDisk new
        → LeavesNoMore (state S.Store conn.old) new }
    ensures clean { HasCleanDisk (state S.Store conn.new) → HasCleanDisk (state S.Store conn.old) }
{
    let mut at = after;
    let mut next = 1;
    'batches: while at < count {
        let size = BATCH.min(count - at);
        let some = pieces(conn, alloc, at, size)?;
        take_pieces(rt, alloc, desk, some.as_slice(), at, &mut next)?;
        at += size;
    }
    Ok(next - 1)
}
