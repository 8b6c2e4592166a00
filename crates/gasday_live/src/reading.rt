//! The book of a file is made again.

ghost use Rattle.std.specs.Prelude.{◌≡◌, ◌∷◌, [], List, ℕ, length, drop, IfOk, IfErr};
ghost use Rattle.sqlite.specs.Held.{state};
ghost use Rattle.sqlite.specs.State.{HasCleanDisk};
ghost use Rattle.gd_journal_store.specs.Pieces.{Piece as APiece, IsSettled, LeavesNoMore};
ghost use Rattle.gd_live.specs.Seen.{at_desk};
ghost use Rattle.gd_live.specs.Stands.{no_group};
ghost use Rattle.gasday_live.specs.Books.{Blames, BlamesOpening, OpensSo, Stands};

use crate::kept::KeptBook;
use crate::laws::a_book_grows;
use crate::opening::{Opened, open_opening};
use gasday_part::{DayFault, NoBook};
use gd_journal_store::{Piece, pieces};
use gd_serving::{ReplayFault, replay};
use gd_text_part::TextFault;
use sqlite::{Alter, Connection};
use std::alloc::Global;
use std::thread::Threads;

/// Why the first piece opens no book.
fn fault_of(why: NoBook) -> ReplayFault
    ensures { BlamesOpening result }
{
    match why {
        NoBook::Fault(TextFault::OutOfMemory) | NoBook::NoCalendar(DayFault::OutOfMemory) => {
            ReplayFault::OutOfMemory
        }
        _ => ReplayFault::Differs { piece: 1, call: 0 },
    }
}

/// The book that a piece opens, of which nothing was told.
fn open_first(alloc: Global, piece: &Piece) -> Result<Opened, ReplayFault>
    ensures opened { IfOk result (λ o. OpensSo piece.now.rows.items o.book o.rows o.bytes
        × (piece.now.told.items ≡ [])) }
    ensures fault { IfErr result BlamesOpening }
{
    if !piece.told.is_empty() {
        return Err(ReplayFault::Differs { piece: 1, call: 0 });
    }
    match open_opening(alloc, piece.rows.as_slice()) {
        Ok(opened) => Ok(opened),
        Err(why) => Err(fault_of(why)),
    }
}

/// The book that the first piece of a file opens.
fn open_piece<S: Alter>(alloc: Global, conn: &mut Connection<S>) -> Result<Opened, ReplayFault>
    ensures opened { let old = state S.Store conn.old in let new = state S.Store conn.new in
        HasCleanDisk new → (ps : List APiece) → IsSettled ps old → IfOk result (λ o. IsSettled ps new
        × ((opening : List ℕ) × (ps ≡ (opening, []) ∷ drop 1 ps)
        × OpensSo opening o.book o.rows o.bytes)) }
    ensures fault { IfErr result BlamesOpening }
    ensures any_moment { let new = state S.Store conn.new in HasCleanDisk new
        → LeavesNoMore (state S.Store conn.old) new }
    ensures clean { HasCleanDisk (state S.Store conn.new) → HasCleanDisk (state S.Store conn.old) }
{
    let first = pieces(conn, alloc, 0, 1)?;
    match first.as_slice().first() {
        Some(piece) => open_first(alloc, piece),
        None => Err(ReplayFault::Differs { piece: 1, call: 0 }),
    }
}

/// Makes the book of a file again, which has so many pieces: the first one opens it, and all lines of the others are taken
/// again. What they give has to be what the pieces keep.
///
/// # Errors
///
/// `Differs`, at call 0 of piece 1 where that opens no book, or has something told; and else as `replay` tells it.
pub fn read_book<S: Alter>(
    rt: &(impl Threads + Sync),
    alloc: Global,
    conn: &mut Connection<S>,
    count: u32,
) -> Result<KeptBook, ReplayFault>
    ensures book { let old = state S.Store conn.old in let new = state S.Store conn.new in
        HasCleanDisk new → (ps : List APiece) → IsSettled ps old → count ≡ length ps
        → IfOk result (λ b. IsSettled ps new × Stands ps b.calls (at_desk b.desk)) }
    ensures differs { HasCleanDisk (state S.Store conn.new) → (ps : List APiece)
        → IsSettled ps (state S.Store conn.old) → count ≡ length ps → IfErr result (Blames ps) }
    ensures group { IfOk result (λ b. (at_desk b.desk).group ≡ no_group) }
    ensures number { IfOk result (λ b. (at_desk b.desk).number ≡ 0) }
    ensures any_moment { let new = state S.Store conn.new in HasCleanDisk new
        → LeavesNoMore (state S.Store conn.old) new }
    ensures clean { HasCleanDisk (state S.Store conn.new) → HasCleanDisk (state S.Store conn.old) }
{
    let opened = open_piece(alloc, conn)?;
    a_book_grows();
    let mut desk = opened.into_desk(alloc);
    match replay(rt, alloc, conn, &mut desk, 1, count) {
        Ok(calls) => {
            desk.begin_run(0);
            Ok(KeptBook { desk, calls })
        }
        Err(why) => {
            drop(desk);
            Err(why)
        }
    }
}
