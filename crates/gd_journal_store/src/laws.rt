//! What is kept is read: laws of several calls together, which no program makes, and of what a journal keeps.

ghost use Rattle.std.specs.Prelude.{◌≡◌, ◌+◌, ◌++◌, ◌∷◌, [], List, length, map, IsTrue, IfSome};
ghost use Rattle.sqlite.specs.Held.{state};
ghost use Rattle.sqlite.specs.State.{HasCleanDisk};
ghost use Rattle.sqlite.specs.Tree.{Trees};
ghost use Rattle.gd_journal_store.specs.Pieces.{Piece as APiece, HasPieces, Keeps, IsSettled};
ghost use Rattle.gd_journal_store.specs.Seen.{seen};

use crate::appending::append;
use crate::reading::{Piece, pieces};
use sqlite::{Alter, Connection};
use std::alloc::Global;

/// Whether no transaction is open. Then the pieces that an open connection sees are settled: a crash leaves them and
/// nothing else.
pub fn settled<S: Alter>(conn: &Connection<S>) -> bool
    ensures { let now = state S.Store conn.now in IsTrue result → IsTrue now.is_open
        → (ps : List APiece) → Keeps ps now.now → IsSettled ps now }
{
    conn.is_autocommit()
}

/// What a journal keeps is one list of pieces.
pub fn pieces_are_one()
    ensures { (ps qs : List APiece) (trees : Trees) → HasPieces ps trees → HasPieces qs trees → ps ≡ qs }
{}

/// Appends a piece, and then reads all; `None` where either call is refused.
///
/// What is read are the pieces from before and this one, in order.
pub fn kept_is_read<S: Alter>(
    conn: &mut Connection<S>,
    alloc: Global,
    number: u32,
    rows: &[u8],
    told: &[u8],
) -> Option<Vec<Piece>>
    ensures { let old = state S.Store conn.old in let new = state S.Store conn.new in
        HasCleanDisk new → (ps : List APiece) → IsSettled ps old → number ≡ length ps + 1
        → IfSome result (λ v. map seen v.items ≡ ps ++ (rows.now, told.now) ∷ []) }
{
    let Ok(()) = append(conn, number, rows, told) else {
        return None;
    };
    match pieces(conn, alloc, 0, number) {
        Ok(all) => Some(all),
        Err(_) => None,
    }
}
