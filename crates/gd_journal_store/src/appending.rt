//! Appending a piece.

ghost use Rattle.std.specs.Prelude.{◌≡◌, ◌++◌, ◌∷◌, ◌+◌, Err, [], List, length, IsTrue, OnOk, OnErr, IfErr};
ghost use Rattle.sqlite.specs.Held.{state};
ghost use Rattle.sqlite.specs.State.{HasCleanDisk};
ghost use Rattle.gd_journal_store.specs.Pieces.{Piece, IsSettled, IsRefused, LeavesOr};
ghost use Rattle.gd_journal_store.specs.Calls.{Stops};

use crate::fault::StoreFault;
use crate::table::expect_journal;
use sqlite::{Alter, Connection, Error, ErrorCode, params};

/// Enters one row.
fn enter<S: Alter>(
    conn: &mut Connection<S>,
    number: u32,
    rows: &[u8],
    told: &[u8],
) -> Result<usize, Error>
    ensures appended { let old = state S.Store conn.old in let new = state S.Store conn.new in
        HasCleanDisk new → (ps : List Piece) → IsSettled ps old → number ≡ length ps + 1
        → OnOk result (IsSettled (ps ++ (rows.now, told.now) ∷ []) new) }
    ensures any_moment { let old = state S.Store conn.old in let new = state S.Store conn.new in
        HasCleanDisk new → (ps : List Piece) → IsSettled ps old → number ≡ length ps + 1
        → LeavesOr (ps ++ (rows.now, told.now) ∷ []) old new }
    ensures refused { let old = state S.Store conn.old in let new = state S.Store conn.new in
        HasCleanDisk new → OnErr result (IsRefused old new) }
    ensures clean { HasCleanDisk (state S.Store conn.new) → HasCleanDisk (state S.Store conn.old) }
{
    conn.execute(
        "INSERT INTO piece (number, rows, told) VALUES (?1, ?2, ?3)",
        params![number, rows, told],
    )
}

/// Appends a piece under its number, which is that of the last piece and one, and commits it: one statement, one commit.
///
/// The number is not looked up. Under one that is taken nothing is appended, and one that leaves others out is a gap, which
/// `count` finds.
///
/// # Errors
///
/// `NotAJournal` where the file is none, and else `Store`. Whatever is refused leaves the file as it was, unless the disk
/// has shut the connection. A crash during the call leaves the pieces that were there, or those and this one.
pub fn append<S: Alter>(
    conn: &mut Connection<S>,
    number: u32,
    rows: &[u8],
    told: &[u8],
) -> Result<(), StoreFault>
    ensures inside { IsTrue conn.old.in_transaction
        → result ≡ Err (StoreFault.Store (Error.SqliteFailure ErrorCode.TransactionState)) }
    ensures appended { let old = state S.Store conn.old in let new = state S.Store conn.new in
        HasCleanDisk new → (ps : List Piece) → IsSettled ps old → number ≡ length ps + 1
        → OnOk result (IsSettled (ps ++ (rows.now, told.now) ∷ []) new) }
    ensures any_moment { let old = state S.Store conn.old in let new = state S.Store conn.new in
        HasCleanDisk new → (ps : List Piece) → IsSettled ps old → number ≡ length ps + 1
        → LeavesOr (ps ++ (rows.now, told.now) ∷ []) old new }
    ensures refused { let old = state S.Store conn.old in let new = state S.Store conn.new in
        HasCleanDisk new → IfErr result (Stops old new ⊥) }
    ensures clean { HasCleanDisk (state S.Store conn.new) → HasCleanDisk (state S.Store conn.old) }
{
    expect_journal(conn)?;
    enter(conn, number, rows, told)?;
    Ok(())
}
