//! Reading pieces.

ghost use Rattle.std.specs.Prelude.{◌≡◌, ◌≢◌, ◌≤◌, ◌+◌, ◌^◌, Err, [], ℕ, pos, List, map, length, IsTrue, IfOk, IfErr, OnErr};
ghost use Rattle.sqlite.specs.Held.{state};
ghost use Rattle.sqlite.specs.State.{HasCleanDisk, IsUnchanged, Survives};
ghost use Rattle.sqlite.specs.Order.{column};
ghost use Rattle.sqlite.specs.declared.types.Value.TheVariants.{Blob};
ghost use Rattle.gd_journal_store.specs.Table.{journal};
ghost use Rattle.gd_journal_store.specs.Pieces.{Piece as APiece, numbered, numbered_at, HasPieces, IsSettled, IsRefused, LeavesNoMore};
ghost use Rattle.gd_journal_store.specs.Rows.{shape};
ghost use Rattle.gd_journal_store.specs.Seen.{seen};
ghost use Rattle.gd_journal_store.specs.Calls.{Counts, IsOfRows, KeepsFewer, KeepsNone, Stops, part};

use crate::fault::StoreFault;
use crate::table::expect_journal;
use sqlite::types::ValueRef;
use sqlite::{Alter, Connection, Error, ErrorCode, Row, params};
use std::alloc::Global;

/// Some rows of a book and what was told of them, each as bytes.
#[derive(Debug, Drop)]
pub struct Piece {
    pub rows: Vec<u8>,
    pub told: Vec<u8>,
}

/// The bytes of a column.
fn bytes_at(row: &Row, at: usize) -> Result<&[u8], StoreFault>
    ensures read { IfOk result (λ bytes. column row.now at ≡ Blob bytes.now) }
    ensures fault { IfErr result (IsOfRows ((bytes : List ℕ) → column row.now at ≢ Blob bytes)) }
{
    match row.get_ref(at)? {
        ValueRef::Blob(bytes) => Ok(bytes),
        _ => Err(StoreFault::Damaged),
    }
}

/// The bytes of the row of a piece, which has this number.
fn bytes_of(row: &Row, number: u32) -> Result<(&[u8], &[u8]), StoreFault>
    ensures read { IfOk result (λ p. shape row.now ≡ numbered_at number (p.0.now, p.1.now)) }
    ensures fault { IfErr result (IsOfRows ((p : APiece) → shape row.now ≢ numbered_at number p)) }
{
    let found: i64 = row.get(0)?;
    if found != i64::from(number) {
        return Err(StoreFault::Damaged);
    }
    Ok((bytes_at(row, 1)?, bytes_at(row, 2)?))
}

/// The piece of a row, which has this number.
fn piece_of(alloc: Global, row: &Row, number: u32) -> Result<Piece, StoreFault>
    ensures read { IfOk result (λ p. shape row.now ≡ numbered_at number (seen p)) }
    ensures fault { IfErr result (IsOfRows ((p : APiece) → shape row.now ≢ numbered_at number p)) }
{
    let (rows, told) = bytes_of(row, number)?;
    match (Vec::from_slice(alloc, rows), Vec::from_slice(alloc, told)) {
        (Ok(rows), Ok(told)) => Ok(Piece { rows, told }),
        _ => Err(StoreFault::Store(Error::SqliteFailure(ErrorCode::OutOfMemory))),
    }
}

/// Reads all rows one at a time, and counts them, where they are numbered from 1.
fn count_rows<S: Alter>(conn: &mut Connection<S>) -> Result<u32, StoreFault>
    ensures counted { let old = state S.Store conn.old in let new = state S.Store conn.new in
        HasCleanDisk new → conn.old.schema ≡ journal
        → IfOk result (λ n. (ps : List APiece) × (n ≡ length ps) × HasPieces ps old.now.trees
        × IsUnchanged old new) }
    ensures refused { let old = state S.Store conn.old in let new = state S.Store conn.new in
        HasCleanDisk new → conn.old.schema ≡ journal → OnErr result (IsRefused old new) }
    ensures survives { let old = state S.Store conn.old in let new = state S.Store conn.new in
        conn.old.schema ≡ journal → Survives old new (λ _. ⊥) }
    ensures fault { let old = state S.Store conn.old in let new = state S.Store conn.new in
        HasCleanDisk new → conn.old.schema ≡ journal → IfErr result (IsOfRows (KeepsNone old.now)) }
{
    let mut rows = conn.query("SELECT number, rows, told FROM piece ORDER BY number", &[])?;
    'rows: for number in 0..u32::MAX {
        let Some(row) = rows.next()? else {
            return Ok(number);
        };
        bytes_of(row, number + 1)?;
    }
    Err(StoreFault::Damaged)
}

/// The last of so many numbers behind this one.
fn last_of(after: u32, count: u32) -> i64
    ensures { result ≡ pos (after + count) }
{
    i64::from(after) + i64::from(count)
}

/// The rows of so many numbers behind this one.
fn rows_behind<S: Alter>(
    conn: &mut Connection<S>,
    after: u32,
    count: u32,
) -> Result<Vec<Row>, Error>
    ensures shown { let old = state S.Store conn.old in let new = state S.Store conn.new in
        HasCleanDisk new → conn.old.schema ≡ journal → IfOk result (λ rows. ((ps : List APiece)
        → HasPieces ps old.now.trees → map shape rows.items ≡ numbered (after + 1) (part after count ps))
        × IsUnchanged old new) }
    ensures refused { let old = state S.Store conn.old in let new = state S.Store conn.new in
        HasCleanDisk new → OnErr result (IsRefused old new) }
    ensures survives { let old = state S.Store conn.old in let new = state S.Store conn.new in
        conn.old.schema ≡ journal → Survives old new (λ _. ⊥) }
    ensures clean { HasCleanDisk (state S.Store conn.new) → HasCleanDisk (state S.Store conn.old) }
{
    conn.query_all(
        "SELECT number, rows, told FROM piece WHERE number > ?1 AND number <= ?2 ORDER BY number",
        params![after, last_of(after, count)],
    )
}

/// The pieces of rows, which are numbered on from this number.
fn all_pieces(alloc: Global, rows: &[Row], after: u32) -> Result<Vec<Piece>, StoreFault>
    ensures read { IfOk result (λ v. map shape rows.now ≡ numbered (after + 1) (map seen v.items)) }
    ensures fault { IfErr result (IsOfRows ((ps : List APiece) → map shape rows.now ≡ numbered (after + 1) ps
        → 2 ^ 32 ≤ after + length rows.now)) }
{
    let mut pieces = Vec::new(alloc);
    let mut number = after;
    'rows: for row in rows {
        if number == u32::MAX {
            return Err(StoreFault::Damaged);
        }
        number += 1;
        let piece = piece_of(alloc, row, number)?;
        if pieces.push(piece).is_err() {
            return Err(StoreFault::Store(Error::SqliteFailure(ErrorCode::OutOfMemory)));
        }
    }
    Ok(pieces)
}

/// How many pieces the journal has. Each is read once, and tested: they are numbered 1, 2, 3 and so on, and each has bytes.
///
/// It holds one piece at a time, so it takes little memory, however large the file is. It changes nothing.
///
/// # Errors
///
/// `NotAJournal` where the file is none, `Damaged` where a row is no piece or has another number, or there are more of them
/// than can be counted, and else `Store`.
pub fn count<S: Alter>(conn: &mut Connection<S>) -> Result<u32, StoreFault>
    ensures inside { IsTrue conn.old.in_transaction
        → result ≡ Err (StoreFault.Store (Error.SqliteFailure ErrorCode.TransactionState)) }
    ensures counted { let new = state S.Store conn.new in HasCleanDisk new
        → IfOk result (Counts (state S.Store conn.old) new) }
    ensures refused { let old = state S.Store conn.old in let new = state S.Store conn.new in
        HasCleanDisk new → IfErr result (Stops old new (KeepsNone old.now)) }
    ensures any_moment { let new = state S.Store conn.new in HasCleanDisk new
        → LeavesNoMore (state S.Store conn.old) new }
    ensures clean { HasCleanDisk (state S.Store conn.new) → HasCleanDisk (state S.Store conn.old) }
{
    expect_journal(conn)?;
    count_rows(conn)
}

/// The `count` pieces behind the first `after` ones, in order.
///
/// It takes as much memory as these pieces, twice for as long as it runs. It changes nothing.
///
/// # Errors
///
/// `NotAJournal` where the file is none, `Damaged` where they are not all there, or one is no piece or has another number,
/// and else `Store`.
pub fn pieces<S: Alter>(
    conn: &mut Connection<S>,
    alloc: Global,
    after: u32,
    count: u32,
) -> Result<Vec<Piece>, StoreFault>
    ensures inside { IsTrue conn.old.in_transaction
        → result ≡ Err (StoreFault.Store (Error.SqliteFailure ErrorCode.TransactionState)) }
    ensures read { let old = state S.Store conn.old in let new = state S.Store conn.new in
        HasCleanDisk new → (ps : List APiece) → IsSettled ps old
        → IfOk result (λ v. (map seen v.items ≡ part after count ps) × IsSettled ps new) }
    ensures whole { IfOk result (λ v. length v.items ≡ count) }
    ensures refused { let old = state S.Store conn.old in let new = state S.Store conn.new in
        HasCleanDisk new → IfErr result (Stops old new (KeepsFewer (after + count) old.now)) }
    ensures any_moment { let new = state S.Store conn.new in HasCleanDisk new
        → LeavesNoMore (state S.Store conn.old) new }
    ensures clean { HasCleanDisk (state S.Store conn.new) → HasCleanDisk (state S.Store conn.old) }
{
    expect_journal(conn)?;
    let rows = rows_behind(conn, after, count)?;
    if rows.len() != count as usize {
        return Err(StoreFault::Damaged);
    }
    all_pieces(alloc, rows.as_slice(), after)
}
