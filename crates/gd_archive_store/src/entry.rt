//! Keeping a posting.

ghost use Rattle.std.specs.Prelude.{◌≡◌, Err, IsTrue, OnOk, OnErr};
ghost use Rattle.sqlite.specs.Held.{state};
ghost use Rattle.sqlite.specs.State.{HasCleanDisk};
ghost use Rattle.gd_archive_store.specs.Contents.{entry, IsArchive, IsEntered, IsSettled, IsSame};
ghost use Rattle.gd_archive_store.specs.Calls.{Frees};

use crate::fault::KeepFault;
use crate::lookup::rows_at;
use crate::version::expect_second;
use sqlite::{Alter, Connection, Error, ErrorCode, params};

/// Shows that there is no posting of this book and cycle in an archive of version 2, so that `enter` may keep one. It
/// changes nothing.
///
/// # Errors
///
/// `OldVersion` where the archive is of version 1, `Kept` where there is a posting of this book and cycle, and else
/// `Store`.
pub fn expect_free<S: Alter>(
    conn: &mut Connection<S>,
    book: &str,
    cycle: u32,
) -> Result<(), KeepFault>
    ensures inside { IsTrue conn.old.in_transaction
        → result ≡ Err (KeepFault.Store (Error.SqliteFailure ErrorCode.TransactionState)) }
    ensures free { let new = state S.Store conn.new in HasCleanDisk new
        → Frees (state S.Store conn.old) new book.now cycle result }
    ensures clean { HasCleanDisk (state S.Store conn.new) → HasCleanDisk (state S.Store conn.old) }
{
    expect_second(conn)?;
    let there = rows_at(conn, book, cycle)?;
    if !there.is_empty() {
        return Err(KeepFault::Kept);
    }
    Ok(())
}

/// Keeps one posting of rule 2, by spread, behind `expect_free`, and commits it.
///
/// # Errors
///
/// Where SQL fails, which leaves the archive as it was, unless the disk has shut the connection.
pub fn enter<S: Alter>(
    conn: &mut Connection<S>,
    book: &str,
    cycle: u32,
    round: u32,
    body: &[u8],
) -> Result<usize, Error>
    ensures entered { let old = state S.Store conn.old in let new = state S.Store conn.new in
        HasCleanDisk new → IsArchive old.now 2 → IsSettled old
        → OnOk result (IsEntered old.now new.now book.now cycle (entry round body.now 2)
        × (new.committed ≡ new.now)) }
    ensures same { let old = state S.Store conn.old in let new = state S.Store conn.new in
        HasCleanDisk new → IsSettled old → OnErr result (IsSame old new) }
    ensures clean { HasCleanDisk (state S.Store conn.new) → HasCleanDisk (state S.Store conn.old) }
{
    conn.execute(
        "INSERT INTO posting2 (book, cycle, round, body, rule) VALUES (?1, ?2, ?3, ?4, ?5)",
        params![book, cycle, round, body, 2u32],
    )
}
