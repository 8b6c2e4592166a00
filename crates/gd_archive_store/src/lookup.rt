//! Reading postings.

ghost use Rattle.std.specs.Prelude.{◌≡◌, Err, IsTrue, IfOk, IfErr, OnErr, IsPermutation};
ghost use Rattle.sqlite.specs.Held.{state};
ghost use Rattle.sqlite.specs.State.{HasCleanDisk, IsUnchanged};
ghost use Rattle.gd_archive_store.specs.Tables.{version_2};
ghost use Rattle.gd_archive_store.specs.Contents.{kept_at, rows_of, IsAscending, IsCutOff};
ghost use Rattle.gd_archive_store.specs.Stages.{IsRefused};
ghost use Rattle.gd_archive_store.specs.Calls.{Finds, IsListed, IsStopped};

use crate::fault::StoreFault;
use crate::version::expect_second;
use sqlite::{Alter, Connection, Error, ErrorCode, Row, params};

/// What is kept of a book and cycle.
pub(crate) fn rows_at<S: Alter>(
    conn: &mut Connection<S>,
    book: &str,
    cycle: u32,
) -> Result<Vec<Row>, Error>
    ensures found { let old = state S.Store conn.old in let new = state S.Store conn.new in
        HasCleanDisk new → conn.old.schema ≡ version_2
        → IfOk result (λ rows. IsPermutation (kept_at old.now book.now cycle) rows.items
        × IsUnchanged old new) }
    ensures refused { let old = state S.Store conn.old in let new = state S.Store conn.new in
        HasCleanDisk new → OnErr result (IsRefused old new) }
    ensures cut_off { HasCleanDisk (state S.Store conn.new) → conn.old.schema ≡ version_2
        → IfErr result IsCutOff }
    ensures clean { HasCleanDisk (state S.Store conn.new) → HasCleanDisk (state S.Store conn.old) }
{
    conn.query_all(
        "SELECT round, body, rule FROM posting2 WHERE book = ?1 AND cycle = ?2",
        params![book, cycle],
    )
}

/// Each row.
fn all_rows<S: Alter>(conn: &mut Connection<S>) -> Result<Vec<Row>, Error>
    ensures shown { let old = state S.Store conn.old in let new = state S.Store conn.new in
        HasCleanDisk new → conn.old.schema ≡ version_2
        → IfOk result (λ rows. IsPermutation (rows_of old.now) rows.items
        × IsAscending rows.items × IsUnchanged old new) }
    ensures refused { let old = state S.Store conn.old in let new = state S.Store conn.new in
        HasCleanDisk new → OnErr result (IsRefused old new) }
    ensures cut_off { HasCleanDisk (state S.Store conn.new) → conn.old.schema ≡ version_2
        → IfErr result IsCutOff }
    ensures clean { HasCleanDisk (state S.Store conn.new) → HasCleanDisk (state S.Store conn.old) }
{
    conn.query_all(
        "SELECT book, cycle, round, body, rule FROM posting2 ORDER BY book, cycle",
        &[],
    )
}

/// The round, the body and the rule that are kept of a book and cycle, if there is a posting.
///
/// They are the values as they are stored, whatever their types. It changes nothing.
///
/// # Errors
///
/// `OldVersion` where the archive is of version 1, and else `Store`.
pub fn find<S: Alter>(
    conn: &mut Connection<S>,
    book: &str,
    cycle: u32,
) -> Result<Option<Row>, StoreFault>
    ensures inside { IsTrue conn.old.in_transaction
        → result ≡ Err (StoreFault.Store (Error.SqliteFailure ErrorCode.TransactionState)) }
    ensures found { let new = state S.Store conn.new in HasCleanDisk new
        → Finds (state S.Store conn.old) new book.now cycle result }
    ensures clean { HasCleanDisk (state S.Store conn.new) → HasCleanDisk (state S.Store conn.old) }
{
    expect_second(conn)?;
    let mut rows = rows_at(conn, book, cycle)?;
    Ok(rows.pop())
}

/// The book, the cycle, the round, the body and the rule of each posting, ascending by book and then by cycle.
///
/// They are the values as they are stored, whatever their types. It changes nothing.
///
/// # Errors
///
/// `OldVersion` where the archive is of version 1, and else `Store`.
pub fn all<S: Alter>(conn: &mut Connection<S>) -> Result<Vec<Row>, StoreFault>
    ensures inside { IsTrue conn.old.in_transaction
        → result ≡ Err (StoreFault.Store (Error.SqliteFailure ErrorCode.TransactionState)) }
    ensures listed { let new = state S.Store conn.new in HasCleanDisk new
        → IfOk result (λ rows. IsListed (state S.Store conn.old) new rows.items) }
    ensures stopped { let new = state S.Store conn.new in HasCleanDisk new
        → IfErr result (IsStopped (state S.Store conn.old) new) }
    ensures clean { HasCleanDisk (state S.Store conn.new) → HasCleanDisk (state S.Store conn.old) }
{
    expect_second(conn)?;
    let rows = all_rows(conn)?;
    Ok(rows)
}
