//! Making the table of a journal.

ghost use Rattle.std.specs.Prelude.{◌≡◌, Err, [], false, IsTrue, IsOk, OnOk, OnErr};
ghost use Rattle.sqlite.specs.Held.{state};
ghost use Rattle.sqlite.specs.State.{HasCleanDisk};
ghost use Rattle.gd_journal_store.specs.Table.{no_schema, journal};
ghost use Rattle.gd_journal_store.specs.Pieces.{IsSettled, IsRefused, LeavesOr};
ghost use Rattle.gd_journal_store.specs.Calls.{Makes};

use crate::fault::StoreFault;
use crate::table::{is_empty, is_journal};
use sqlite::{Alter, Connection, Error, ErrorCode};

/// Makes the table where there is none.
fn create<S: Alter>(conn: &mut Connection<S>) -> Result<usize, Error>
    ensures made { let old = state S.Store conn.old in let new = state S.Store conn.new in
        HasCleanDisk new → conn.old.schema ≡ no_schema → conn.old.in_transaction ≡ false
        → OnOk result (IsSettled [] new) }
    ensures any_moment { let old = state S.Store conn.old in let new = state S.Store conn.new in
        HasCleanDisk new → conn.old.schema ≡ no_schema → LeavesOr [] old new }
    ensures refused { let old = state S.Store conn.old in let new = state S.Store conn.new in
        HasCleanDisk new → OnErr result (IsRefused old new) }
    ensures clean { HasCleanDisk (state S.Store conn.new) → HasCleanDisk (state S.Store conn.old) }
{
    conn.execute(
        "CREATE TABLE piece (number INTEGER PRIMARY KEY, rows BLOB NOT NULL, told BLOB NOT NULL)",
        &[],
    )
}

/// Makes a journal without pieces where there is no table at all, and commits it. A journal is left as it is.
///
/// # Errors
///
/// `NotAJournal` where there are other tables, and else `Store`. Whatever is refused leaves the file as it was, unless the
/// disk has shut the connection. A crash during the call leaves what it could leave before, or no piece.
pub fn make<S: Alter>(conn: &mut Connection<S>) -> Result<(), StoreFault>
    ensures inside { IsTrue conn.old.in_transaction
        → result ≡ Err (StoreFault.Store (Error.SqliteFailure ErrorCode.TransactionState)) }
    ensures made { let new = state S.Store conn.new in HasCleanDisk new
        → Makes (state S.Store conn.old) new result }
    ensures kept { conn.old.schema ≡ journal → conn.old.in_transaction ≡ false
        → IsOk result × (conn.new ≡ conn.old) }
    ensures any_moment { let new = state S.Store conn.new in HasCleanDisk new
        → LeavesOr [] (state S.Store conn.old) new }
    ensures clean { HasCleanDisk (state S.Store conn.new) → HasCleanDisk (state S.Store conn.old) }
{
    if !conn.is_autocommit() {
        return Err(StoreFault::Store(Error::SqliteFailure(ErrorCode::TransactionState)));
    }
    if is_empty(conn.schema()) {
        create(conn)?;
        return Ok(());
    }
    if !is_journal(conn) {
        return Err(StoreFault::NotAJournal);
    }
    Ok(())
}
