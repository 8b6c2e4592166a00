//! Making the tables of an archive.

ghost use Rattle.std.specs.Prelude.{◌≡◌, ◌<◌, ◌≤◌, suc, Err, [], IsTrue, IfOk, IfErr, OnOk, OnErr};
ghost use Rattle.sqlite.specs.Held.{state};
ghost use Rattle.sqlite.specs.State.{HasCleanDisk, KeepsCommit, Executes};
ghost use Rattle.gd_archive_store.specs.Tables.{no_schema, first_tables};
ghost use Rattle.gd_archive_store.specs.Contents.{IsSame};
ghost use Rattle.gd_archive_store.specs.Migration.{IsCompleted};
ghost use Rattle.gd_archive_store.specs.Stages.{IsBuilt, IsGrown, HasOrLacks, IsLacking};
ghost use Rattle.gd_archive_store.specs.Calls.{Makes};

use crate::fault::StoreFault;
use crate::tables::count_of;
use crate::version::{NO_ARCHIVE, version_found};
use sqlite::{Alter, Connection, Error, ErrorCode, Transaction};

/// One statement with no parameters.
pub(crate) fn run<S: Alter>(tx: &mut Transaction<'_, S>, sql: &str) -> Result<usize, Error>
    ensures same_reference { tx.new.conn.ghost_name ≡ tx.old.conn.ghost_name }
    ensures ran { let old = state S.Store tx.old.conn.now in
        let new = state S.Store tx.new.conn.now in
        HasCleanDisk new → IsTrue old.in_transaction
        → IfOk result (λ n. Executes sql.now [] old new (Ok n) × IsTrue new.in_transaction) }
    ensures kept { let old = state S.Store tx.old.conn.now in
        let new = state S.Store tx.new.conn.now in
        HasCleanDisk new → KeepsCommit old new }
    ensures clean { let old = state S.Store tx.old.conn.now in
        let new = state S.Store tx.new.conn.now in
        HasCleanDisk new → HasCleanDisk old }
{
    tx.execute(sql, &[])
}

/// Creates the table of this place among the first three.
fn create<S: Alter>(tx: &mut Transaction<'_, S>, place: usize) -> Result<usize, Error>
    ensures same_reference { tx.new.conn.ghost_name ≡ tx.old.conn.ghost_name }
    ensures created { let old = state S.Store tx.old.conn.now in
        let new = state S.Store tx.new.conn.now in
        HasCleanDisk new → IsTrue old.in_transaction → place < 3 → old.now.schema ≡ first_tables place
        → OnOk result (IsGrown place (suc place) old.now new.now × IsTrue new.in_transaction) }
    ensures kept { let old = state S.Store tx.old.conn.now in
        let new = state S.Store tx.new.conn.now in
        HasCleanDisk new → KeepsCommit old new }
    ensures clean { let old = state S.Store tx.old.conn.now in
        let new = state S.Store tx.new.conn.now in
        HasCleanDisk new → HasCleanDisk old }
{
    if place == 0 {
        return run(
            tx,
            "CREATE TABLE archive (one INTEGER PRIMARY KEY CHECK (one = 1), version INTEGER NOT NULL)",
        );
    }
    if place == 1 {
        return run(
            tx,
            "CREATE TABLE posting (book TEXT NOT NULL, cycle INTEGER NOT NULL, round INTEGER NOT NULL, body BLOB NOT NULL, PRIMARY KEY (book, cycle))",
        );
    }
    run(
        tx,
        "CREATE TABLE posting2 (book TEXT NOT NULL, cycle INTEGER NOT NULL, round INTEGER NOT NULL, body BLOB NOT NULL, rule INTEGER NOT NULL CHECK (rule IN (1, 2)), PRIMARY KEY (book, cycle))",
    )
}

/// Creates the tables from this place on.
fn create_from<S: Alter>(tx: &mut Transaction<'_, S>, count: usize) -> Result<(), Error>
    ensures same_reference { tx.new.conn.ghost_name ≡ tx.old.conn.ghost_name }
    ensures grown { let old = state S.Store tx.old.conn.now in
        let new = state S.Store tx.new.conn.now in
        HasCleanDisk new → IsTrue old.in_transaction → count ≤ 3 → old.now.schema ≡ first_tables count
        → OnOk result (IsGrown count 3 old.now new.now × IsTrue new.in_transaction) }
    ensures kept { let old = state S.Store tx.old.conn.now in
        let new = state S.Store tx.new.conn.now in
        HasCleanDisk new → KeepsCommit old new }
    ensures clean { let old = state S.Store tx.old.conn.now in
        let new = state S.Store tx.new.conn.now in
        HasCleanDisk new → HasCleanDisk old }
{
    'tables: for place in count..3 {
        create(tx, place)?;
    }
    Ok(())
}

/// Creates the tables from this place on, and enters the version where it is lacking.
fn complete_tables<S: Alter>(
    tx: &mut Transaction<'_, S>,
    count: usize,
    lacks_version: bool,
) -> Result<(), Error>
    ensures same_reference { tx.new.conn.ghost_name ≡ tx.old.conn.ghost_name }
    ensures completed { let old = state S.Store tx.old.conn.now in
        let new = state S.Store tx.new.conn.now in
        HasCleanDisk new → IsTrue old.in_transaction → count ≤ 3 → old.now.schema ≡ first_tables count
        → HasOrLacks lacks_version count old.now
        → OnOk result (IsCompleted count old.now new.now × IsTrue new.in_transaction) }
    ensures kept { let old = state S.Store tx.old.conn.now in
        let new = state S.Store tx.new.conn.now in
        HasCleanDisk new → KeepsCommit old new }
    ensures clean { let old = state S.Store tx.old.conn.now in
        let new = state S.Store tx.new.conn.now in
        HasCleanDisk new → HasCleanDisk old }
{
    create_from(tx, count)?;
    if !lacks_version {
        return Ok(());
    }
    run(tx, "INSERT INTO archive (one, version) VALUES (1, 2)")?;
    Ok(())
}

/// Makes the tables of version 2, and enters the version.
pub(crate) fn build_tables<S: Alter>(tx: &mut Transaction<'_, S>) -> Result<(), Error>
    ensures same_reference { tx.new.conn.ghost_name ≡ tx.old.conn.ghost_name }
    ensures built { let old = state S.Store tx.old.conn.now in
        let new = state S.Store tx.new.conn.now in
        HasCleanDisk new → IsTrue old.in_transaction → old.now.schema ≡ no_schema
        → OnOk result (IsBuilt new.now × IsTrue new.in_transaction) }
    ensures kept { let old = state S.Store tx.old.conn.now in
        let new = state S.Store tx.new.conn.now in
        HasCleanDisk new → KeepsCommit old new }
    ensures clean { let old = state S.Store tx.old.conn.now in
        let new = state S.Store tx.new.conn.now in
        HasCleanDisk new → HasCleanDisk old }
{
    complete_tables(tx, 0, true)
}

/// Completes an archive in one transaction.
fn complete<S: Alter>(
    conn: &mut Connection<S>,
    count: usize,
    lacks_version: bool,
) -> Result<(), Error>
    ensures completed { let old = state S.Store conn.old in let new = state S.Store conn.new in
        HasCleanDisk new → count ≤ 3 → conn.old.schema ≡ first_tables count
        → HasOrLacks lacks_version count old.now
        → OnOk result (IsCompleted count old.now new.now × (new.committed ≡ new.now)) }
    ensures whole { let old = state S.Store conn.old in let new = state S.Store conn.new in
        HasCleanDisk new → count ≤ 3 → conn.old.schema ≡ first_tables count
        → HasOrLacks lacks_version count old.now → OnErr result (IsSame old new) }
    ensures clean { HasCleanDisk (state S.Store conn.new) → HasCleanDisk (state S.Store conn.old) }
{
    if !conn.is_autocommit() {
        return Err(Error::SqliteFailure(ErrorCode::TransactionState));
    }
    let mut tx = conn.transaction();
    complete_tables(&mut tx, count, lacks_version)?;
    tx.commit()?;
    Ok(())
}

/// Whether no version is there. Goes on where it is 2.
fn lacks_version<S: Alter>(conn: &mut Connection<S>) -> Result<bool, StoreFault>
    ensures read { let old = state S.Store conn.old in let new = state S.Store conn.new in
        HasCleanDisk new → IfOk result (λ lacks. IsLacking lacks old.now
        × (new.now ≡ old.now)) }
    ensures inside { IsTrue conn.old.in_transaction
        → result ≡ Err (StoreFault.Store (Error.SqliteFailure ErrorCode.TransactionState)) }
    ensures stopped { let new = state S.Store conn.new in HasCleanDisk new
        → IfErr result (λ fault. Makes (state S.Store conn.old) new (Err fault)) }
    ensures clean { HasCleanDisk (state S.Store conn.new) → HasCleanDisk (state S.Store conn.old) }
{
    let Some(number) = version_found(conn)? else {
        return Ok(true);
    };
    if number == 1 {
        return Err(StoreFault::OldVersion);
    }
    if number != 2 {
        return Err(StoreFault::Store(NO_ARCHIVE));
    }
    Ok(false)
}

/// Makes an archive of version 2 where there is no table at all. One that was made in part, with no more than the first of its
/// tables or with no version, is completed: the tables that are not there are created, and version 2 is entered where there is
/// none, in one transaction. No row that is there changes.
///
/// An archive of version 2 is left as it is.
///
/// # Errors
///
/// `OldVersion` where the version is 1, and else `Store`: other tables are there, or another version, or SQL failed.
/// Whatever is refused leaves the file as it was, unless the disk has shut the connection.
pub fn make<S: Alter>(conn: &mut Connection<S>) -> Result<(), StoreFault>
    ensures inside { IsTrue conn.old.in_transaction
        → result ≡ Err (StoreFault.Store (Error.SqliteFailure ErrorCode.TransactionState)) }
    ensures made { let new = state S.Store conn.new in HasCleanDisk new
        → Makes (state S.Store conn.old) new result }
    ensures clean { HasCleanDisk (state S.Store conn.new) → HasCleanDisk (state S.Store conn.old) }
{
    let there = count_of(conn.schema());
    let is_lacking = lacks_version(conn)?;
    let Some(count) = there else {
        return Err(StoreFault::Store(NO_ARCHIVE));
    };
    if count == 3 && !is_lacking {
        return Ok(());
    }
    complete(conn, count, is_lacking)?;
    Ok(())
}
