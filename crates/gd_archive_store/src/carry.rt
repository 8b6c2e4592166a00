//! From version 1 to version 2.

ghost use Rattle.std.specs.Prelude.{◌≡◌, Err, pos, [], ◌∷◌, List, map, IsPermutation, IsTrue, IfOk, OnOk, OnErr, All};
ghost use Rattle.sqlite.specs.declared.types.Value.{Value as SqlValue};
ghost use Rattle.sqlite.specs.declared.types.Value.TheVariants.{Int, Text as Words};
ghost use Rattle.sqlite.specs.Values.{bound_value};
ghost use Rattle.sqlite.specs.Cast.{cast};
ghost use Rattle.sqlite.specs.Kind.TheVariants.{Integer};
ghost use Rattle.sqlite.specs.Held.{state};
ghost use Rattle.sqlite.specs.State.{HasCleanDisk, IsUnchanged, KeepsCommit};
ghost use Rattle.gd_archive_store.specs.Tables.{no_schema, version_1, version_2};
ghost use Rattle.gd_archive_store.specs.Contents.{old_rows_of, IsSame};
ghost use Rattle.gd_archive_store.specs.Migration.{IsMigrated, carried};
ghost use Rattle.gd_archive_store.specs.Stages.{IsBuilt, IsOneMore, IsMore};
ghost use Rattle.gd_archive_store.specs.Calls.{Migrates};

use crate::build::{build_tables, run};
use crate::fault::MigrateFault;
use crate::tables::is_version_1;
use crate::version::{NO_ARCHIVE, version_found};
use sqlite::types::Value;
use sqlite::{Alter, Connection, Error, ErrorCode, Row, Transaction, params};

/// How the body of a posting of version 1 is rewritten.
pub trait Rewrite {
    // What becomes of the body of a row of book, cycle, round and body.
    ghost rewritten: { List SqlValue → SqlValue };

    // What is known of a row once its body was rewritten.
    ghost IsHeld: { List SqlValue → Type 0 };

    /// The new body of the row, whose values are its book, its cycle, its round and its body as they are stored.
    ///
    /// # Errors
    ///
    /// Any error stops the migration, which then changes nothing.
    fn rewrite(&self, row: &Row) -> Result<Value, Error>
        ensures is { IfOk result (λ body. body ≡ rewritten row.now) }
        ensures held { OnOk result (IsHeld row.now) };
}

/// Drops the tables of version 1.
fn clear<S: Alter>(tx: &mut Transaction<'_, S>) -> Result<(), Error>
    ensures same_reference { tx.new.conn.ghost_name ≡ tx.old.conn.ghost_name }
    ensures gone { let old = state S.Store tx.old.conn.now in
        let new = state S.Store tx.new.conn.now in
        HasCleanDisk new → IsTrue old.in_transaction → old.now.schema ≡ version_1
        → OnOk result ((new.now.schema ≡ no_schema) × IsTrue new.in_transaction) }
    ensures kept { let old = state S.Store tx.old.conn.now in
        let new = state S.Store tx.new.conn.now in
        HasCleanDisk new → KeepsCommit old new }
    ensures clean { let old = state S.Store tx.old.conn.now in
        let new = state S.Store tx.new.conn.now in
        HasCleanDisk new → HasCleanDisk old }
{
    run(tx, "DROP TABLE posting")?;
    run(tx, "DROP TABLE archive")?;
    Ok(())
}

/// The rows of version 1.
fn old_rows<S: Alter>(tx: &mut Transaction<'_, S>) -> Result<Vec<Row>, Error>
    ensures same_reference { tx.new.conn.ghost_name ≡ tx.old.conn.ghost_name }
    ensures shown { let old = state S.Store tx.old.conn.now in
        let new = state S.Store tx.new.conn.now in
        HasCleanDisk new → old.now.schema ≡ version_1
        → IfOk result (λ rows. IsPermutation (old_rows_of old.now) rows.items
        × IsUnchanged old new) }
    ensures clean { let old = state S.Store tx.old.conn.now in
        let new = state S.Store tx.new.conn.now in
        HasCleanDisk new → HasCleanDisk old }
    ensures kept { let old = state S.Store tx.old.conn.now in
        let new = state S.Store tx.new.conn.now in
        HasCleanDisk new → old.now.schema ≡ version_1 → KeepsCommit old new }
{
    tx.query_all(
        "SELECT book, cycle, round, body FROM posting ORDER BY book, cycle",
        &[],
    )
}

/// Whether a statement takes the value as it is: a real number that is none becomes NULL.
fn is_bindable(value: &Value) -> bool
    ensures { IsTrue result → bound_value value.now ≡ value.now }
{
    match value {
        Value::Real(number) => !number.is_nan(),
        _ => true,
    }
}

/// Enters one row of rule 1.
fn insert<S: Alter>(
    tx: &mut Transaction<'_, S>,
    book: &str,
    cycle: u32,
    round: &Value,
    body: &Value,
) -> Result<usize, Error>
    ensures same_reference { tx.new.conn.ghost_name ≡ tx.old.conn.ghost_name }
    ensures entered { let old = state S.Store tx.old.conn.now in
        let new = state S.Store tx.new.conn.now in
        HasCleanDisk new → IsTrue old.in_transaction → old.now.schema ≡ version_2
        → OnOk result (IsOneMore old.now new.now (Words book.now ∷ Int (pos cycle)
        ∷ cast Integer (bound_value round.now) ∷ bound_value body.now ∷ Int (pos 1) ∷ [])
        × IsTrue new.in_transaction) }
    ensures kept { let old = state S.Store tx.old.conn.now in
        let new = state S.Store tx.new.conn.now in
        HasCleanDisk new → KeepsCommit old new }
    ensures clean { let old = state S.Store tx.old.conn.now in
        let new = state S.Store tx.new.conn.now in
        HasCleanDisk new → HasCleanDisk old }
{
    tx.execute(
        "INSERT INTO posting2 (book, cycle, round, body, rule) VALUES (?1, ?2, ?3, ?4, ?5)",
        params![book, cycle, round, body, 1u32],
    )
}

/// Carries one row over.
fn carry_row<S: Alter, R: Rewrite>(
    tx: &mut Transaction<'_, S>,
    row: &Row,
    how: &R,
) -> Result<(), Error>
    ensures same_reference { tx.new.conn.ghost_name ≡ tx.old.conn.ghost_name }
    ensures entered { let old = state S.Store tx.old.conn.now in
        let new = state S.Store tx.new.conn.now in
        HasCleanDisk new → IsTrue old.in_transaction → old.now.schema ≡ version_2
        → OnOk result (IsOneMore old.now new.now (carried R.Rewrite.rewritten row.now)
        × IsTrue new.in_transaction) }
    ensures held { OnOk result (R.Rewrite.IsHeld row.now) }
    ensures kept { let old = state S.Store tx.old.conn.now in
        let new = state S.Store tx.new.conn.now in
        HasCleanDisk new → KeepsCommit old new }
    ensures clean { let old = state S.Store tx.old.conn.now in
        let new = state S.Store tx.new.conn.now in
        HasCleanDisk new → HasCleanDisk old }
{
    let book: String = row.get(0)?;
    let cycle: u32 = row.get(1)?;
    let round: Value = row.get(2)?;
    let body = how.rewrite(row)?;
    if !is_bindable(&round) || !is_bindable(&body) {
        return Err(Error::SqliteFailure(ErrorCode::TypeMismatch));
    }
    insert(tx, book.as_str(), cycle, &round, &body)?;
    Ok(())
}

/// Carries each row over.
fn carry_rows<S: Alter, R: Rewrite>(
    tx: &mut Transaction<'_, S>,
    rows: &[Row],
    how: &R,
) -> Result<(), Error>
    ensures same_reference { tx.new.conn.ghost_name ≡ tx.old.conn.ghost_name }
    ensures entered { let old = state S.Store tx.old.conn.now in
        let new = state S.Store tx.new.conn.now in
        HasCleanDisk new → IsTrue old.in_transaction → IsBuilt old.now
        → OnOk result (IsMore old.now new.now (map (carried R.Rewrite.rewritten) rows.now)
        × IsTrue new.in_transaction) }
    ensures held { OnOk result (All R.Rewrite.IsHeld rows.now) }
    ensures kept { let old = state S.Store tx.old.conn.now in
        let new = state S.Store tx.new.conn.now in
        HasCleanDisk new → KeepsCommit old new }
    ensures clean { let old = state S.Store tx.old.conn.now in
        let new = state S.Store tx.new.conn.now in
        HasCleanDisk new → HasCleanDisk old }
{
    for row in rows {
        carry_row(tx, row, how)?;
    }
    Ok(())
}

/// Carries all in one transaction.
fn carry_all<S: Alter, R: Rewrite>(conn: &mut Connection<S>, how: &R) -> Result<usize, Error>
    ensures migrated { let old = state S.Store conn.old in let new = state S.Store conn.new in
        HasCleanDisk new → conn.old.schema ≡ version_1
        → IfOk result (λ n. IsMigrated R.Rewrite.rewritten old.now new.now n
        × (new.committed ≡ new.now)) }
    ensures held { let old = state S.Store conn.old in let new = state S.Store conn.new in
        HasCleanDisk new → conn.old.schema ≡ version_1
        → OnOk result (All R.Rewrite.IsHeld (old_rows_of old.now)) }
    ensures whole { let old = state S.Store conn.old in let new = state S.Store conn.new in
        HasCleanDisk new → conn.old.schema ≡ version_1 → OnErr result (IsSame old new) }
    ensures clean { HasCleanDisk (state S.Store conn.new) → HasCleanDisk (state S.Store conn.old) }
{
    if !conn.is_autocommit() {
        return Err(Error::SqliteFailure(ErrorCode::TransactionState));
    }
    let mut tx = conn.transaction();
    let rows = old_rows(&mut tx)?;
    clear(&mut tx)?;
    build_tables(&mut tx)?;
    carry_rows(&mut tx, rows.as_slice(), how)?;
    tx.commit()?;
    Ok(rows.len())
}

/// Makes an archive of version 1 one of version 2, in one transaction, and answers the number of its postings.
///
/// Each posting has rule 1, by classes, and its body as `how` rewrites it. Indexes and other objects that a user made on
/// the tables are an error, as in any other call.
///
/// # Errors
///
/// `OtherVersion` where the version is not 1, and else `Store`: the file is no archive, a row has no text for a book or no
/// `u32` for a cycle, `how` failed, or SQL did. Whatever is refused leaves the archive as it was, unless the disk has shut
/// the connection.
pub fn migrate<S: Alter, R: Rewrite>(conn: &mut Connection<S>, how: &R) -> Result<u64, MigrateFault>
    ensures inside { IsTrue conn.old.in_transaction
        → result ≡ Err (MigrateFault.Store (Error.SqliteFailure ErrorCode.TransactionState)) }
    ensures migrated { let new = state S.Store conn.new in HasCleanDisk new
        → Migrates (state S.Store conn.old) new R.Rewrite.rewritten R.Rewrite.IsHeld result }
    ensures clean { HasCleanDisk (state S.Store conn.new) → HasCleanDisk (state S.Store conn.old) }
{
    let is_first = is_version_1(conn.schema());
    let Some(number) = version_found(conn)? else {
        return Err(MigrateFault::Store(NO_ARCHIVE));
    };
    if number != 1 {
        return Err(MigrateFault::OtherVersion);
    }
    if !is_first {
        return Err(MigrateFault::Store(NO_ARCHIVE));
    }
    let count = carry_all(conn, how)?;
    Ok(count as u64)
}
