//! Which version an archive is of.

ghost use Rattle.std.specs.Prelude.{◌≡◌, Err, IsTrue, IfOk, OnOk, OnSome, OnErr, IfErr, IsPermutation, ◌<◌, ◌^◌, ℕ, pos, [], ◌∷◌};
ghost use Rattle.sqlite.specs.declared.types.Value.TheVariants.{Int};
ghost use Rattle.sqlite.specs.Order.{column};
ghost use Rattle.sqlite.specs.Held.{state};
ghost use Rattle.sqlite.specs.State.{HasCleanDisk, IsUnchanged};
ghost use Rattle.gd_archive_store.specs.Tables.{HasArchive};
ghost use Rattle.gd_archive_store.specs.Contents.{versions_of, HasVersion, SaysVersion, IsArchive, IsSettled, IsSame, IsCutOff, IsHindered};
ghost use Rattle.gd_archive_store.specs.Stages.{IsRefused, IsFound};
ghost use Rattle.gd_archive_store.specs.Calls.{IsStopped};

use crate::fault::StoreFault;
use crate::tables::{has_archive, is_version_2};
use sqlite::{Alter, Connection, Error, ErrorCode, Row};

/// What is told of a file that is no archive of version 1 or 2.
pub(crate) const NO_ARCHIVE: Error = Error::SqliteFailure(ErrorCode::NotADatabase);

/// The version rows, of which an archive has one.
fn versions<S: Alter>(conn: &mut Connection<S>) -> Result<Vec<Row>, Error>
    ensures shown { let old = state S.Store conn.old in let new = state S.Store conn.new in
        HasCleanDisk new → HasArchive conn.old.schema
        → IfOk result (λ rows. IsPermutation (versions_of old.now) rows.items
        × IsUnchanged old new) }
    ensures refused { let old = state S.Store conn.old in let new = state S.Store conn.new in
        HasCleanDisk new → OnErr result (IsRefused old new) }
    ensures cut_off { HasCleanDisk (state S.Store conn.new) → HasArchive conn.old.schema
        → IfErr result IsCutOff }
    ensures clean { HasCleanDisk (state S.Store conn.new) → HasCleanDisk (state S.Store conn.old) }
{
    conn.query_all("SELECT version FROM archive", &[])
}

/// The number in a version row.
fn number_in(row: &Row) -> Result<u32, Error>
    ensures ok { IfOk result (λ n. column row.now 0 ≡ Int (pos n)) }
    ensures cut_off { IfErr result (λ e. (n : ℕ) → n < 2 ^ 32 → row.now ≡ Int (pos n) ∷ [] → IsCutOff e) }
{
    row.get(0)
}

/// The number in the one version row, if there is a row.
fn number_of<S: Alter>(conn: &mut Connection<S>) -> Result<Option<u32>, Error>
    ensures read { let old = state S.Store conn.old in let new = state S.Store conn.new in
        HasCleanDisk new → HasArchive conn.old.schema
        → IfOk result (λ found. IsFound found old.now × IsUnchanged old new) }
    ensures refused { let old = state S.Store conn.old in let new = state S.Store conn.new in
        HasCleanDisk new → HasArchive conn.old.schema → OnErr result (IsRefused old new) }
    ensures cut_off { HasCleanDisk (state S.Store conn.new)
        → IfErr result (λ e. (n : ℕ) → n < 2 ^ 32 → SaysVersion (state S.Store conn.old).now n
        → IsCutOff e) }
    ensures clean { HasCleanDisk (state S.Store conn.new) → HasCleanDisk (state S.Store conn.old) }
{
    let rows = versions(conn)?;
    if rows.is_empty() {
        return Ok(None);
    }
    let [row] = rows.as_slice() else {
        return Err(NO_ARCHIVE);
    };
    let number = number_in(row)?;
    Ok(Some(number))
}

/// The version where no transaction is open: none where the version's table does not stand first, or is empty.
pub(crate) fn version_found<S: Alter>(conn: &mut Connection<S>) -> Result<Option<u32>, Error>
    ensures read { let old = state S.Store conn.old in let new = state S.Store conn.new in
        HasCleanDisk new
        → IfOk result (λ found. IsFound found old.now × (new.now ≡ old.now)
        × OnSome found (IsUnchanged old new × IsSettled old)) }
    ensures inside { IsTrue conn.old.in_transaction
        → result ≡ Err (Error.SqliteFailure ErrorCode.TransactionState) }
    ensures same { let old = state S.Store conn.old in let new = state S.Store conn.new in
        HasCleanDisk new → OnErr result (IsSame old new) }
    ensures hindered { let old = state S.Store conn.old in HasCleanDisk (state S.Store conn.new)
        → IfErr result (λ e. (n : ℕ) → n < 2 ^ 32 → SaysVersion old.now n → IsHindered old e) }
    ensures clean { HasCleanDisk (state S.Store conn.new) → HasCleanDisk (state S.Store conn.old) }
{
    if !conn.is_autocommit() {
        return Err(Error::SqliteFailure(ErrorCode::TransactionState));
    }
    if !has_archive(conn.schema()) {
        return Ok(None);
    }
    number_of(conn)
}

/// Goes on where the archive is of version 2.
pub(crate) fn expect_second<S: Alter>(conn: &mut Connection<S>) -> Result<(), StoreFault>
    ensures second { let old = state S.Store conn.old in let new = state S.Store conn.new in
        HasCleanDisk new → OnOk result (IsArchive old.now 2 × IsUnchanged old new × IsSettled old) }
    ensures inside { IsTrue conn.old.in_transaction
        → result ≡ Err (StoreFault.Store (Error.SqliteFailure ErrorCode.TransactionState)) }
    ensures stopped { let old = state S.Store conn.old in let new = state S.Store conn.new in
        HasCleanDisk new → IfErr result (IsStopped old new) }
    ensures clean { HasCleanDisk (state S.Store conn.new) → HasCleanDisk (state S.Store conn.old) }
{
    let is_second = is_version_2(conn.schema());
    let Some(number) = version_found(conn)? else {
        return Err(StoreFault::Store(NO_ARCHIVE));
    };
    if number == 1 {
        return Err(StoreFault::OldVersion);
    }
    if number == 2 && is_second {
        return Ok(());
    }
    Err(StoreFault::Store(NO_ARCHIVE))
}
