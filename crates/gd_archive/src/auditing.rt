//! The audit of an archive.

ghost use Rattle.std.specs.Prelude.{All, IfErr, IfOk, OnOk};
ghost use Rattle.sqlite.specs.Held.{state};
ghost use Rattle.sqlite.specs.State.{HasCleanDisk};
ghost use Rattle.gd_archive.specs.Calls as calls;
ghost use Rattle.gd_archive.specs.Soundness as spec;

use crate::fault::AuditFault;
use crate::finding::{Finding, find_all};
use crate::row::Label;
use crate::sound::test_row;
use gd_archive_store::{StoreFault, all};
use sqlite::{Alter, Connection, Error, Row};
use std::alloc::Global;

/// Shows that each row is one of an archive.
fn label_all(rows: &[Row]) -> Result<(), Error>
    ensures { OnOk result (All spec.IsLabelled rows.now) }
{
    'rows: for row in rows {
        Label::of(row)?;
    }
    Ok(())
}

/// Shows that what each row keeps passes its check.
fn test_all(alloc: Global, rows: &[Row]) -> Result<(), AuditFault>
    ensures ok { OnOk result (All spec.IsSound rows.now) }
    ensures err { IfErr result (calls.BlamesFirst rows.now) }
{
    'rows: for row in rows {
        test_row(alloc, row)?;
    }
    Ok(())
}

/// The number of an archive's postings, where each keeps its floors, ceilings, capacities and balances, and its prices show
/// that it is best by its rule. Bumped quantities are not looked at.
///
/// # Errors
///
/// `OldVersion` on an archive of version 1, before all others; `Store` where the database refuses, is no archive or has a row
/// that no archive has; `Unsound` with the first row by book, then cycle, that is damaged or doesn't pass, and why.
pub fn audit<S: Alter>(conn: &mut Connection<S>, alloc: Global) -> Result<u64, AuditFault>
    ensures audited { HasCleanDisk (state S.Store conn.new) → calls.Audits (state S.Store conn.old) (state S.Store conn.new) result }
    ensures clean { HasCleanDisk (state S.Store conn.new) → HasCleanDisk (state S.Store conn.old) }
{
    let rows = all(conn)?;
    label_all(rows.as_slice())?;
    test_all(alloc, rows.as_slice())?;
    Ok(rows.len() as u64)
}

/// What is found of each of an archive's postings, by book, then cycle.
///
/// # Errors
///
/// `OldVersion` on an archive of version 1, before all others; `Store` where the database refuses, is no archive or has a row
/// that no archive has, or memory is wanting.
pub fn audit_each<S: Alter>(
    conn: &mut Connection<S>,
    alloc: Global,
) -> Result<Vec<Finding>, StoreFault>
    ensures found { HasCleanDisk (state S.Store conn.new) → IfOk result (λ findings.
        calls.AuditsEach (state S.Store conn.old) (state S.Store conn.new) findings.items) }
    ensures fault { HasCleanDisk (state S.Store conn.new) → IfErr result
        (calls.AuditsNone (state S.Store conn.old) (state S.Store conn.new)) }
    ensures clean { HasCleanDisk (state S.Store conn.new) → HasCleanDisk (state S.Store conn.old) }
{
    let rows = all(conn)?;
    Ok(find_all(alloc, rows.as_slice())?)
}
