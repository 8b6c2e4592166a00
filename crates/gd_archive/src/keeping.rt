//! Keeping a posting, and fetching it.

ghost use Rattle.std.specs.Prelude.{◌≡◌, Some, None, Ok, Err, IfOk, IfErr};
ghost use Rattle.sqlite.specs.Held.{state};
ghost use Rattle.sqlite.specs.State.{HasCleanDisk};
ghost use Rattle.sqlite.specs.Order.{column};
ghost use Rattle.sqlite.specs.declared.types.Value.TheVariants.{Int};
ghost use Rattle.gd_archive.specs.Calls as calls;
ghost use Rattle.gd_archive.specs.Soundness as spec;

use crate::fault::{FetchFault, NO_ARCHIVE, NO_MEMORY, Rule};
use crate::row::rule_of;
use crate::sound::posting_at;
use gd_archive_store::{KeepFault, enter, expect_free, find};
use gd_board::Posting;
use gd_body::{BodyFault, body_of, without_spread};
use gd_units::{CycleNo, Name};
use sqlite::{Alter, Connection, Error, Row};
use std::alloc::Global;

/// What the database is blamed for where no body is written or read.
pub(crate) fn cause_of(fault: BodyFault) -> Error {
    match fault {
        BodyFault::Damaged => NO_ARCHIVE,
        BodyFault::OutOfMemory => NO_MEMORY,
    }
}

/// Keeps a posting under the rule `Spread`, as a text that reads back as this posting.
///
/// # Errors
///
/// `Store` in a transaction of the caller's; then `OldVersion` on an archive of version 1; `Kept` where there is a posting of
/// this book and cycle; and else `Store`: the database refuses or is no archive, memory is wanting, or the posting is none
/// that a book publishes, so that its text would not read back. The text is made only where the posting may be kept. After
/// each the database is as before.
pub fn keep<S: Alter>(
    conn: &mut Connection<S>,
    alloc: Global,
    posting: &Posting,
) -> Result<(), KeepFault>
    ensures kept { HasCleanDisk (state S.Store conn.new)
        → calls.Keeps (state S.Store conn.old) (state S.Store conn.new) posting.now result }
    ensures clean { HasCleanDisk (state S.Store conn.new) → HasCleanDisk (state S.Store conn.old) }
{
    let (book, cycle) = (posting.book.as_str(), u32::from(posting.cycle.number()));
    expect_free(conn, book, cycle)?;
    let body = match body_of(alloc, posting) {
        Ok(body) => body,
        Err(fault) => return Err(KeepFault::Store(cause_of(fault))),
    };
    enter(conn, book, cycle, posting.round.number(), body.as_slice())?;
    Ok(())
}

/// The posting as its rule tells it.
fn by_rule(alloc: Global, rule: Rule, posting: Posting) -> Result<Posting, FetchFault>
    ensures ok { IfOk result (λ told. told ≡ calls.by_rule rule posting) }
    ensures err { IfErr result calls.IsStoreFault }
{
    match rule {
        Rule::Spread => Ok(posting),
        Rule::Classes => without_spread(alloc, posting).map_err(|_| FetchFault::Store(NO_MEMORY)),
    }
}

/// What a row of round, body and rule keeps of a book and cycle.
pub(crate) fn told_in(
    alloc: Global,
    book: Name,
    cycle: CycleNo,
    row: &Row,
) -> Result<(Rule, Posting), FetchFault>
    ensures { calls.Tells book cycle row.now result }
{
    let number: u32 = row.get(2)?;
    let Some(rule) = rule_of(number) else {
        return Err(FetchFault::Store(NO_ARCHIVE));
    };
    match posting_at(alloc, book, cycle, row.get_ref(0)?, row.get_ref(1)?) {
        Ok(posting) => Ok((rule, by_rule(alloc, rule, posting)?)),
        Err(BodyFault::Damaged) => Err(FetchFault::Damaged),
        Err(BodyFault::OutOfMemory) => Err(FetchFault::Store(NO_MEMORY)),
    }
}

/// The posting of a book and cycle with the rule of its prices, if one is kept. Where the rule is `Classes`, the words of the
/// spread are 0.
///
/// # Errors
///
/// `OldVersion` on an archive of version 1; `Store` where the database refuses, is no archive or is in a transaction of the
/// caller's, or memory is wanting; `Damaged` where the row's body is no posting, or one of another book, cycle or round than
/// the row's.
pub fn fetch<S: Alter>(
    conn: &mut Connection<S>,
    alloc: Global,
    book: Name,
    cycle: CycleNo,
) -> Result<Option<(Rule, Posting)>, FetchFault>
    ensures fetched { HasCleanDisk (state S.Store conn.new)
        → calls.Fetches (state S.Store conn.old) (state S.Store conn.new) book cycle result }
    ensures clean { HasCleanDisk (state S.Store conn.new) → HasCleanDisk (state S.Store conn.old) }
{
    let Some(row) = find(conn, book.as_str(), u32::from(cycle.number()))? else {
        return Ok(None);
    };
    Ok(Some(told_in(alloc, book, cycle, &row)?))
}
