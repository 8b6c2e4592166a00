//! Whether a posting that is kept is one that was published again.

ghost use Rattle.std.specs.Prelude.{Decides, IfOk};
ghost use Rattle.sqlite.specs.Held.{state};
ghost use Rattle.sqlite.specs.State.{HasCleanDisk};
ghost use Rattle.gd_archive.specs.Calls as calls;
ghost use Rattle.gd_archive.specs.Repeats as spec;

use crate::fault::{FetchFault, NO_ARCHIVE, Rule};
use crate::finding::sum_of;
use crate::keeping::{cause_of, told_in};
use gd_archive_store::{StoreFault, find};
use gd_board::Posting;
use gd_body::{body_of, same_posting};
use gd_units::CycleNo;
use sha2::{Digest, Sha256};
use sqlite::{Alter, Connection, Error, Row};
use std::alloc::Global;

/// How what an archive keeps of a book and cycle goes with a posting of them.
#[derive(Clone, Copy, Debug)]
pub enum Repeat {
    /// It is this very posting, under the rule `Spread`.
    Same,
    /// It is another one. The SHA-256 (FIPS 180-4) of the body that is kept, and of the one that this posting would have.
    Other { kept: [u8; 32], published: [u8; 32] },
}

/// A posting of which the archive had one of the same book and cycle: how that goes with it, where it could be read.
#[derive(Clone, Copy, Debug)]
pub struct Repeated {
    pub cycle: CycleNo,
    pub found: Option<Repeat>,
}

/// Whether a row of round, body and rule keeps this very posting. It errs where the row is none of an archive, or memory is wanting.
fn keeps(alloc: Global, row: &Row, posting: &Posting) -> Result<bool, Error>
    ensures { IfOk result (λ same. Decides same (spec.IsKeptIn row.now posting.now)) }
{
    match told_in(alloc, posting.book, posting.cycle, row) {
        Ok((Rule::Spread, kept)) => {
            let same = same_posting(&kept, posting);
            drop(kept);
            Ok(same)
        }
        Ok((Rule::Classes, kept)) => {
            drop(kept);
            Ok(false)
        }
        Err(FetchFault::Damaged) => Ok(false),
        Err(FetchFault::Store(error)) => Err(error),
        Err(FetchFault::OldVersion) => Err(NO_ARCHIVE),
    }
}

/// How a row of round, body and rule goes with a posting. It errs as `keeps` does, and where the posting has no body.
fn repeat_of(alloc: Global, row: &Row, posting: &Posting) -> Result<Repeat, Error>
    ensures { IfOk result (spec.IsRepeat row.now posting.now) }
{
    if keeps(alloc, row, posting)? {
        return Ok(Repeat::Same);
    }
    let body = row.get_ref(1)?;
    match body_of(alloc, posting) {
        Ok(published) => Ok(Repeat::Other {
            kept: sum_of(body),
            published: Sha256::digest(published.as_slice()),
        }),
        Err(fault) => Err(cause_of(fault)),
    }
}

/// How what is kept of a posting's book and cycle goes with it, if anything is. It changes nothing.
///
/// # Errors
///
/// `OldVersion` on an archive of version 1, and else `Store`: the database refuses, is no archive or is in a transaction of the
/// caller's, memory is wanting, or the posting is none that a book publishes.
pub fn compare<S: Alter>(
    conn: &mut Connection<S>,
    alloc: Global,
    posting: &Posting,
) -> Result<Option<Repeat>, StoreFault>
    ensures compared { HasCleanDisk (state S.Store conn.new)
        → calls.Compares (state S.Store conn.old) (state S.Store conn.new) posting.now result }
    ensures clean { HasCleanDisk (state S.Store conn.new) → HasCleanDisk (state S.Store conn.old) }
{
    let (book, cycle) = (posting.book.as_str(), u32::from(posting.cycle.number()));
    let Some(row) = find(conn, book, cycle)? else {
        return Ok(None);
    };
    match repeat_of(alloc, &row, posting) {
        Ok(repeat) => Ok(Some(repeat)),
        Err(error) => Err(StoreFault::Store(error)),
    }
}
