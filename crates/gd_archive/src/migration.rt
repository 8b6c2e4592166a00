//! From version 1 of an archive to version 2.

ghost use Rattle.std.specs.Prelude.{◌≡◌, IfOk};
ghost use Rattle.sqlite.specs.Held.{state};
ghost use Rattle.sqlite.specs.State.{HasCleanDisk};
ghost use Rattle.gd_body.specs.Body.{IsBody};
ghost use Rattle.gd_body.specs.Spread.{without_spread};
ghost use Rattle.gd_archive.specs.Calls as calls;

use crate::fault::NO_MEMORY;
use crate::keeping::cause_of;
use crate::row::{book_in, cycle_in};
use crate::sound::posting_at;
use gd_archive_store::{MigrateFault, Rewrite, migrate as carry};
use gd_board::Posting;
use gd_body::{BodyFault, body_of, without_spread};
use sqlite::types::{Bytes, Value};
use sqlite::{Alter, Connection, Error, Row};
use std::alloc::Global;

/// The body of a posting without words of the spread.
fn body_by_classes(alloc: Global, posting: Posting) -> Result<Vec<u8>, Error>
    ensures { IfOk result (λ body. IsBody (without_spread posting) body.items) }
{
    let posting = without_spread(alloc, posting)?;
    match body_of(alloc, &posting) {
        Ok(body) => {
            drop(posting);
            Ok(body)
        }
        Err(fault) => {
            drop(posting);
            Err(cause_of(fault))
        }
    }
}

/// From postings with prices of any kind to postings with prices by classes.
#[derive(Clone, Copy)]
struct ToClasses {
    alloc: Global,
}

impl Rewrite for ToClasses {
    ghost use Rattle.gd_archive.specs.Calls.{rewritten as rewritten_body, IsCarried};

    ghost rewritten = { rewritten_body };

    ghost IsHeld = { IsCarried };

    fn rewrite(&self, row: &Row) -> Result<Value, Error> {
        let (book, cycle) = (book_in(row)?, cycle_in(row)?);
        match posting_at(self.alloc, book, cycle, row.get_ref(2)?, row.get_ref(3)?) {
            Ok(posting) => {
                let body = body_by_classes(self.alloc, posting)?;
                Ok(Value::Blob(Bytes::from_slice(self.alloc, &body)?))
            }
            Err(BodyFault::Damaged) => row.get(3),
            Err(BodyFault::OutOfMemory) => Err(NO_MEMORY),
        }
    }
}

/// Brings an archive of version 1 to version 2 in one transaction, and answers how many postings it has.
///
/// Each posting is carried over under the rule `Classes`: its question, schedule and bumped lines as they were, its prices
/// without words of the spread, since the first words of such prices pass the check by classes. A row that is damaged is
/// carried over as it is.
///
/// # Errors
///
/// `OtherVersion` where the version isn't 1, and else `Store`: the database refuses, is no archive or is in a transaction of
/// the caller's, a row has no book or cycle, or memory is wanting. After each the database is as before.
pub fn migrate<S: Alter>(conn: &mut Connection<S>, alloc: Global) -> Result<u64, MigrateFault>
    ensures migrated { HasCleanDisk (state S.Store conn.new)
        → calls.Migrates (state S.Store conn.old) (state S.Store conn.new) result }
    ensures clean { HasCleanDisk (state S.Store conn.new) → HasCleanDisk (state S.Store conn.old) }
{
    carry(conn, &ToClasses { alloc })
}
