//! The audit of a file: of an archive, or of the book of a gas day.

ghost use Rattle.sqlite.specs.Held.{state};
ghost use Rattle.sqlite.specs.State.{HasCleanDisk};
ghost use Rattle.gasday_archive.specs.Runs.{Tells, TellsOf};
ghost use Rattle.gasday_orders.specs.Audited.{TellsAudit};

use gasday_archive::{Outcome, audit_archive, audit_postings, of_no_store};
use gasday_live::audit_book;
use gasday_part::Answer;
use gd_journal_store::is_journal;
use sqlite::{Alter, Connection, Error};
use std::alloc::{AllocError, Global};
use std::thread::Threads;

/// Audits an archive, and tells of each posting where `each` is true; or audits the book that a file keeps.
fn audit_file<S: Alter>(
    threads: &(impl Threads + Sync),
    alloc: Global,
    conn: &mut Connection<S>,
    each: bool,
) -> Result<Answer, AllocError>
    ensures told { Tells (λ a. HasCleanDisk (state S.Store conn.new)
        → TellsAudit S.Store each conn.old conn.new a) result }
    ensures clean { HasCleanDisk (state S.Store conn.new) → HasCleanDisk (state S.Store conn.old) }
{
    if is_journal(conn) {
        return audit_book(threads, alloc, conn);
    }
    if each {
        return audit_postings(alloc, conn);
    }
    audit_archive(alloc, conn)
}

/// Audits what was opened, and tells of each posting of an archive where `each` is true.
pub fn tell_audit<S: Alter + Drop>(
    threads: &(impl Threads + Sync),
    alloc: Global,
    opened: Result<Connection<S>, Error>,
    each: bool,
) -> Outcome<S>
    ensures { Tells (TellsOf S.Store (TellsAudit S.Store each) opened result.archive) result.answer }
{
    let Ok(mut conn) = opened else {
        return Outcome::unopened(of_no_store(alloc));
    };
    let answer = audit_file(threads, alloc, &mut conn, each);
    Outcome {
        answer,
        archive: Some(conn),
        repeats: None,
    }
}
