//! A worked archive, and disks that stop at each of their calls: what is opened again has all of a keep or of a migration, or nothing
//! of it. Other archives are among the acceptance cases.

use crate::disks::{Disks, Work, behind, crashed, new_disks, stopping};
use crate::postings::{
    INTRADAY_2, audit, fetched, finds_intraday_2, keep, make, make_version_1, migrate, number,
    posting,
};
use gd_archive::{KeepFault, MigrateFault, Rule};
use gd_board::Posting;
use sqlite::{Alter, Connection};
use std::alloc::Global;
use std::process::Abort;
use std::test::Fail;
use std::thread::Threads;

/// Whether this body is kept of a cycle under this rule.
fn has<S: Alter>(
    conn: &mut Connection<S>,
    alloc: Global,
    cycle: u8,
    rule: Rule,
    body: &str,
) -> bool {
    match fetched(conn, alloc, cycle) {
        Ok(Some((under, kept))) => under == rule && kept.as_slice() == body.as_bytes(),
        _ => false,
    }
}

/// Keeps a posting twice, and looks for it.
#[derive(Drop)]
struct KeepingOnce<'a>(&'a Posting);

impl<'a> Work for KeepingOnce<'a> {
    fn is_well<T: Threads + Sync, S: Alter>(
        &mut self,
        _rt: &T,
        alloc: Global,
        conn: &mut Connection<S>,
    ) -> bool {
        make(conn).is_ok()
            && make(conn).is_ok()
            && keep(conn, alloc, self.0).is_ok()
            && matches!(keep(conn, alloc, self.0), Err(KeepFault::Kept))
            && has(conn, alloc, 4, Rule::Spread, INTRADAY_2)
            && matches!(fetched(conn, alloc, 3), Ok(None))
            && matches!(audit(conn, alloc), Ok(1))
            && finds_intraday_2(conn, alloc)
            && matches!(migrate(conn, alloc), Err(MigrateFault::OtherVersion))
    }
}

/// What was kept is fetched, once, and no other cycle.
#[test]
fn kept_is_fetched(rt: HostRuntime) -> Result<(), Fail> {
    let kept = posting(rt.alloc(), INTRADAY_2)?;
    let disks = new_disks(rt.alloc(), u64::MAX);
    behind(&rt, rt.alloc(), disks, &mut KeepingOnce(&kept));
    Ok(())
}

/// What is done with an archive whose disk stops.
#[derive(Clone, Copy)]
enum Job<'a> {
    Keep(&'a Posting),
    Migrate,
}

/// What an archive that is opened again has of the job.
#[derive(Clone, Copy, PartialEq, Eq)]
enum Left {
    Nothing,
    All,
    Other,
}

/// Makes the archive in which the job is to be done.
#[derive(Drop)]
struct Preparing<'a>(Job<'a>);

impl<'a> Work for Preparing<'a> {
    fn is_well<T: Threads + Sync, S: Alter>(
        &mut self,
        _rt: &T,
        _alloc: Global,
        conn: &mut Connection<S>,
    ) -> bool {
        match self.0 {
            Job::Keep(_) => make(conn).is_ok(),
            Job::Migrate => make_version_1(conn).is_ok(),
        }
    }
}

/// Does the job.
#[derive(Drop)]
struct Doing<'a>(Job<'a>);

impl<'a> Work for Doing<'a> {
    fn is_well<T: Threads + Sync, S: Alter>(
        &mut self,
        _rt: &T,
        alloc: Global,
        conn: &mut Connection<S>,
    ) -> bool {
        match self.0 {
            Job::Keep(posting) => keep(conn, alloc, posting).is_ok(),
            Job::Migrate => matches!(migrate(conn, alloc), Ok(2)),
        }
    }
}

/// What an archive has of the job.
fn left_of<S: Alter>(conn: &mut Connection<S>, alloc: Global, job: Job<'_>) -> Left {
    let old = number(conn, "SELECT count(*) FROM posting");
    match (job, audit(conn, alloc), old) {
        (Job::Keep(_), Ok(0), Ok(0)) => Left::Nothing,
        (Job::Keep(_), Ok(1), Ok(0)) => Left::All,
        (Job::Migrate, Err(_), Ok(2)) => Left::Nothing,
        (Job::Migrate, Ok(2), Ok(0)) => Left::All,
        _ => Left::Other,
    }
}

/// Looks what an archive has of the job.
#[derive(Drop)]
struct Looking<'a> {
    job: Job<'a>,
    left: Left,
}

impl<'a> Work for Looking<'a> {
    fn is_well<T: Threads + Sync, S: Alter>(
        &mut self,
        _rt: &T,
        alloc: Global,
        conn: &mut Connection<S>,
    ) -> bool {
        self.left = left_of(conn, alloc, self.job);
        true
    }
}

/// Stops the disks of a job behind so many calls, those of the open before it among them. None where the stop comes before
/// the archive is open; else whether the job was done, and what is found of it behind the crash.
fn stopped(
    rt: &(impl Threads + Sync + Abort),
    alloc: Global,
    prepared: &Disks,
    job: Job<'_>,
    calls: u64,
) -> Option<(bool, Left)> {
    let disks = stopping(rt, alloc, prepared, calls);
    let (disks, answer) = crashed(rt, alloc, disks, &mut Doing(job));
    let is_done = answer?;
    let left = Left::Other;
    let mut looking = Looking { job, left };
    behind(rt, alloc, disks, &mut looking);
    Some((is_done, looking.left))
}

/// Stops a job behind each number of calls up to the first with which it is done, of which at least one is a stop of an open archive.
fn stops_at_each(rt: &(impl Threads + Sync + Abort), alloc: Global, job: Job<'_>) {
    let disks = new_disks(alloc, u64::MAX);
    let prepared = behind(rt, alloc, disks, &mut Preparing(job));
    let mut has_stopped = false;
    for calls in 0..500 {
        let Some((is_done, found)) = stopped(rt, alloc, &prepared, job, calls) else {
            continue;
        };
        assert!(rt; found != Left::Other);
        assert!(rt; found == Left::All || !is_done);
        if is_done {
            assert!(rt; has_stopped);
            return;
        }
        has_stopped = true;
    }
    panic!(rt; "the job is done at last");
}

#[test]
fn keep_at_each_call(rt: HostRuntime) -> Result<(), Fail> {
    let kept = posting(rt.alloc(), INTRADAY_2)?;
    stops_at_each(&rt, rt.alloc(), Job::Keep(&kept));
    Ok(())
}

#[test]
fn migration_at_each_call(rt: HostRuntime) {
    stops_at_each(&rt, rt.alloc(), Job::Migrate);
}
