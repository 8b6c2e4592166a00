//! Journals that were changed by hand, and pieces under wrong numbers.

use crate::changed::Changing;
use crate::disks::{Disks, Work, are_same, behind, copied, new_disks};
use crate::kept::Keeping;
use crate::pieces::{FIRST, THIRD, append, count, has_three};
use gd_journal_store::{StoreFault, settled};
use sqlite::{Alter, Connection};
use std::alloc::Global;
use std::process::Abort;
use std::thread::Threads;

/// What leaves no journal of pieces that are numbered from 1.
const DAMAGES: [&str; 10] = [
    "UPDATE piece SET number = 4 WHERE number = 3",
    "UPDATE piece SET number = 0 WHERE number = 1",
    "UPDATE piece SET number = -1 WHERE number = 1",
    "INSERT INTO piece (number, rows, told) VALUES (0, x'', x'')",
    "INSERT INTO piece (number, rows, told) VALUES (4294967300, x'', x'')",
    "DELETE FROM piece WHERE number = 1",
    "DELETE FROM piece WHERE number = 2",
    "UPDATE piece SET rows = 'cycle' WHERE number = 2",
    "UPDATE piece SET rows = 7 WHERE number = 1",
    "UPDATE piece SET told = '' WHERE number = 3",
];

/// Finds a journal damaged.
#[derive(Drop)]
struct FindingDamage;

impl Work for FindingDamage {
    fn is_well<T: Threads + Sync, S: Alter>(
        &mut self,
        _rt: &T,
        _alloc: Global,
        conn: &mut Connection<S>,
    ) -> bool {
        matches!(count(conn), Err(StoreFault::Damaged))
    }
}

/// The disks of a journal of the three pieces.
fn three(rt: &(impl Threads + Sync + Abort), alloc: Global) -> Disks {
    behind(rt, alloc, new_disks(alloc, u64::MAX), &mut Keeping)
}

/// A journal that was changed so is told as damaged, and left as it is.
fn is_damaged(rt: &(impl Threads + Sync + Abort), alloc: Global, three: &Disks, change: &str) {
    let changed = behind(rt, alloc, copied(rt, alloc, three), &mut Changing(change));
    let found = behind(rt, alloc, copied(rt, alloc, &changed), &mut FindingDamage);
    assert!(rt; are_same(&found, &changed), "{change}");
}

#[test]
fn damage_is_told(rt: HostRuntime) {
    let three = three(&rt, rt.alloc());
    for change in DAMAGES {
        is_damaged(&rt, rt.alloc(), &three, change);
    }
}

/// Appends under a number that is taken, which is refused and changes nothing, and under one that leaves others out, which
/// `count` finds.
#[derive(Drop)]
struct Misnumbering;

impl Work for Misnumbering {
    fn is_well<T: Threads + Sync, S: Alter>(
        &mut self,
        _rt: &T,
        alloc: Global,
        conn: &mut Connection<S>,
    ) -> bool {
        settled(conn)
            && matches!(append(conn, 2, THIRD), Err(StoreFault::Store(_)))
            && has_three(conn, alloc)
            && append(conn, 5, FIRST).is_ok()
            && matches!(count(conn), Err(StoreFault::Damaged))
    }
}

#[test]
fn wrong_numbers_are_refused_or_found(rt: HostRuntime) {
    let three = three(&rt, rt.alloc());
    behind(&rt, rt.alloc(), three, &mut Misnumbering);
}
