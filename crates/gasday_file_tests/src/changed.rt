//! Files that were changed by hand: what differs, or can't be read, is told by a run and by an audit, and left as it is.

use crate::day::{FROZEN, NONE, STORE, TOLD, parts};
use crate::disks::{Work, behind, new_disks};
use crate::streams::End;
use crate::works::{audits, serves};
use sqlite::{Alter, Connection};
use std::alloc::Global;
use std::process::Abort;
use std::thread::Threads;

/// The first call differs.
const CALL: &[u8] = b"differs,2,1,,,,,\n";

/// What is changed in a file that keeps an opening and seven calls, and what is told then.
const CHANGES: [(&str, u8, &[u8]); 11] = [
    ("UPDATE piece SET told = x'0a' WHERE number = 1", 1, NONE),
    ("UPDATE piece SET rows = told WHERE number = 1", 1, NONE),
    ("UPDATE piece SET told = rows WHERE number = 2", 1, CALL),
    ("UPDATE piece SET told = x'' WHERE number = 2", 1, CALL),
    ("UPDATE piece SET rows = x'' WHERE number = 2", 1, CALL),
    ("UPDATE piece SET number = 3 WHERE number = 2", 2, STORE),
    ("DELETE FROM piece WHERE number = 1", 2, STORE),
    ("UPDATE piece SET rows = 'day' WHERE number = 2", 2, STORE),
    ("UPDATE piece SET told = 7 WHERE number = 1", 2, STORE),
    ("CREATE TABLE note (text TEXT)", 2, STORE),
    ("CREATE INDEX by_rows ON piece (rows)", 2, STORE),
];

/// Changes a file by hand.
#[derive(Drop)]
pub(crate) struct Changing<'a>(pub(crate) &'a str);

impl<'a> Work for Changing<'a> {
    fn is_well<T: Threads + Sync, S: Alter>(
        &mut self,
        _rt: &T,
        _alloc: Global,
        conn: &mut Connection<S>,
    ) -> bool {
        conn.execute_batch(self.0).is_ok()
    }
}

/// A run and an audit of a file that was changed so tell this row, the audit before the run and behind it.
fn is_told(
    rt: &(impl Threads + Sync + Abort),
    alloc: Global,
    change: &str,
    status: u8,
    row: &[u8],
) {
    let [opening, first, later] = parts();
    let told = TOLD.split_at(FROZEN).0;
    let disks = new_disks(alloc, u64::MAX);
    let disks = serves(
        rt,
        alloc,
        disks,
        ([opening, first, b""], End::Good),
        0,
        (told, b""),
    );
    let disks = behind(rt, alloc, disks, &mut Changing(change));
    let disks = audits(rt, alloc, disks, row);
    let disks = serves(
        rt,
        alloc,
        disks,
        ([later, b"", b""], End::Good),
        status,
        (row, b""),
    );
    audits(rt, alloc, disks, row);
}

#[test]
fn changes_by_hand_are_told(rt: HostRuntime) {
    for (change, status, row) in CHANGES {
        is_told(&rt, rt.alloc(), change, status, row);
    }
}
