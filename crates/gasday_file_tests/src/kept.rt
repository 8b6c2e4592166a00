//! A worked journal: pieces of any bytes, read whole and by parts.

use crate::disks::{Work, behind, new_disks};
use crate::pieces::{Bytes, FIRST, SECOND, THIRD, has, is_one, make, makes_three};
use gd_journal_store::{kept_is_read, pieces_are_one};
use sqlite::{Alter, Connection};
use std::alloc::Global;
use std::thread::Threads;

/// What is read of the three pieces behind so many.
const PARTS: [(u32, &[Bytes<'static>]); 4] = [
    (0, &[FIRST, SECOND, THIRD]),
    (0, &[FIRST]),
    (1, &[SECOND, THIRD]),
    (3, &[]),
];

/// Whether the three pieces are read whole and by parts.
fn reads_parts<S: Alter>(conn: &mut Connection<S>, alloc: Global) -> bool {
    for (after, wanted) in PARTS {
        if !has(conn, alloc, after, wanted) {
            return false;
        }
    }
    true
}

/// Whether a fourth piece is appended, and four are read.
fn appends_a_fourth<S: Alter>(conn: &mut Connection<S>, alloc: Global) -> bool {
    kept_is_read(conn, alloc, 4, FIRST.0, FIRST.1).is_some()
}

/// Makes a journal of the three pieces in an empty file, and reads it.
#[derive(Drop)]
pub(crate) struct Keeping;

impl Work for Keeping {
    fn is_well<T: Threads + Sync, S: Alter>(
        &mut self,
        _rt: &T,
        alloc: Global,
        conn: &mut Connection<S>,
    ) -> bool {
        !is_one(conn) && makes_three(conn) && is_one(conn) && reads_parts(conn, alloc)
    }
}

/// Makes it once more, which changes nothing, reads it, and goes on.
#[derive(Drop)]
struct GoingOn;

impl Work for GoingOn {
    fn is_well<T: Threads + Sync, S: Alter>(
        &mut self,
        _rt: &T,
        alloc: Global,
        conn: &mut Connection<S>,
    ) -> bool {
        make(conn).is_ok()
            && reads_parts(conn, alloc)
            && appends_a_fourth(conn, alloc)
            && has(conn, alloc, 2, &[THIRD, FIRST])
    }
}

/// What was kept is read by parts, in order, and so it is when the file is opened again.
#[test]
fn kept_is_read_by_parts(rt: HostRuntime) {
    pieces_are_one();
    let disks = new_disks(rt.alloc(), u64::MAX);
    let disks = behind(&rt, rt.alloc(), disks, &mut Keeping);
    behind(&rt, rt.alloc(), disks, &mut GoingOn);
}
