//! The two files of a book or of an archive, on disks in memory that can stop.

ghost use Rattle.std.specs.Thread.{IsSync};

use sqlite::{Alter, Connection, Files, Options};
use sqlite_disk::{Crash, Disk, Fuse, Memory};
use std::alloc::Global;
use std::process::Abort;
use std::thread::Threads;

/// The log and the file.
pub(crate) type Disks = Files<Fuse<Memory>>;

/// What is done with a file that is open.
pub(crate) trait Work {
    /// Whether all went as the work says.
    fn is_well<T: Threads + Sync, S: Alter>(
        &mut self,
        rt: &T,
        alloc: Global,
        conn: &mut Connection<S>,
    ) -> bool
        requires { IsSync T.row };
}

/// A new disk that stops behind so many calls.
fn new_disk(alloc: Global, calls: u64) -> Fuse<Memory> {
    Fuse::new(Memory::new(alloc), calls)
}

/// New disks, each of which stops behind so many calls.
pub(crate) fn new_disks(alloc: Global, calls: u64) -> Disks {
    Files {
        log: new_disk(alloc, calls),
        db: new_disk(alloc, calls),
    }
}

/// A disk of these bytes, which stops behind so many calls.
fn disk_of(rt: &impl Abort, alloc: Global, bytes: &[u8], calls: u64) -> Fuse<Memory> {
    let mut disk = Memory::new(alloc);
    let is_filled = disk.write_at(0, bytes).is_ok() && disk.sync().is_ok();
    assert!(rt; is_filled);
    Fuse::new(disk, calls)
}

/// Disks of the same bytes, each of which stops behind so many calls.
pub(crate) fn stopping(rt: &impl Abort, alloc: Global, disks: &Disks, calls: u64) -> Disks {
    Files {
        log: disk_of(rt, alloc, disks.log.inner().bytes(), calls),
        db: disk_of(rt, alloc, disks.db.inner().bytes(), calls),
    }
}

/// Disks of the same bytes, which do not stop.
pub(crate) fn copied(rt: &impl Abort, alloc: Global, disks: &Disks) -> Disks {
    stopping(rt, alloc, disks, u64::MAX)
}

/// Whether two pairs of disks have the same bytes.
pub(crate) fn are_same(some: &Disks, others: &Disks) -> bool {
    some.log.inner().bytes() == others.log.inner().bytes()
        && some.db.inner().bytes() == others.db.inner().bytes()
}

/// Hands a file to some work, whose answer comes with the store.
fn worked_open<S: Alter + Drop, W: Work>(
    rt: &(impl Threads + Sync),
    alloc: Global,
    mut conn: Connection<S>,
    work: &mut W,
) -> (S, bool) {
    let is_well = work.is_well(rt, alloc, &mut conn);
    (conn.into_store(), is_well)
}

/// How a file is opened: with few pages in memory, since it is opened often.
fn options() -> Options {
    let mut options = Options::new(1);
    options.cache_pages = 16;
    options
}

/// Hands the file of these disks to some work, whose answer comes with the disks. There is none where it can't be opened.
fn worked<D: Disk + Drop, W: Work>(
    rt: &(impl Threads + Sync),
    alloc: Global,
    disks: Files<D>,
    work: &mut W,
) -> (Files<D>, Option<bool>) {
    if !disks.may_be_used() {
        return (disks, None);
    }
    match Connection::open_files(alloc, disks, options()) {
        Ok(conn) => {
            let (store, is_well) = worked_open(rt, alloc, conn, work);
            (store.close(), Some(is_well))
        }
        Err((_, left)) => (left.into_files(), None),
    }
}

/// The same, and a crash behind it, after which the disks do not stop.
pub(crate) fn crashed<W: Work>(
    rt: &(impl Threads + Sync),
    alloc: Global,
    disks: Disks,
    work: &mut W,
) -> (Disks, Option<bool>) {
    let (mut disks, answer) = worked(rt, alloc, disks, work);
    disks.log.crash();
    disks.db.crash();
    (disks, answer)
}

/// The disks behind some work that goes well.
pub(crate) fn behind<W: Work>(
    rt: &(impl Threads + Sync + Abort),
    alloc: Global,
    disks: Disks,
    work: &mut W,
) -> Disks {
    let (disks, answer) = crashed(rt, alloc, disks, work);
    assert!(rt; answer == Some(true));
    disks
}
