//! Disks, readers and writers that fail at each call: what was told is kept, and the file opens again as a book, or none was made.

use crate::day::{FROZEN, NONE, ONE, OPENED, STORE, THREE, TOLD, TWO, UNREAD, parts};
use crate::disks::{behind, crashed, new_disks};
use crate::streams::End;
use crate::works::{Auditing, printing, serves, serving};
use std::alloc::Global;
use std::process::Abort;
use std::thread::Threads;

/// What an audit may tell where so many bytes were told, with a fault's row behind them or none: what was told is kept, and at
/// most one part more.
fn may_keep(told: usize) -> &'static [&'static [u8]] {
    match told {
        0..20 => &[STORE, NONE, ONE],
        20..184 => &[ONE, TWO],
        184..493 => &[TWO, THREE],
        _ => &[THREE],
    }
}

/// Whether this is a front of what is told of the day, with a fault's row behind it or none.
fn is_front(told: &[u8]) -> bool {
    match told.split_at_checked(told.len().saturating_sub(STORE.len())) {
        Some((front, STORE)) => TOLD.starts_with(front),
        _ => TOLD.starts_with(told),
    }
}

/// Serves the day on disks that stop behind so many calls, or to a writer that takes so many bytes: whether all was done.
fn is_served(rt: &(impl Threads + Sync + Abort), alloc: Global, calls: u64, most: usize) -> bool {
    let mut work = serving(alloc, parts(), End::Good, most);
    let (disks, _) = crashed(rt, alloc, new_disks(alloc, calls), &mut work);
    let told = work.writer.got.as_slice();
    assert!(rt; is_front(told));
    behind(rt, alloc, disks, &mut Auditing(may_keep(told.len())));
    work.status == 0
}

#[test]
fn a_disk_stops_at_each_call(rt: HostRuntime) {
    for calls in 0..500 {
        if is_served(&rt, rt.alloc(), calls, 10_000) {
            assert!(rt; 0 < calls);
            return;
        }
    }
    panic!(rt; "the day is served at last");
}

#[test]
fn a_writer_fails_at_each_byte(rt: HostRuntime) {
    for most in 0..TOLD.len() {
        assert!(rt; !is_served(&rt, rt.alloc(), u64::MAX, most));
    }
}

/// The input breaks off behind each part.
#[test]
fn a_reader_fails_at_each_part(rt: HostRuntime) {
    let [opening, first, later] = parts();
    let runs: [([&[u8]; 3], usize); 4] = [
        ([b"", b"", b""], 0),
        ([opening, b"", b""], 0),
        ([opening, first, b""], FROZEN),
        ([opening, first, later], TOLD.len()),
    ];
    for (input, told) in runs {
        let told = TOLD.split_at(told).0;
        let disks = new_disks(rt.alloc(), u64::MAX);
        serves(
            &rt,
            rt.alloc(),
            disks,
            (input, End::Broken),
            2,
            (told, UNREAD),
        );
    }
}

/// A file with the opening is printed to a writer that fails at each byte.
#[test]
fn printing_fails_at_each_byte(rt: HostRuntime) {
    let [opening, _, _] = parts();
    let mut disks = new_disks(rt.alloc(), u64::MAX);
    disks = serves(
        &rt,
        rt.alloc(),
        disks,
        ([opening, b"", b""], End::Good),
        0,
        (TOLD.split_at(OPENED).0, b""),
    );
    for most in 0..opening.len() {
        let mut work = printing(rt.alloc(), most);
        disks = behind(&rt, rt.alloc(), disks, &mut work);
        assert!(rt; work.status == 2 && work.writer.got.len() == most);
        assert!(rt; opening.starts_with(work.writer.got.as_slice()));
    }
}
