//! Two sessions of one book in threads of their own, and a desk after them.

use crate::office::calls::{Said, closes, nominate_all, reconciles, refused, sessions};
use crate::office::day::{keep, office};
use crate::office::desks::{round, told_by};
use crate::office::types::{Office, Session};
use gd_desk::Open;
use gd_office::CloseFault;
use gd_office_part::Receipt;
use std::alloc::Global;
use std::process::Abort;
use std::sync::Wait;
use std::thread;
use std::thread::Threads;
use std::time::Clock;

/// The packages of the first session's lines.
const FIRST: [&str; 10] = ["A0", "A1", "A2", "A3", "A4", "A5", "A6", "A7", "A8", "A9"];

/// The packages of the second session's lines.
const SECOND: [&str; 10] = ["B0", "B1", "B2", "B3", "B4", "B5", "B6", "B7", "B8", "B9"];

/// Each session nominates in a thread of its own.
fn nominate_in_threads(
    rt: &(impl Abort + Threads + Wait + Sync),
    alloc: Global,
    sessions: &mut [Session<'_>],
) -> (Vec<Receipt>, Vec<Receipt>) {
    assert_eq!(rt; sessions.len(), 2);
    let (first, second) = sessions.split_at_mut(1);
    let (first, second) = (&mut first[0], &mut second[0]);
    thread::join(
        rt,
        || nominate_all(rt, alloc, first, FIRST.as_slice()),
        || nominate_all(rt, alloc, second, SECOND.as_slice()),
    )
}

/// Freezes and publishes, and shows at which places of the history.
fn desk(
    rt: &(impl Abort + Threads + Wait + Clock + Sync),
    alloc: Global,
    office: &Office,
) -> Vec<Receipt> {
    let mut desks = round(rt, alloc, office, &Open);
    let receipts = desks.pop().expect(rt, "a desk");
    let told = (Said::Frozen(21, 1, 1, 20), Said::Published(22, 1, 1));
    assert_eq!(rt; told_by(rt, receipts.as_slice()), told);
    receipts
}

/// Closes both sessions, and before that shows that the first alone is not enough.
fn close_both<'o>(rt: &(impl Abort + Wait), office: &'o Office, sessions: Vec<Session<'o>>) {
    let mut sessions = sessions;
    assert_eq!(rt; sessions.len(), 2);
    let second = sessions.remove(1);
    let mut back = refused(rt, office, 1, sessions, CloseFault::Missing(1));
    assert_eq!(rt; back.len(), 1);
    keep(rt, &mut back, second);
    closes(rt, office, 1, back, (20, 20));
}

fn two_sessions_then_a_desk(
    rt: &(impl Abort + Threads + Wait + Clock + Sync),
    alloc: Global,
    office: &Office,
) {
    let mut sessions = sessions(rt, alloc, office, [1, 1].as_slice());
    let (one, two) = nominate_in_threads(rt, alloc, sessions.as_mut_slice());
    let lists = [desk(rt, alloc, office), one, two];
    close_both(rt, office, sessions);
    reconciles(rt, alloc, office, 1, lists.as_slice(), Ok(22));
}

#[test]
fn sessions_in_threads(rt: HostRuntime) {
    let office = office(&rt, rt.alloc(), ["DEMO"].as_slice());
    two_sessions_then_a_desk(&rt, rt.alloc(), &office);
}
