//! A session of another slot among those that are closed, and a slot that an office doesn't have.

use crate::day::name;
use crate::office::calls::{closes, reconciles, refused, sessions};
use crate::office::day::{keep, office};
use crate::office::types::{Office, Session};
use gd_office::{CloseFault, ReconcileFault};
use gd_office_part::OfficeFault;
use std::alloc::Global;
use std::process::Abort;
use std::sync::Wait;

/// Shows the slots of sessions.
fn shows_slots(rt: &impl Abort, sessions: &[Session<'_>], wanted: &[u32]) {
    assert_eq!(rt; sessions.len(), wanted.len());
    for at in 0..wanted.len() {
        assert_eq!(rt; sessions[at].slot(), wanted[at]);
    }
}

/// The session of slot 2 comes back with those of slot 1, which can be closed without it.
fn closed_apart(rt: &(impl Abort + Wait), alloc: Global, office: &Office) {
    let mixed = [1, 1, 2, 1];
    let sessions = sessions(rt, alloc, office, mixed.as_slice());
    let mut back = refused(rt, office, 1, sessions, CloseFault::WrongSlot(2));
    shows_slots(rt, back.as_slice(), mixed.as_slice());
    assert_eq!(rt; back.len(), 4);
    let other = back.remove(2);
    closes(rt, office, 1, back, (0, 0));
    let mut others = Vec::new(alloc);
    keep(rt, &mut others, other);
    closes(rt, office, 2, others, (0, 0));
}

/// Shows that no session can be opened with a slot of this number.
fn no_session(rt: &(impl Abort + Wait), office: &Office, slot: u32) {
    match office.session(rt, slot, name(rt, "SHIP")) {
        Ok(_) => panic!(rt; "a session"),
        Err(fault) => assert_eq!(rt; fault, OfficeFault::UnknownSlot),
    }
}

/// No call finds a slot of this number.
fn unknown(rt: &(impl Abort + Wait), alloc: Global, office: &Office, slot: u32) {
    no_session(rt, office, slot);
    let (lists, fault) = (Vec::new(alloc), Err(ReconcileFault::UnknownSlot));
    reconciles(rt, alloc, office, slot, lists.as_slice(), fault);
    let back = refused(rt, office, slot, Vec::new(alloc), CloseFault::UnknownSlot);
    assert!(rt; back.is_empty());
}

#[test]
fn other_slots(rt: HostRuntime) {
    let office = office(&rt, rt.alloc(), ["BOOK1", "BOOK2"].as_slice());
    closed_apart(&rt, rt.alloc(), &office);
    unknown(&rt, rt.alloc(), &office, 3);
}
