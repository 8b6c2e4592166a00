//! Calls of an office's sessions, their closing, and what receipts tell. They promise nothing of the books, so a test is
//! proved without their histories.

use crate::day::{at, dth, name};
use crate::office::day::{NOMINATED, keep, line};
use crate::office::types::{Office, Session};
use gd_book::{Refusal, Reply};
use gd_office::{CloseFault, ReconcileFault, close};
use gd_office_part::{Receipt, Told};
use std::alloc::Global;
use std::process::Abort;
use std::sync::Wait;

/// What a receipt tells, each first with the number of its event, or with how many events there were before a refusal.
#[derive(Clone, Copy, Debug, PartialEq, Eq)]
pub(crate) enum Said {
    /// Of this cycle and this line, from 0.
    Accepted(u64, u8, u32),
    Done(u64),
    /// Of this cycle and this round, with so many lines.
    Frozen(u64, u8, u32, usize),
    /// Of this cycle and this round.
    Published(u64, u8, u32),
    /// Of this cycle and this round.
    Declared(u64, u8, u32),
    Refused(u64, Refusal),
}

fn replied(number: u64, reply: &Reply) -> Said {
    match reply {
        Reply::Accepted { cycle, line, .. } => Said::Accepted(number, cycle.number(), *line),
        Reply::Done { .. } => Said::Done(number),
        Reply::Frozen {
            cycle,
            round,
            lines,
            ..
        } => Said::Frozen(number, cycle.number(), round.number(), *lines),
        Reply::Published { cycle, round, .. } => {
            Said::Published(number, cycle.number(), round.number())
        }
        Reply::Declared { cycle, round, .. } => {
            Said::Declared(number, cycle.number(), round.number())
        }
    }
}

pub(crate) fn says(receipt: &Receipt) -> Said {
    match receipt.told() {
        Told::Accepted(number, reply) => replied(*number, reply),
        Told::Refused(length, refusal) => Said::Refused(*length, *refusal),
    }
}

/// Opens a session.
pub(crate) fn session<'o>(
    rt: &(impl Abort + Wait),
    office: &'o Office,
    slot: u32,
    party: &str,
) -> Session<'o> {
    match office.session(rt, slot, name(rt, party)) {
        Ok(session) => session,
        Err(_) => panic!(rt; "no session"),
    }
}

/// A session of each of these slots.
pub(crate) fn sessions<'o>(
    rt: &(impl Abort + Wait),
    alloc: Global,
    office: &'o Office,
    slots: &[u32],
) -> Vec<Session<'o>> {
    let mut sessions = Vec::new(alloc);
    for slot in slots {
        keep(rt, &mut sessions, session(rt, office, *slot, "SHIP"));
    }
    sessions
}

/// Nominates on the line of INT in a package, and shows that it is accepted for Timely.
pub(crate) fn nominate(
    rt: &(impl Abort + Wait),
    session: &mut Session<'_>,
    package: &str,
    quantity: u64,
) -> Receipt {
    let (moment, key) = (at(rt, NOMINATED), line(rt, package));
    let made = session.nominate(rt, moment, key, dth(rt, quantity));
    let receipt = made.expect(rt, "memory");
    assert!(rt; matches!(says(&receipt), Said::Accepted(_, 1, _)));
    receipt
}

/// Nominates 1 dekatherm on the line of each package.
pub(crate) fn nominate_all(
    rt: &(impl Abort + Wait),
    alloc: Global,
    session: &mut Session<'_>,
    packages: &[&'static str],
) -> Vec<Receipt> {
    let mut receipts = Vec::new(alloc);
    for package in packages {
        keep(rt, &mut receipts, nominate(rt, session, *package, 1));
    }
    receipts
}

/// Shows that sessions are not closed for this reason. They are handed back.
pub(crate) fn refused<'o>(
    rt: &(impl Abort + Wait),
    office: &'o Office,
    slot: u32,
    sessions: Vec<Session<'o>>,
    wanted: CloseFault,
) -> Vec<Session<'o>> {
    let closed = close(rt, office, slot, sessions);
    let (fault, back) = closed.err().expect(rt, "a fault");
    assert_eq!(rt; fault, wanted);
    back
}

/// Closes sessions, and shows how many of their nominations were accepted, with their dekatherms.
pub(crate) fn closes<'o>(
    rt: &(impl Abort + Wait),
    office: &'o Office,
    slot: u32,
    sessions: Vec<Session<'o>>,
    wanted: (u64, u64),
) {
    let closed = close(rt, office, slot, sessions);
    assert_eq!(rt; closed.ok(), Some(wanted));
}

/// Holds lists of receipts against the book of a slot, and shows the length of its history, or the fault.
pub(crate) fn reconciles(
    rt: &(impl Abort + Wait),
    alloc: Global,
    office: &Office,
    slot: u32,
    lists: &[Vec<Receipt>],
    wanted: Result<u64, ReconcileFault>,
) {
    assert_eq!(rt; office.reconcile(rt, alloc, slot, lists), wanted);
}
