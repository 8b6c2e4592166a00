//! The end of an office: its receipts are held against its books, and its sessions are closed.

use crate::held::{Receipts, keep, room};
use crate::opening::Fault;
use crate::rows::tell;
use crate::types::{Office, Session};
use gd_office::{ReconcileFault, close};
use std::alloc::Global;
use std::sync::Wait;

/// Holds the receipts of a slot against its book.
fn reconcile(rt: &impl Wait, alloc: Global, office: &Office, own: &Receipts) -> Result<(), Fault> {
    match office.reconcile(rt, alloc, own.slot, own.lists.as_slice()) {
        Ok(_) => Ok(()),
        Err(ReconcileFault::OutOfMemory) => Err(Fault::NoMemory),
        Err(_) => Err(Fault::Unforeseen),
    }
}

/// Holds the receipts of a slot against its book, once more where that finds no memory.
fn reconcile_again(
    rt: &(impl Wait + Print),
    alloc: Global,
    office: &Office,
    sessions: &[Session<'_>],
    own: &Receipts,
) -> Result<(), Fault> {
    let mut answer = reconcile(rt, alloc, office, own);
    if answer == Err(Fault::NoMemory) {
        tell(rt, "OutOfMemory", office, sessions)?;
        answer = reconcile(rt, alloc, office, own);
    }
    answer
}

/// Holds all receipts against the books.
pub(crate) fn reconcile_all(
    rt: &(impl Wait + Print),
    alloc: Global,
    office: &Office,
    sessions: &[Session<'_>],
    receipts: &[Receipts],
) -> Result<(), Fault> {
    for own in receipts {
        reconcile_again(rt, alloc, office, sessions, own)?;
        tell(rt, "reconcile", office, sessions)?;
    }
    Ok(())
}

/// Closes the sessions of a slot.
fn close_in<'o>(
    rt: &impl Wait,
    office: &'o Office,
    slot: u32,
    sessions: Vec<Session<'o>>,
) -> Result<(), Fault> {
    match close(rt, office, slot, sessions) {
        Ok(_) => Ok(()),
        Err(refused) => {
            drop(refused);
            Err(Fault::Unforeseen)
        }
    }
}

/// Closes the sessions of the first slot.
fn close_first<'o>(
    rt: &(impl Wait + Print),
    office: &'o Office,
    sessions: Vec<Session<'o>>,
) -> Result<(), Fault> {
    close_in(rt, office, 1, sessions)?;
    tell(rt, "close", office, &[])
}

/// Closes both sessions, each in a list of its own.
pub(crate) fn close_both<'o>(
    rt: &(impl Wait + Print),
    alloc: Global,
    office: &'o Office,
    sessions: Vec<Session<'o>>,
) -> Result<(), Fault> {
    let mut first = sessions;
    let mut second = room(alloc, 1);
    let kept = match first.pop() {
        Some(session) => keep(&mut second, session),
        None => Ok(()),
    };
    let closed = close_first(rt, office, first);
    match kept.and(closed) {
        Ok(()) => close_in(rt, office, 2, second)?,
        Err(fault) => {
            drop(second);
            return Err(fault);
        }
    }
    tell(rt, "close", office, &[])
}
