//! Rounds of the desks, each made once more where a slot has no desk.

use crate::held::Receipts;
use crate::opening::Fault;
use crate::rows::tell;
use crate::types::{Office, Session};
use gd_desk::{Desk, DeskFault, Open, desk_round};
use gd_office_part::Receipt;
use gd_units::Moment;
use std::alloc::Global;
use std::sync::Wait;
use std::thread::Threads;
use std::time::Clock;

/// What a round lacks.
#[derive(Clone, Copy)]
enum Lack {
    /// No desk is handed back, for want of memory.
    AllDesks,
    /// A slot has no desk.
    Desk(DeskFault),
}

/// Keeps the receipt of a freeze, and that of what closed the question, if there was one.
fn keep_both(own: &mut Receipts, froze: Receipt, closed: Option<Receipt>) -> Result<(), Fault> {
    let kept = own.keep(froze);
    match closed {
        Some(closed) => kept.and(own.keep(closed)),
        None => kept,
    }
}

/// Keeps the receipts of a desk, if there is one.
fn keep_desk(own: &mut Receipts, desk: Result<Desk, DeskFault>) -> Result<Option<Lack>, Fault> {
    match desk {
        Ok(
            Desk {
                froze,
                closed,
                question,
            },
        ) => {
            drop(question);
            keep_both(own, froze, closed)?;
            Ok(None)
        }
        Err(fault) => Ok(Some(Lack::Desk(fault))),
    }
}

/// Keeps the receipts of the desk of the slot of this place, if there is one.
fn keep_at(
    receipts: &mut [Receipts],
    place: usize,
    desk: Result<Desk, DeskFault>,
) -> Result<Option<Lack>, Fault> {
    match receipts.get_mut(place) {
        Some(own) => keep_desk(own, desk),
        None => {
            drop(desk);
            Err(Fault::Unmade)
        }
    }
}

/// Keeps the receipts of all desks, and answers which fault the last slot without one has.
fn keep_all(
    receipts: &mut [Receipts],
    desks: Vec<Result<Desk, DeskFault>>,
) -> Result<Option<Lack>, Fault> {
    let mut lack = None;
    for (place, desk) in desks.into_iter().enumerate() {
        lack = keep_at(receipts, place, desk)?.or(lack);
    }
    Ok(lack)
}

/// Makes a round of the desks, keeps their receipts and answers what it lacks, if anything.
fn round(
    rt: &(impl Threads + Wait + Clock + Sync),
    alloc: Global,
    office: &Office,
    receipts: &mut [Receipts],
    moment: Moment,
) -> Result<Option<Lack>, Fault> {
    match desk_round(rt, alloc, moment, office, &Open) {
        Ok(desks) => keep_all(receipts, desks),
        Err(_) => Ok(Some(Lack::AllDesks)),
    }
}

fn tell_lack(
    rt: &(impl Wait + Print),
    lack: Lack,
    office: &Office,
    sessions: &[Session<'_>],
) -> Result<(), Fault> {
    match lack {
        Lack::AllDesks => tell(rt, "NoDesks", office, sessions),
        Lack::Desk(fault) => tell(rt, fault, office, sessions),
    }
}

/// Makes a round of the desks, once more where it lacks one. The row of what it lacks begins with the fault's name, or with
/// `NoDesks`.
pub(crate) fn desks(
    rt: &(impl Threads + Wait + Clock + Print + Sync),
    alloc: Global,
    office: &Office,
    sessions: &[Session<'_>],
    receipts: &mut [Receipts],
    moment: Moment,
) -> Result<(), Fault> {
    if let Some(lack) = round(rt, alloc, office, receipts, moment)? {
        tell_lack(rt, lack, office, sessions)?;
        if round(rt, alloc, office, receipts, moment)?.is_some() {
            return Err(Fault::NoMemory);
        }
    }
    tell(rt, "desk", office, sessions)
}
