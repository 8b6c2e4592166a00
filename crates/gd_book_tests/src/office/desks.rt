//! Rounds of the desks at Timely's confirmation time, and what their receipts tell.

use crate::day::at;
use crate::office::calls::{Said, says};
use crate::office::day::{CONFIRMED, keep};
use crate::office::types::Office;
use gd_desk::{Desk, DeskFault, Gate, desk_round};
use gd_office_part::Receipt;
use std::alloc::Global;
use std::process::Abort;
use std::sync::Wait;
use std::thread::Threads;
use std::time::Clock;

/// The receipts of a desk: of its freeze, and of its publish or declare.
fn receipts_of(rt: &impl Abort, alloc: Global, desk: Desk) -> Vec<Receipt> {
    let mut receipts = Vec::new(alloc);
    keep(rt, &mut receipts, desk.froze);
    keep(rt, &mut receipts, desk.closed.expect(rt, "a close"));
    receipts
}

/// The receipts of each desk.
fn receipts_of_all(
    rt: &impl Abort,
    alloc: Global,
    desks: Vec<Result<Desk, DeskFault>>,
) -> Vec<Vec<Receipt>> {
    let mut lists = Vec::new(alloc);
    for desk in desks {
        let desk = desk.expect(rt, "a desk");
        keep(rt, &mut lists, receipts_of(rt, alloc, desk));
    }
    lists
}

/// The receipts of each desk of an office, in the order of its slots.
pub(crate) fn round(
    rt: &(impl Abort + Threads + Wait + Clock + Sync),
    alloc: Global,
    office: &Office,
    gate: &(impl Gate + Sync),
) -> Vec<Vec<Receipt>> {
    let desks = desk_round(rt, alloc, at(rt, CONFIRMED), office, gate);
    receipts_of_all(rt, alloc, desks.expect(rt, "memory"))
}

/// What the receipts of a desk tell: of its freeze, and of its publish or declare.
pub(crate) fn told_by(rt: &impl Abort, receipts: &[Receipt]) -> (Said, Said) {
    let froze = receipts.first().expect(rt, "a freeze");
    let closed = receipts.get(1).expect(rt, "a close");
    (says(froze), says(closed))
}
