//! Receipts of another book, and receipts out of order.

use crate::office::calls::{nominate_all, reconciles, session};
use crate::office::day::{keep, office};
use crate::office::types::Office;
use gd_office::ReconcileFault;
use gd_office_part::Receipt;
use gd_reconcile::Mismatch;
use std::alloc::Global;
use std::process::Abort;
use std::sync::Wait;

/// The receipts of a session of this slot, which nominates on these lines.
fn made(
    rt: &(impl Abort + Wait),
    alloc: Global,
    office: &Office,
    slot: u32,
    packages: &[&'static str],
) -> Vec<Receipt> {
    let mut session = session(rt, office, slot, "SHIP");
    nominate_all(rt, alloc, &mut session, packages)
}

/// The fault of the receipt at this place of this list.
pub(crate) fn misfit(list: usize, index: usize) -> Result<u64, ReconcileFault> {
    Err(ReconcileFault::Mismatch(Mismatch { list, index }))
}

/// Shows that receipts fit in their order and not in reverse, and hands out the last one.
fn reversed(
    rt: &(impl Abort + Wait),
    alloc: Global,
    office: &Office,
    receipts: Vec<Receipt>,
) -> Receipt {
    let mut lists = [receipts];
    reconciles(rt, alloc, office, 2, lists.as_slice(), Ok(3));
    lists[0].reverse();
    reconciles(rt, alloc, office, 2, lists.as_slice(), misfit(0, 1));
    let [mut receipts] = lists;
    receipts.reverse();
    receipts.pop().expect(rt, "a receipt")
}

/// Shows that a receipt of the third event of another book doesn't fit a book of two events.
fn other_book(rt: &(impl Abort + Wait), alloc: Global, office: &Office, other: Receipt) {
    let first = made(rt, alloc, office, 1, ["A0"].as_slice());
    let second = made(rt, alloc, office, 1, ["B0"].as_slice());
    let mut lists = [first, second];
    reconciles(rt, alloc, office, 1, lists.as_slice(), Ok(2));
    keep(rt, &mut lists[1], other);
    reconciles(rt, alloc, office, 1, lists.as_slice(), misfit(1, 1));
}

fn misfits(rt: &(impl Abort + Wait), alloc: Global, office: &Office) {
    let others = made(rt, alloc, office, 2, ["C0", "C1", "C2"].as_slice());
    let other = reversed(rt, alloc, office, others);
    other_book(rt, alloc, office, other);
}

#[test]
fn misfitting_receipts(rt: HostRuntime) {
    let office = office(&rt, rt.alloc(), ["BOOK1", "BOOK2"].as_slice());
    misfits(&rt, rt.alloc(), &office);
}
