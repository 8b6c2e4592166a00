//! A session with the book of each slot, and the receipts of each slot.

use crate::opening::{Fault, PARTY, name};
use crate::rows::tell;
use crate::types::{Office, Session, Slot};
use gd_office_part::Receipt;
use gd_units::Name;
use std::alloc::Global;
use std::sync::Wait;

/// For how many receipts there is room in a slot: for more than there are.
const ROOM: usize = 32;

/// The receipts of a slot in the order in which they came: of its session and of its desks.
#[derive(Drop)]
pub(crate) struct Receipts {
    pub(crate) slot: u32,
    pub(crate) lists: [Vec<Receipt>; 1],
}

impl Receipts {
    /// Keeps one more.
    pub(crate) fn keep(&mut self, receipt: Receipt) -> Result<(), Fault> {
        match self.lists[0].push(receipt) {
            Ok(()) => Ok(()),
            Err(refused) => {
                drop(refused);
                Err(Fault::Unmade)
            }
        }
    }
}

fn add_list(alloc: Global, receipts: &mut Vec<Receipts>, slot: u32) -> Result<(), Fault> {
    let lists = [room(alloc, ROOM)];
    keep(receipts, Receipts { slot, lists })
}

fn add_lists(alloc: Global, receipts: &mut Vec<Receipts>, slots: &[Slot]) -> Result<(), Fault> {
    for slot in slots {
        add_list(alloc, receipts, slot.number())?;
    }
    Ok(())
}

/// Room for the receipts of each slot.
pub(crate) fn empty_receipts(alloc: Global, office: &Office) -> Result<Vec<Receipts>, Fault> {
    let slots = office.slots();
    let mut receipts = room(alloc, slots.len());
    match add_lists(alloc, &mut receipts, slots) {
        Ok(()) => Ok(receipts),
        Err(fault) => {
            drop(receipts);
            Err(fault)
        }
    }
}

/// Room for so many items, asked for once more where there is no memory for it.
pub(crate) fn room<T: Drop>(alloc: Global, count: usize) -> Vec<T> {
    let room = Vec::with_capacity(alloc, count).or_else(|_| Vec::with_capacity(alloc, count));
    match room {
        Ok(room) => room,
        Err(_) => Vec::new(alloc),
    }
}

/// Adds an item, for which there is room.
pub(crate) fn keep<T: Drop>(items: &mut Vec<T>, item: T) -> Result<(), Fault> {
    match items.push(item) {
        Ok(()) => Ok(()),
        Err(refused) => {
            drop(refused);
            Err(Fault::Unmade)
        }
    }
}

/// Opens a session with the book of a slot.
fn add<'o>(
    rt: &impl Wait,
    office: &'o Office,
    sessions: &mut Vec<Session<'o>>,
    slot: u32,
    party: Name,
) -> Result<(), Fault> {
    match office.session(rt, slot, party) {
        Ok(session) => keep(sessions, session),
        Err(_) => Err(Fault::Unforeseen),
    }
}

/// Opens a session with the book of each slot, in room that is there.
pub(crate) fn open_all<'o>(
    rt: &(impl Wait + Print),
    office: &'o Office,
    sessions: &mut Vec<Session<'o>>,
) -> Result<(), Fault> {
    let party = name(PARTY)?;
    for slot in office.slots() {
        add(rt, office, sessions, slot.number(), party)?;
        tell(rt, "session", office, sessions.as_slice())?;
    }
    Ok(())
}
