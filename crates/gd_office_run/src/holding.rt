//! What an office's run holds of its slots until they end.

ghost use Rattle.std.specs.Prelude.{◌≡◌, ◌+◌, ◌<◌, ◌≤◌, ℕ, OnOk, IfOk, map, length as len_of};
ghost use Rattle.gd_office.specs.Slots.{AreNumbered};
ghost use Rattle.gd_office_part.specs.Sending.{lists_of};
ghost use Rattle.gd_office_run.specs.Shares as spec;

use crate::end::{End, end_slot};
use crate::slot::{distribute, give, lists_for, take_at};
use gd_office_part::{Days, Receipt, Session, SessionRows, Slot};
use std::alloc::{AllocError, Global};
use std::sync::Wait;

/// What is held of each slot, by its place: its sessions, the receipts and the number of each, and the receipts of its desk.
#[derive(Drop)]
pub(crate) struct Holding<'o, J: Days> {
    sessions: Vec<Vec<Session<'o, J>>>,
    lists: Vec<Vec<Vec<Receipt>>>,
    numbers: Vec<Vec<u64>>,
    desks: Vec<Vec<Receipt>>,
}

impl<'o, J: Days> Holding<'o, J> {
    /// Nothing yet of so many slots. The only error is want of memory.
    pub(crate) fn new(alloc: Global, slots: usize) -> Result<Holding<'o, J>, AllocError>
        ensures slots { IfOk result (λ holding. spec.IsOf slots holding) }
        ensures nothing { IfOk result (λ holding. (k : ℕ) → k < slots
            → spec.share_at holding k ≡ spec.nothing) }
    {
        Ok(Holding {
            sessions: lists_for(alloc, slots)?,
            lists: lists_for(alloc, slots)?,
            numbers: lists_for(alloc, slots)?,
            desks: lists_for(alloc, slots)?,
        })
    }

    /// Takes the sessions of a phase, with the receipts and the number of each, each for its slot. The only error is want of
    /// memory.
    pub(crate) fn take_sessions(
        &mut self,
        rows: &[SessionRows],
        sessions: Vec<Session<'o, J>>,
        lists: Vec<Vec<Receipt>>,
        numbers: Vec<u64>,
    ) -> Result<(), AllocError>
        requires sessions { len_of sessions.items ≡ len_of rows.now }
        requires lists { len_of lists.items ≡ len_of rows.now }
        requires numbers { len_of numbers.items ≡ len_of rows.now }
        ensures { (slots : ℕ) → spec.IsOf slots self.old → OnOk result
            (spec.IsOf slots self.new × spec.Gains slots self.old self.new
            (λ k. spec.of_sessions k rows.now (map (λ s. s.numbers) sessions.entry.items)
            (lists_of lists.items) numbers.items)) }
    {
        distribute(&mut self.sessions, rows, sessions)?;
        distribute(&mut self.lists, rows, lists)?;
        distribute(&mut self.numbers, rows, numbers)?;
        Ok(())
    }

    /// Takes the receipts of the desk of the slot at this place. The only error is want of memory.
    pub(crate) fn take_desk(
        &mut self,
        slot: usize,
        froze: Receipt,
        closed: Option<Receipt>,
    ) -> Result<(), AllocError>
        ensures { (slots : ℕ) → spec.IsOf slots self.old → OnOk result
            (spec.IsOf slots self.new × spec.Gains slots self.old self.new
            (λ k. spec.of_desk slot k froze closed)) }
    {
        give(&mut self.desks, slot, froze)?;
        if let Some(closed) = closed {
            give(&mut self.desks, slot, closed)?;
        }
        Ok(())
    }
}

/// The end of this slot, which stands at this place.
fn end_at<R: Wait, J: Days>(
    rt: &R,
    alloc: Global,
    slot: &Slot<J>,
    holding: &mut Holding<'_, J>,
    at: usize,
) -> Result<End, AllocError>
    requires there { (slots : ℕ) × spec.IsOf slots holding.old × (at < slots) }
    ensures ends { IfOk result (spec.EndsBy J.days slot.now.number (spec.share_at holding.old at)) }
    ensures same { (slots : ℕ) → spec.IsOf slots holding.old → spec.IsOf slots holding.new }
    ensures others { (k : ℕ) → at < k → spec.share_at holding.new k ≡ spec.share_at holding.old k }
{
    let sessions = take_at(alloc, &mut holding.sessions, at);
    let lists = take_at(alloc, &mut holding.lists, at);
    let numbers = take_at(alloc, &mut holding.numbers, at);
    let desk = take_at(alloc, &mut holding.desks, at);
    end_slot(rt, alloc, slot, sessions, desk, lists, numbers.as_slice())
}

/// Ends these slots in order, of which this is held. It waits for the lock of each. The only error is want of memory.
pub(crate) fn end_slots<R: Wait, J: Days>(
    rt: &R,
    alloc: Global,
    slots: &[Slot<J>],
    holding: Holding<'_, J>,
) -> Result<Vec<End>, AllocError>
    requires numbered { AreNumbered slots.now }
    requires holding { spec.IsOf (len_of slots.now) holding }
    ensures len { IfOk result (λ ends. len_of ends.items ≡ len_of slots.now) }
    ensures ends { IfOk result (λ ends. spec.EndFrom J.days (spec.share_at holding.entry) 0 ends.items) }
{
    let mut holding = holding;
    let mut ends = Vec::with_capacity(alloc, slots.len())?;
    for at in 0..slots.len() {
        let end = end_at(rt, alloc, &slots[at], &mut holding, at)?;
        ends.push(end)?;
    }
    Ok(ends)
}
