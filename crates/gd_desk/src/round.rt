//! The round of the desks, each in a thread of its own.

ghost use Rattle.std.specs.Prelude.{◌≡◌, ℕ, IfOk, IfSome, length as len_of, vec_len};
ghost use Rattle.gd_office.specs.Slots.{AreNumbered};
ghost use Rattle.gd_desk.specs.Desks as spec;

use crate::closing::{answer_from, closing};
use crate::desk::{Desk, DeskFault};
use crate::freezing::{freeze, step};
use crate::gate::Gate;
use gd_board::BoardNote;
use gd_office::Office;
use gd_office_part::{Days, Receipt, Slot};
use gd_question::Question;
use gd_units::Moment;
use std::alloc::{AllocError, Global};
use std::marker::PhantomData;
use std::sync::Wait;
use std::thread;
use std::thread::{Promise, PromisedHandle, Threads};
use std::time::Clock;

/// Solves the question that was found frozen, passes the gate, and publishes or declares it.
fn settle<R: Threads + Wait + Clock + Sync, G: Gate, J: Days>(
    rt: &R,
    alloc: Global,
    slot: &Slot<J>,
    moment: Moment,
    note: &mut BoardNote,
    question: &Question,
    gate: &G,
) -> Result<Receipt, AllocError>
    requires { note.old.cells ≡ slot.now.board }
    ensures { IfOk result (spec.Closes J.days slot.now.number moment question.now) }
{
    let answer = answer_from(alloc, slot.board(), note, question)?;
    gate.pass(rt, slot.number());
    let event = closing(rt, alloc, moment, question, answer)?;
    step(rt, slot, event, note)
}

/// Freezes the book of a slot, and closes the question that is frozen then.
fn work<R: Threads + Wait + Clock + Sync, G: Gate, J: Days>(
    rt: &R,
    alloc: Global,
    slot: &Slot<J>,
    moment: Moment,
    gate: &G,
) -> Result<Desk, DeskFault>
    ensures { IfOk result (spec.IsDesk J.days slot.now.number moment) }
{
    let mut note = slot.board().note();
    let (froze, asked) = freeze(rt, slot, moment, &mut note)?;
    let Some(question) = asked else {
        return Ok(Desk {
            froze,
            question: None,
            closed: None,
        });
    };
    match settle(rt, alloc, slot, moment, &mut note, &question, gate) {
        Ok(closed) => Ok(Desk {
            froze,
            question: Some(question),
            closed: Some(closed),
        }),
        Err(fault) => {
            drop(froze);
            drop(question);
            Err(fault.into())
        }
    }
}

/// The same at a moment that another thread holds.
fn work_at<R: Threads + Wait + Clock + Sync, G: Gate, J: Days>(
    rt: &R,
    alloc: Global,
    slot: &Slot<J>,
    moment: &Moment,
    gate: &G,
) -> Result<Desk, DeskFault>
    ensures { IfOk result (spec.IsDesk J.days slot.now.number moment.now) }
{
    work(rt, alloc, slot, *moment, gate)
}

/// What a thread promises: the desk of this slot and moment.
#[derive(Drop)]
struct DeskAt<J: Days> {
    slot: u32,
    moment: Moment,
    of: PhantomData<J>,
}

impl<J: Days> Promise<Result<Desk, DeskFault>> for DeskAt<J> {
    ghost kept_by = { λ p r. IfOk r (spec.IsDesk J.days p.slot p.moment) };
}

/// What one thread hands back, if it could be started.
fn joined<R: Threads, J: Days>(
    rt: &R,
    moment: &Moment,
    child: Option<PromisedHandle<Result<Desk, DeskFault>, DeskAt<J>>>,
) -> Result<Desk, DeskFault>
    ensures { (slot : ℕ) → IfSome child (λ h. (h.promise.slot ≡ slot) × (h.promise.moment ≡ moment.now))
        → IfOk result (spec.IsDesk J.days slot moment.now) }
{
    let _ = moment;
    match child {
        Some(handle) => handle.join(rt),
        None => Err(DeskFault::NoThread),
    }
}

/// What all threads hand back, in the order of the slots.
fn join_all<R: Threads, J: Days>(
    rt: &R,
    alloc: Global,
    moment: &Moment,
    children: Vec<Option<PromisedHandle<Result<Desk, DeskFault>, DeskAt<J>>>>,
) -> Result<Vec<Result<Desk, DeskFault>>, AllocError>
    requires { spec.EachFrom (λ slot child. IfSome child (λ h. (h.promise.slot ≡ slot)
        × (h.promise.moment ≡ moment.now))) 1 children.items }
    ensures len { IfOk result (λ desks. vec_len desks ≡ vec_len children) }
    ensures each { IfOk result (λ desks. spec.AreTried J.days moment.now desks.items) }
{
    let mut desks = Vec::with_capacity(alloc, children.len())?;
    for child in children {
        desks.push(joined(rt, moment, child))?;
    }
    Ok(desks)
}

/// Starts a thread for each slot, and waits for all.
fn round_of<R: Threads + Wait + Clock + Sync, G: Gate + Sync, J: Days + Send + Sync>(
    rt: &R,
    alloc: Global,
    moment: &Moment,
    slots: &[Slot<J>],
    gate: &G,
) -> Result<Vec<Result<Desk, DeskFault>>, AllocError>
    requires { AreNumbered slots.now }
    ensures len { IfOk result (λ desks. vec_len desks ≡ len_of slots.now) }
    ensures each { IfOk result (λ desks. spec.AreTried J.days moment.now desks.items) }
{
    thread::scope(
        thread::scope_env(),
        rt,
        |scope| -> Result<Vec<Result<Desk, DeskFault>>, AllocError>
            requires { AreNumbered slots.now }
            ensures len { IfOk result (λ desks. vec_len desks ≡ len_of slots.entry.now) }
            ensures each { IfOk result
                (λ desks. spec.AreTried J.days moment.entry.now desks.items) }
        {
            let mut children = Vec::with_capacity(alloc, slots.len())?;
            for slot in slots {
                let promise: DeskAt<J> = DeskAt {
                    slot: slot.number(),
                    moment: *moment,
                    of: PhantomData,
                };
                let child = scope.spawn_with(
                    promise,
                    move || work_at(rt, alloc, slot, moment, gate),
                );
                children.push(child.ok())?;
            }
            join_all(rt, alloc, moment, children)
        },
    )
}

/// The desks of an office at a moment, one for each slot, in the order of the slots.
///
/// Each works in a thread of its own: it freezes the book under the slot's lock, or takes the question that is frozen
/// already; solves it without the lock, from what was published last; passes the gate and has its prices checked, still
/// without it; and publishes or declares under it.
///
/// # Errors
///
/// Want of memory before any thread is waited for. A slot whose thread can't be started is `NoThread`, one whose desk wants
/// memory `OutOfMemory`; a freeze that it accepted stands, and the next round takes its question.
pub fn desk_round<R: Threads + Wait + Clock + Sync, G: Gate + Sync, J: Days + Send + Sync>(
    rt: &R,
    alloc: Global,
    moment: Moment,
    office: &Office<J>,
    gate: &G,
) -> Result<Vec<Result<Desk, DeskFault>>, AllocError>
    ensures len { IfOk result (λ desks. vec_len desks ≡ len_of office.now.slots.items) }
    ensures each { IfOk result (λ desks. spec.AreTried J.days moment desks.items) }
{
    round_of(rt, alloc, &moment, office.slots(), gate)
}
