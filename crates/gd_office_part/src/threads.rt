//! The calls of sessions, each session in a thread of its own.

ghost use Rattle.std.specs.Prelude.{◌≡◌, ◌≢◌, ◌↔◌, [], ◌∷◌, ◌++◌, length as len_of, map, All, IsTrue, IfOk, IfErr, OnOk, OnErr};
ghost use Rattle.std.specs.List.{AllZip};
ghost use Rattle.gd_office_part.specs.Counting.{counted_all};
ghost use Rattle.gd_office_part.specs.Sending as spec;
ghost use Rattle.gd_office_part.specs.StepResults.{Stepped};
ghost use Rattle.gd_office_part.specs.declared.threads.SendFault.TheVariants as fault;

use crate::call::Call;
use crate::days::Days;
use crate::kept::Receipt;
use crate::numbers::Numbers;
use crate::sent::Sent;
use crate::session::{Session, Slot, step_by};
use gd_units::{Moment, Name};
use std::alloc::{AllocError, Global};
use std::marker::PhantomData;
use std::snapshot::Snapshot;
use std::sync::Wait;
use std::thread;
use std::thread::{Promise, PromisedHandle, Threads};

/// The calls of one session in their order, who makes them, and the place of its slot among the slots, from 0.
#[derive(Drop)]
pub struct SessionRows {
    pub slot: usize,
    pub party: Name,
    pub calls: Vec<Call>,
}

/// Sessions that are run together, and the moment of the desks that come after them.
#[derive(Drop)]
pub struct Phase {
    pub sessions: Vec<SessionRows>,
    pub moment: Moment,
}

/// Why the calls of sessions were not all made.
#[derive(Clone, Copy, Debug, PartialEq, Eq, Drop)]
pub enum SendFault {
    /// At the place of a slot there is none, or one that is not its session's.
    OtherSlot,
    /// A thread could not be started.
    NoThread,
    /// Memory was refused.
    OutOfMemory,
}

impl From<AllocError> for SendFault {
    ghost from_gives = { λ _ f. f ≡ fault.OutOfMemory };

    fn from(_e: AllocError) -> SendFault {
        SendFault::OutOfMemory
    }
}

/// What a thread is told of its session: the slot whose book it calls, who calls, and what was counted before.
#[derive(Clone, Copy)]
struct Start {
    slot: u32,
    party: Name,
    numbers: Numbers,
}

/// What a thread promises: a receipt of each of these calls, each of one step of the book of this slot.
#[derive(Drop)]
struct SentOf<J: Days> {
    slot: u32,
    party: Name,
    start: Numbers,
    calls: Snapshot<Vec<Call>>,
    of: PhantomData<J>,
}

impl<J: Days> Promise<Result<Sent, AllocError>> for SentOf<J> {
    ghost kept_by = { λ p r. IfOk r (λ sent.
        (spec.sent_as sent ≡ spec.asked p.slot p.party p.start p.calls.value.items)
        × spec.IsStepped J.days sent) };
}

/// How many calls a session makes under one taking of the lock (own). Where many sessions call one book, each taking may
/// have to wait.
const BLOCK: usize = 64;

/// Makes calls of this party in their order, under one taking of the lock, and gives the session's numbers after them.
fn make_block<R: Wait, J: Days>(
    rt: &R,
    slot: &Slot<J>,
    party: Name,
    before: Numbers,
    calls: &[Call],
    receipts: &mut Vec<Receipt>,
) -> Result<Numbers, AllocError>
    ensures sent { OnOk result (spec.events_of receipts.new.items
        ≡ spec.events_of receipts.old.items ++ spec.events_by party calls.now) }
    ensures stepped { All (Stepped J.days slot.now.number) receipts.old.items
        → OnOk result (All (Stepped J.days slot.now.number) receipts.new.items) }
    ensures counted { (start : Numbers) → before ≡ counted_all start receipts.old.items
        → IfOk result (λ after. after ≡ counted_all start receipts.new.items) }
{
    let mut kept = slot.lock(rt);
    let mut numbers = before;
    for call in calls {
        let (receipt, next) = step_by(&mut kept, slot.board(), numbers, party, *call)?;
        receipts.push(receipt)?;
        numbers = next;
    }
    Ok(numbers)
}

/// Makes the calls of one session in their order, block by block.
fn make_calls<R: Wait, J: Days>(
    rt: &R,
    alloc: Global,
    slot: &Slot<J>,
    start: &Start,
    calls: &[Call],
) -> Result<Sent, AllocError>
    ensures { IfOk result (λ sent. (spec.sent_as sent
        ≡ spec.asked slot.now.number start.now.party start.now.numbers calls.now)
        × spec.IsStepped J.days sent) }
{
    let mut receipts = Vec::with_capacity(alloc, calls.len())?;
    let mut numbers = start.numbers;
    let mut left = calls;
    'rest: while !left.is_empty() {
        let (block, later) = left.split_at(left.len().min(BLOCK));
        numbers = make_block(rt, slot, start.party, numbers, block, &mut receipts)?;
        left = later;
    }
    Ok(Sent::of(slot.number(), start.numbers, receipts, numbers))
}

/// Adds an item, where there is memory for it.
fn keep<T: Drop>(items: &mut Vec<T>, item: T) -> Result<(), AllocError>
    ensures { OnOk result (items.new.items ≡ items.old.items ++ item ∷ []) }
{
    items.push(item)?;
    Ok(())
}

/// What all threads hand back, in the order of the sessions.
fn join_all<R: Threads, J: Days>(
    rt: &R,
    alloc: Global,
    starts: &[Start],
    rows: &[SessionRows],
    children: Vec<PromisedHandle<Result<Sent, AllocError>, SentOf<J>>>,
) -> Result<Vec<Sent>, SendFault>
    requires { map (λ h. spec.asked h.promise.slot h.promise.party h.promise.start h.promise.calls.value.items) children.items
        ≡ spec.asked_all starts.now rows.now }
    ensures sent { IfOk result (λ all. map spec.sent_as all.items ≡ spec.asked_all starts.now rows.now) }
    ensures stepped { IfOk result (λ all. All (spec.IsStepped J.days) all.items) }
    ensures memory { IfErr result (λ why. why ≡ fault.OutOfMemory) }
{
    let _ = starts;
    let _ = rows;
    let mut all = Vec::with_capacity(alloc, children.len())?;
    for child in children {
        let sent = child.join(rt)?;
        keep(&mut all, sent)?;
    }
    Ok(all)
}

/// Makes the calls of all sessions, each session in its own thread, and waits for all. The slots are there.
fn send_all<R: Threads + Wait + Sync, J: Days + Send + Sync>(
    rt: &R,
    alloc: Global,
    slots: &[Slot<J>],
    starts: &[Start],
    rows: &[SessionRows],
) -> Result<Vec<Sent>, SendFault>
    requires starts { len_of starts.now ≡ len_of rows.now }
    requires slots { AllZip (λ start row. spec.IsAtSlot slots.now start.slot row) starts.now rows.now }
    ensures sent { IfOk result (λ all. map spec.sent_as all.items ≡ spec.asked_all starts.now rows.now) }
    ensures stepped { IfOk result (λ all. All (spec.IsStepped J.days) all.items) }
    ensures other { IfErr result (λ why. why ≢ fault.OtherSlot) }
{
    thread::scope(
        thread::scope_env(),
        rt,
        |scope| -> Result<Vec<Sent>, SendFault>
            requires starts { len_of starts.now ≡ len_of rows.now }
            requires slots { AllZip (λ start row. spec.IsAtSlot slots.now start.slot row) starts.now rows.now }
            ensures sent { IfOk result (λ all. map spec.sent_as all.items ≡ spec.asked_all starts.entry.now rows.entry.now) }
            ensures stepped { IfOk result (λ all. All (spec.IsStepped J.days) all.items) }
            ensures other { IfErr result (λ why. why ≢ fault.OtherSlot) }
        {
            let mut children = Vec::with_capacity(alloc, rows.len())?;
            for at in 0..rows.len() {
                let row = &rows[at];
                let start = &starts[at];
                let slot = &slots[row.slot];
                let promise = SentOf {
                    slot: slot.number(),
                    party: start.party,
                    start: start.numbers,
                    calls: Snapshot::of(&row.calls),
                    of: PhantomData::<J>,
                };
                let calls = row.calls.as_slice();
                let Ok(child) = scope.spawn_with(
                    promise,
                    move || -> Result<Sent, AllocError>
                        ensures { IfOk result (λ sent. (spec.sent_as sent
                            ≡ spec.asked slot.entry.now.number start.entry.now.party start.entry.now.numbers calls.entry.now)
                            × spec.IsStepped J.days sent) }
                    { make_calls(rt, alloc, slot, start, calls) },
                ) else {
                    return Err(SendFault::NoThread);
                };
                keep(&mut children, child)?;
            }
            join_all(rt, alloc, starts, rows, children)
        },
    )
}

/// What the threads are told of these sessions.
fn starts_of<J: Days>(alloc: Global, sessions: &[Session<'_, J>]) -> Result<Vec<Start>, AllocError>
    ensures { IfOk result (λ starts. starts.items ≡ map spec.start_of sessions.now) }
{
    let mut starts = Vec::with_capacity(alloc, sessions.len())?;
    for session in sessions {
        starts.push(Start {
            slot: session.slot(),
            party: session.party(),
            numbers: session.numbers(),
        })?;
    }
    Ok(starts)
}

/// The numbers that were counted last, and the lists of receipts.
fn taken_apart(
    alloc: Global,
    all: Vec<Sent>,
) -> Result<(Vec<Numbers>, Vec<Vec<Receipt>>), AllocError>
    ensures numbers { IfOk result (λ both. both.0.items ≡ map (λ s. s.numbers) all.items) }
    ensures lists { IfOk result (λ both. spec.lists_of both.1.items ≡ map (λ s. s.receipts.items) all.items) }
{
    let mut numbers = Vec::with_capacity(alloc, all.len())?;
    let mut lists = Vec::with_capacity(alloc, all.len())?;
    for sent in all {
        numbers.push(sent.numbers)?;
        lists.push(sent.receipts)?;
    }
    Ok((numbers, lists))
}

/// Gives each session its numbers.
fn count_all<J: Days>(sessions: &mut [Session<'_, J>], numbers: &[Numbers])
    requires { len_of sessions.old ≡ len_of numbers.now }
    ensures numbers { map (λ s. s.numbers) sessions.new ≡ numbers.now }
    ensures kept { map spec.kept_of sessions.new ≡ map spec.kept_of sessions.old }
{
    for at in 0..numbers.len() {
        let session = &mut sessions[at];
        session.count(numbers[at]);
    }
}

/// Whether the slot at the place of these rows is the session's.
fn is_of_slot<J: Days>(slots: &[Slot<J>], session: &Session<'_, J>, rows: &SessionRows) -> bool
    ensures { IsTrue result ↔ spec.IsOfSlot slots.now session.now rows.now }
{
    match slots.get(rows.slot) {
        Some(slot) => slot.number() == session.slot(),
        None => false,
    }
}

/// Whether the slots at the places of these rows are the sessions'.
fn are_of_slots<J: Days>(
    slots: &[Slot<J>],
    sessions: &[Session<'_, J>],
    rows: &[SessionRows],
) -> bool
    requires { len_of sessions.now ≡ len_of rows.now }
    ensures { IsTrue result ↔ AllZip (spec.IsOfSlot slots.now) sessions.now rows.now }
{
    for at in 0..rows.len() {
        if !is_of_slot(slots, &sessions[at], &rows[at]) {
            return false;
        }
    }
    true
}

/// Makes the calls of each session in their order, each session in a thread of its own, and waits for all. Each session
/// counts what its receipts tell. It waits for the locks of the slots.
///
/// # Errors
///
/// `OtherSlot` exactly where a session isn't of the slot at its place, before any call is made; `NoThread` and `OutOfMemory`, after which calls may have been made whose receipts
/// are lost. No session counts anything then, and its slot can't be closed any more.
pub fn send<R: Threads + Wait + Sync, J: Days + Send + Sync>(
    rt: &R,
    alloc: Global,
    slots: &[Slot<J>],
    sessions: &mut [Session<'_, J>],
    rows: &[SessionRows],
) -> Result<Vec<Vec<Receipt>>, SendFault>
    requires { len_of sessions.old ≡ len_of rows.now }
    ensures slots { OnOk result (AllZip (spec.IsOfSlot slots.now) sessions.old rows.now) }
    ensures exact { AllZip (spec.IsOfSlot slots.now) sessions.old rows.now → IfErr result (λ why. why ≢ fault.OtherSlot) }
    ensures sent { IfOk result (λ lists. spec.AreSent sessions.old rows.now (spec.lists_of lists.items)) }
    ensures stepped { IfOk result (λ lists. spec.AreStepped J.days sessions.old (spec.lists_of lists.items)) }
    ensures counted { IfOk result (λ lists. spec.AreCounted sessions.old (spec.lists_of lists.items) sessions.new) }
    ensures kept { map spec.kept_of sessions.new ≡ map spec.kept_of sessions.old }
    ensures err { OnErr result (sessions.new ≡ sessions.old) }
{
    if !are_of_slots(slots, sessions, rows) {
        return Err(SendFault::OtherSlot);
    }
    let starts = starts_of(alloc, sessions)?;
    let all = send_all(rt, alloc, slots, starts.as_slice(), rows)?;
    let (numbers, lists) = taken_apart(alloc, all)?;
    count_all(sessions, numbers.as_slice());
    Ok(lists)
}
