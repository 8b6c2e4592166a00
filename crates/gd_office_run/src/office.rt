//! A whole run.

ghost use Rattle.std.specs.Prelude.{◌≡◌, ◌+◌, ◌≤◌, ◌^◌, ◌++◌, ℕ, [], true, IfOk, IfSome, OnOk, OnErr, vec_len, length as len_of};
ghost use Rattle.std.specs.List.{list_all};
ghost use Rattle.gd_office_run.specs.Runs as spec;
ghost use Rattle.gd_office_run.specs.RunShares as shares;
ghost use Rattle.gd_office_run.specs.RunRows as spec_told;
ghost use Rattle.gd_office_run.specs.Shares.{IsOf};

use crate::end::End;
use crate::fault::RunFault;
use crate::holding::{Holding, end_slots};
use crate::phase::{hold, rows_of, run_phase, without_calls};
use gd_desk::Gate;
use gd_office::Office;
use gd_office_part::{Days, Phase};
use gd_replies::Reply;
use std::alloc::{AllocError, Global};
use std::sync::Wait;
use std::thread::Threads;
use std::time::Clock;

/// The number of the first session behind a phase, if it is small.
fn next_number(first: u64, phase: &Phase) -> Option<u64>
    ensures { IfSome result (λ n. (n ≡ first + vec_len phase.now.sessions) × (n ≤ 2 ^ 62)) }
{
    let next = first.checked_add(phase.sessions.len() as u64)?;
    if next <= 1 << 62 { Some(next) } else { None }
}

/// Tells these rows behind the others. Where there are none, nothing is copied.
fn tell(rows: &mut Vec<Reply>, told: Vec<Reply>) -> Result<(), AllocError>
    ensures ok { OnOk result (rows.new.items ≡ rows.old.items ++ told.items) }
    ensures err { OnErr result (rows.new.items ≡ rows.old.items) }
{
    if rows.is_empty() {
        *rows = told;
        return Ok(());
    }
    let mut told = told;
    rows.append(&mut told)
}

/// Runs a phase whose first session has this number, tells it, and holds what it gave. Of its calls nothing is left when their
/// receipts are told, which have them too.
fn take_phase<'o, R: Threads + Wait + Clock + Sync, G: Gate + Sync, J: Days + Send + Sync>(
    rt: &R,
    alloc: Global,
    office: &'o Office<J>,
    gate: &G,
    holding: &mut Holding<'o, J>,
    first: u64,
    phase: Phase,
    rows: &mut Vec<Reply>,
) -> Result<(), RunFault>
    requires first { first ≤ 2 ^ 62 }
    requires holding { IsOf (len_of office.now.slots.items) holding.old }
    ensures ok { OnOk result (shares.Adds J.days (len_of office.now.slots.items) first phase
        rows.old.items holding.old rows.new.items holding.new) }
    ensures err { OnErr result (rows.new.items ≡ rows.old.items) }
{
    let given = run_phase(rt, alloc, office, &phase, gate)?;
    let phase = without_calls(alloc, phase)?;
    let told = rows_of(alloc, first, &given)?;
    hold(alloc, holding, first, &phase, given)?;
    tell(rows, told)?;
    Ok(())
}

/// Runs phases in order. Where that fails, the rows are those of the first phases.
fn run_phases<'o, R: Threads + Wait + Clock + Sync, G: Gate + Sync, J: Days + Send + Sync>(
    rt: &R,
    alloc: Global,
    office: &'o Office<J>,
    phases: Vec<Phase>,
    gate: &G,
    holding: &mut Holding<'o, J>,
    rows: &mut Vec<Reply>,
) -> Result<(), RunFault>
    requires holding { shares.Holds (len_of office.now.slots.items) holding.old [] }
    requires empty { rows.old.items ≡ [] }
    ensures ok { OnOk result (shares.HoldsRun J.days (len_of office.now.slots.items) phases.items
        rows.new.items holding.new) }
    ensures err { OnErr result (spec_told.EndsEarly J.days (len_of office.now.slots.items) phases.items
        rows.new.items) }
{
    let mut first: u64 = 1;
    for phase in phases {
        let Some(next) = next_number(first, &phase) else {
            return Err(RunFault::TooMany);
        };
        take_phase(rt, alloc, office, gate, holding, first, phase, rows)?;
        first = next;
    }
    Ok(())
}

/// The row of the end of a slot.
fn end_reply(slot: u64, end: End) -> Reply
    ensures { result ≡ spec_told.end_row slot end }
{
    match end {
        End::Reconciled {
            events,
            nominations,
            dekatherms,
        } => Reply::Reconciled {
            slot,
            events,
            nominations,
            dekatherms,
        },
        End::Misfit { list, index } => Reply::Mismatch { slot, list, index },
        End::Missing(count) => Reply::Missing { slot, count },
    }
}

/// The rows of the ends of the slots.
fn ends_replies(alloc: Global, ends: &[End]) -> Result<Vec<Reply>, AllocError>
    ensures { IfOk result (λ rows. rows.items ≡ spec_told.ends_rows 1 ends.now) }
{
    let mut rows = Vec::with_capacity(alloc, ends.len())?;
    for at in 0..ends.len() {
        rows.push(end_reply(at as u64 + 1, ends[at]))?;
    }
    Ok(rows)
}

/// Whether all slots are reconciled.
fn all_reconciled(ends: &[End]) -> bool
    ensures { result ≡ list_all spec_told.is_reconciled ends.now }
{
    for end in ends {
        if !matches!(end, End::Reconciled { .. }) {
            return false;
        }
    }
    true
}

/// Runs phases in order: in each the calls of its sessions, each session in a thread of its own, and when all have ended the
/// round of the desks. Then it closes the sessions of each slot, and holds all receipts that were given against its book.
/// `told`, which is empty, gets the rows that tell this: the receipts by session and the desks by slot for each phase, and
/// then how each slot ends. Answers whether all slots are reconciled. It waits for the locks of the slots.
///
/// # Errors
///
/// `NoThread`, `TooMany` or `OutOfMemory`, by what failed first. Then `told` has the rows of the first phases, each of them
/// whole. What was accepted stands.
pub fn run<R: Threads + Wait + Clock + Sync, G: Gate + Sync, J: Days + Send + Sync>(
    rt: &R,
    alloc: Global,
    office: &Office<J>,
    phases: Vec<Phase>,
    gate: &G,
    told: &mut Vec<Reply>,
) -> Result<bool, RunFault>
    requires { told.old.items ≡ [] }
    ensures ok { IfOk result (spec_told.TellsRun J.days (len_of office.now.slots.items) phases.items
        told.new.items) }
    ensures err { OnErr result (spec_told.EndsEarly J.days (len_of office.now.slots.items) phases.items
        told.new.items) }
{
    let mut holding = Holding::new(alloc, office.slots().len())?;
    run_phases(rt, alloc, office, phases, gate, &mut holding, told)?;
    let ends = end_slots(rt, alloc, office.slots(), holding)?;
    let mut last = ends_replies(alloc, ends.as_slice())?;
    told.append(&mut last)?;
    Ok(all_reconciled(ends.as_slice()))
}
