//! One phase of a run.

ghost use Rattle.std.specs.Prelude.{◌≡◌, ◌≤◌, ◌^◌, ℕ, IfOk, OnOk, map, vec_len, length as len_of};
ghost use Rattle.std.specs.List.{All, range_with_len};
ghost use Rattle.gd_office_part.specs.Sending.{lists_of};
ghost use Rattle.gd_office_run.specs.Desks.{IsEndShaped};
ghost use Rattle.gd_office_run.specs.Runs as spec;
ghost use Rattle.gd_office_run.specs.RunShares as shares;
ghost use Rattle.gd_office_run.specs.Shares.{IsOf, Gains, slots_of};

use crate::desks::{desks_of, hold_desks, push_desks};
use crate::fault::RunFault;
use crate::holding::Holding;
use crate::opened::open_all;
use crate::receipts::push_sessions;
use gd_desk::{Desk, Gate, desk_round};
use gd_office::Office;
use gd_office_part::{Days, Phase, Receipt, Session, SessionRows, send};
use gd_replies::Reply;
use std::alloc::{AllocError, Global};
use std::sync::Wait;
use std::thread::Threads;
use std::time::Clock;

/// What a phase gave: its sessions, the receipts of each, and the desks of the slots.
#[derive(Drop)]
pub(crate) struct Given<'o, J: Days> {
    pub(crate) sessions: Vec<Session<'o, J>>,
    pub(crate) lists: Vec<Vec<Receipt>>,
    pub(crate) desks: Vec<Desk>,
}

/// Makes the calls of a phase's sessions, and lets the desks go round.
pub(crate) fn run_phase<
    'o,
    R: Threads + Wait + Clock + Sync,
    G: Gate + Sync,
    J: Days + Send + Sync,
>(
    rt: &R,
    alloc: Global,
    office: &'o Office<J>,
    phase: &Phase,
    gate: &G,
) -> Result<Given<'o, J>, RunFault>
    ensures gives { IfOk result (λ given. spec.Gives J.days (len_of office.now.slots.items) phase.now
        (lists_of given.lists.items) given.desks.items) }
    ensures counted { IfOk result (λ given. map (λ s. s.numbers) given.sessions.items
        ≡ spec.counts_of (lists_of given.lists.items)) }
{
    let rows = phase.sessions.as_slice();
    let mut sessions = open_all(rt, alloc, office, rows)?;
    let lists = send(rt, alloc, office.slots(), sessions.as_mut_slice(), rows)?;
    let given = desk_round(rt, alloc, phase.moment, office, gate)?;
    let desks = desks_of(alloc, given)?;
    Ok(Given {
        sessions,
        lists,
        desks,
    })
}

/// A phase of whose calls nothing is left. The only error is want of memory.
pub(crate) fn without_calls(alloc: Global, phase: Phase) -> Result<Phase, AllocError>
    ensures slots { IfOk result (λ left. slots_of left ≡ slots_of phase) }
    ensures len { IfOk result (λ left. vec_len left.sessions ≡ vec_len phase.sessions) }
{
    let Phase { sessions, moment } = phase;
    let mut left = Vec::with_capacity(alloc, sessions.len())?;
    for session in sessions {
        let SessionRows { slot, party, .. } = session;
        let calls = Vec::new(alloc);
        left.push(SessionRows { slot, party, calls })?;
    }
    Ok(Phase {
        sessions: left,
        moment,
    })
}

/// The rows that tell what a phase gave, whose first session has this number.
pub(crate) fn rows_of<J: Days>(
    alloc: Global,
    first: u64,
    given: &Given<'_, J>,
) -> Result<Vec<Reply>, AllocError>
    requires first { first ≤ 2 ^ 62 }
    requires few { vec_len given.now.desks ≤ 2 ^ 31 }
    requires each { All (λ desk. IsEndShaped desk.question desk.closed) given.now.desks.items }
    ensures { IfOk result (λ rows. rows.items
        ≡ spec.phase_rows first (lists_of given.now.lists.items) given.now.desks.items) }
{
    let mut rows = Vec::new(alloc);
    push_sessions(&mut rows, first, given.lists.as_slice())?;
    push_desks(alloc, &mut rows, given.desks.as_slice())?;
    Ok(rows)
}

/// So many numbers from this one on.
fn numbers_from(alloc: Global, first: u64, count: usize) -> Result<Vec<u64>, AllocError>
    requires { first ≤ 2 ^ 62 }
    ensures { IfOk result (λ numbers. numbers.items ≡ range_with_len first count) }
{
    let mut numbers = Vec::with_capacity(alloc, count)?;
    for at in 0..count {
        numbers.push(first + at as u64)?;
    }
    Ok(numbers)
}

/// Holds what a phase gave, whose first session has this number.
pub(crate) fn hold<'o, J: Days>(
    alloc: Global,
    holding: &mut Holding<'o, J>,
    first: u64,
    phase: &Phase,
    given: Given<'o, J>,
) -> Result<(), AllocError>
    requires first { first ≤ 2 ^ 62 }
    requires counted { map (λ s. s.numbers) given.sessions.items
        ≡ spec.counts_of (lists_of given.lists.items) }
    requires each { vec_len given.lists ≡ vec_len phase.now.sessions }
    ensures { (slots : ℕ) → IsOf slots holding.old → OnOk result (IsOf slots holding.new
        × Gains slots holding.old holding.new
        (shares.share_in first phase.now (lists_of given.entry.lists.items)
        given.entry.desks.items)) }
{
    let Given {
        sessions,
        lists,
        desks,
    } = given;
    let numbers = numbers_from(alloc, first, lists.len())?;
    holding.take_sessions(phase.sessions.as_slice(), sessions, lists, numbers)?;
    hold_desks(holding, desks)?;
    Ok(())
}
