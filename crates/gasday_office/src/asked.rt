//! The phases of an office, with the calls of their sessions.

ghost use Rattle.std.specs.Prelude.{◌≡◌, IfOk, map};
ghost use Rattle.gasday_office.specs.Phases as text;
ghost use Rattle.gasday_office.specs.Calls as spec;

use crate::calls::calls_of;
use crate::phases::PhaseText;
use crate::sessions::SessionText;
use gd_day::DayText;
use gd_office_part::{Phase, SessionRows};
use std::alloc::{AllocError, Global};

/// A session with its calls.
fn session_of(
    alloc: Global,
    days: &[DayText],
    session: &SessionText,
) -> Result<SessionRows, AllocError>
    ensures { IfOk result (λ rows. spec.seen_session rows
        ≡ spec.asked_session (spec.pipelines days.now) (text.session session.now)) }
{
    let calls = match days.get(session.slot) {
        Some(day) => calls_of(alloc, day.contracts.system(), &session.calls)?,
        None => Vec::new(alloc),
    };
    Ok(SessionRows {
        slot: session.slot,
        party: session.party,
        calls,
    })
}

/// Sessions with their calls, in order.
fn sessions_of(
    alloc: Global,
    days: &[DayText],
    sessions: &[SessionText],
) -> Result<Vec<SessionRows>, AllocError>
    ensures { IfOk result (λ all. map spec.seen_session all.items
        ≡ map (spec.asked_session (spec.pipelines days.now)) (map text.session sessions.now)) }
{
    let mut all = Vec::with_capacity(alloc, sessions.len())?;
    'sessions: for session in sessions {
        let rows = session_of(alloc, days, session)?;
        all.push(rows)?;
    }
    Ok(all)
}

/// The phases of an office, each session with its calls: what its rows call, in order, on the pipeline of its slot. A row of a
/// kind that no session makes is no call, and a session whose slot has no day has none. The only error is want of memory.
pub fn calls_in(
    alloc: Global,
    days: &[DayText],
    phases: &[PhaseText],
) -> Result<Vec<Phase>, AllocError>
    ensures { IfOk result (λ all. map spec.seen_phase all.items
        ≡ map (spec.asked_phase (spec.pipelines days.now)) (map text.phase phases.now)) }
{
    let mut all = Vec::with_capacity(alloc, phases.len())?;
    'phases: for phase in phases {
        let sessions = sessions_of(alloc, days, &phase.sessions)?;
        all.push(Phase {
            sessions,
            moment: phase.moment,
        })?;
    }
    Ok(all)
}
