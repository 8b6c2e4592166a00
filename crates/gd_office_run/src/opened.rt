//! The sessions of a phase.

ghost use Rattle.std.specs.Prelude.{◌≡◌, IfOk, map};
ghost use Rattle.gd_office_run.specs.Runs as spec;

use crate::fault::RunFault;
use gd_office::Office;
use gd_office_part::{Days, OfficeFault, Session, SessionRows};
use std::alloc::Global;
use std::sync::Wait;

/// Opens a session for these rows, of which nothing is accepted yet.
fn open<'o, R: Wait, J: Days>(
    rt: &R,
    office: &'o Office<J>,
    rows: &SessionRows,
) -> Result<Session<'o, J>, RunFault>
    ensures { IfOk result (λ session. spec.opened session ≡ spec.asked rows.now) }
{
    let Ok(slot) = u32::try_from(rows.slot) else {
        return Err(RunFault::TooMany);
    };
    let Some(slot) = slot.checked_add(1) else {
        return Err(RunFault::TooMany);
    };
    match office.session(rt, slot, rows.party) {
        Ok(session) => Ok(session),
        Err(OfficeFault::UnknownSlot | OfficeFault::TooMany) => Err(RunFault::TooMany),
    }
}

/// Opens a session for each of these rows, of which nothing is accepted yet.
pub(crate) fn open_all<'o, R: Wait, J: Days>(
    rt: &R,
    alloc: Global,
    office: &'o Office<J>,
    rows: &[SessionRows],
) -> Result<Vec<Session<'o, J>>, RunFault>
    ensures { IfOk result (λ sessions. map spec.opened sessions.items ≡ map spec.asked rows.now) }
{
    let mut sessions = Vec::with_capacity(alloc, rows.len())?;
    for row in rows {
        let session = match open(rt, office, row) {
            Ok(session) => session,
            Err(fault) => return Err(fault),
        };
        if sessions.push(session).is_err() {
            return Err(RunFault::OutOfMemory);
        }
    }
    Ok(sessions)
}
