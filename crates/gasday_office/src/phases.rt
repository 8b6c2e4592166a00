//! The phases of an office.

ghost use Rattle.std.specs.Prelude.{◌≡◌, ◌∷◌, IfOk, OnOk, map};
ghost use Rattle.gd_text_part.specs.declared.row.Row.TheVariants.{Office};
ghost use Rattle.gasday_office.specs.Phases as spec;

use crate::sessions::{SessionText, calls_before};
use gd_text_part::{OfficeRow, Row};
use gd_units::Moment;
use std::alloc::{AllocError, Global};
use std::mem;

/// A phase of an office: sessions that are run, and then the round of the desk.
#[derive(Drop)]
pub struct PhaseText {
    /// The sessions, in order.
    pub sessions: Vec<SessionText>,
    /// When the desk goes round, in seconds since 1970-01-01T00:00:00Z.
    pub moment: Moment,
}

/// Adds a session to the phase that is begun, or ends that phase. The rows behind this one are `behind`.
#[tactic(auto, using(crate::proofs::Ending::joins, crate::proofs::Ending::ends))]
fn take_row(
    alloc: Global,
    phases: &mut Vec<PhaseText>,
    sessions: &mut Vec<SessionText>,
    row: OfficeRow,
    behind: &[Row],
) -> Result<(), AllocError>
    ensures { OnOk result
        (spec.phases_with phases.old.items sessions.old.items (Office row ∷ behind.now)
        ≡ spec.phases_with phases.new.items sessions.new.items behind.now) }
{
    match row {
        OfficeRow::Session { slot, party } => {
            let calls = calls_before(alloc, behind)?;
            sessions.push(SessionText {
                slot: slot.saturating_sub(1) as usize,
                party,
                calls,
            })?;
        }
        OfficeRow::Desk { moment } => {
            let sessions = mem::replace(sessions, Vec::new(alloc));
            phases.push(PhaseText { sessions, moment })?;
        }
    }
    Ok(())
}

/// The phases of an office's text, in order. The only error is want of memory.
pub fn phases_of(alloc: Global, rows: &[Row]) -> Result<Vec<PhaseText>, AllocError>
    ensures { IfOk result (λ phases. map spec.phase phases.items ≡ spec.phases_of rows.now) }
{
    let mut phases = Vec::new(alloc);
    let mut sessions = Vec::new(alloc);
    'rows: for (index, row) in rows.iter().enumerate() {
        if let Row::Office(row) = *row {
            take_row(alloc, &mut phases, &mut sessions, row, &rows[index + 1..])?;
        }
    }
    Ok(phases)
}
