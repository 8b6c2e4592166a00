//! The calls of one session.

ghost use Rattle.std.specs.Prelude.{◌≡◌, IfOk};
ghost use Rattle.std.specs.List.{filter_map};
ghost use Rattle.gasday_office.specs.Calls as spec;

use gd_day::element_named;
use gd_office_part::Call;
use gd_system::System;
use gd_text_part::EventRow;
use std::alloc::{AllocError, Global};

/// The call of a row of a session whose slot has this pipeline. Who makes it is said by the session, and not by the row.
fn call_of(system: &System, row: EventRow) -> Option<Call>
    ensures { result ≡ spec.call_of system.now row }
{
    match row {
        EventRow::Nominate {
            moment,
            key,
            quantity,
            ..
        } => Some(Call::Nominate {
            moment,
            key,
            quantity,
        }),
        EventRow::Respond {
            moment,
            line,
            end,
            quantity,
            ..
        } => Some(Call::Respond {
            moment,
            line: line.saturating_sub(1),
            end,
            quantity,
        }),
        EventRow::Post {
            moment,
            element,
            capacity,
        } => Some(Call::PostCapacity {
            moment,
            element: element_named(system, element),
            capacity,
        }),
        _ => None,
    }
}

/// The calls of these rows, in order.
pub(crate) fn calls_of(
    alloc: Global,
    system: &System,
    rows: &[EventRow],
) -> Result<Vec<Call>, AllocError>
    ensures { IfOk result (λ calls. calls.items ≡ filter_map (spec.call_of system.now) rows.now) }
{
    let mut calls = Vec::new(alloc);
    'rows: for row in rows {
        if let Some(call) = call_of(system, *row) {
            calls.push(call)?;
        }
    }
    Ok(calls)
}
