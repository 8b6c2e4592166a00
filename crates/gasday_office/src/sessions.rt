//! The calls of a session.

ghost use Rattle.std.specs.Prelude.{◌≡◌, IfOk};
ghost use Rattle.gasday_office.specs.Phases as spec;

use gd_text_part::{EventRow, Row};
use gd_units::Name;
use std::alloc::{AllocError, Global};

/// A session, as a text says it.
#[derive(Drop)]
pub struct SessionText {
    /// The place of its slot among the slots, from 0.
    pub slot: usize,
    /// Who calls.
    pub party: Name,
    /// Its calls, in order.
    pub calls: Vec<EventRow>,
}

/// The calls of a session that these rows stand behind.
pub(crate) fn calls_before(alloc: Global, rows: &[Row]) -> Result<Vec<EventRow>, AllocError>
    ensures { IfOk result (λ calls. calls.items ≡ spec.calls_before rows.now) }
{
    let mut calls = Vec::new(alloc);
    'rows: for row in rows {
        match row {
            Row::Office(_) => return Ok(calls),
            Row::Event(event) => calls.push(*event)?,
            _ => continue,
        }
    }
    Ok(calls)
}
