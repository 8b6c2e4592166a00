//! Questions from texts, and schedules.

use gd_schedule::Schedule;
use gd_text::{Asked, asked_of};
use gd_text_part::{Form, Row, rows_in};
use gd_units::Dth;
use std::alloc::Global;
use std::process::Abort;

fn rows(rt: &impl Abort, alloc: Global, text: &str) -> Vec<Row> {
    let rows = rows_in(alloc, Form::CheckAllowed, text.as_bytes());
    rows.ok().expect(rt, "rows")
}

/// The question that a text asks, and the schedule that it offers.
pub(crate) fn asked(rt: &impl Abort, alloc: Global, text: &str) -> Asked {
    let asked = asked_of(alloc, rows(rt, alloc, text).as_slice());
    asked.ok().expect(rt, "a question")
}

pub(crate) fn scheduled(rt: &impl Abort, alloc: Global, numbers: &[u64]) -> Schedule {
    let mut quantities = Vec::new(alloc);
    for number in numbers {
        let quantity = Dth::new(*number).expect(rt, "a quantity");
        quantities.push(quantity).expect(rt, "memory");
    }
    Schedule::of(quantities)
}
