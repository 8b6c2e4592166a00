//! Flows over a network, and the schedules that they stand for.

ghost use Rattle.std.specs.Prelude.{◌≡◌, ℕ, ◌+◌, ◌*◌, ◌<◌, ◌≤◌, pos, ◌≤ℤ◌, length, IfOk, OnOk};
ghost use Rattle.gd_rules.specs.Limits.{most_dekatherms, most_elements, most_lines};
ghost use Rattle.gd_rules.specs.Question.{line as asked_line};
ghost use Rattle.gd_rules.specs.Schedule.{quantity};
ghost use Rattle.gd_scale.specs.Sum.{sum_int};
ghost use Rattle.gd_network.specs.Arcs.{arc_count, tenth_arc, IsNetwork};
ghost use Rattle.gd_network.specs.Flow.{flow_at, part_of, IsWithin, IsScheduleOf};
ghost use Rattle.gd_network.specs.Beginning.{clamped, clamped_schedule};
ghost use Rattle.gd_network.specs.Entries.{FirstFlows};

use crate::Arc;
use crate::arcs::tenth_end;
use gd_question::Question;
use gd_schedule::{Schedule, load_table};
use gd_units::Dth;
use std::alloc::{AllocError, Global};
use std::marker::Model;

/// What flows along each arc of a network, by the arcs' numbers, in dekatherms a gas day. Below 0 it flows against
/// the arc.
#[derive(Debug, Drop)]
pub struct Flow {
    amounts: Vec<i64>,
}

impl Model for Flow {
    ghost use Rattle.std.specs.Prelude.{List, ℤ};

    ghost Value = { List ℤ };

    ghost view = { λ f. f.amounts.items };
}

impl Flow {
    /// The flow of these amounts.
    pub fn of(amounts: Vec<i64>) -> Flow
        ensures { result ≡ amounts.items }
    {
        Self { amounts }
    }

    /// The amounts, by the arcs' numbers.
    pub fn amounts(&self) -> &[i64]
        ensures { result.now ≡ self.now }
    {
        self.amounts.as_slice()
    }

    /// The amounts, to be changed.
    pub fn into_amounts(self) -> Vec<i64>
        ensures { result.items ≡ self }
    {
        let Flow { amounts } = self;
        amounts
    }

    /// Another flow of the same amounts. The only error is want of memory.
    pub fn try_clone(&self, alloc: Global) -> Result<Flow, AllocError>
        ensures { IfOk result (λ copy. copy ≡ self.now) }
    {
        let amounts = Vec::from_slice(alloc, &self.amounts)?;
        Ok(Flow { amounts })
    }
}

/// What lies of a quantity in the tenth after so many others. What is above the ceiling counts with the last one.
fn part_in(ceiling: u64, quantity: u64, tenth: usize) -> i64
    requires ceiling { ceiling ≤ most_dekatherms }
    requires quantity { quantity ≤ most_dekatherms }
    requires tenth { tenth < 10 }
    ensures { result ≡ pos (part_of ceiling quantity tenth) }
{
    let before = tenth_end(ceiling, tenth);
    let filled = quantity.max(before);
    let upto = if tenth == 9 {
        filled
    } else {
        filled.min(tenth_end(ceiling, tenth + 1))
    };
    (upto - before) as i64
}

/// Adds what a line's ten arcs carry of its quantity.
fn add_line(
    question: &Question,
    schedule: &Schedule,
    line: usize,
    amounts: &mut Vec<i64>,
) -> Result<(), AllocError>
    requires shape { length schedule.now ≡ length question.now.asked.lines }
    requires line { line < length question.now.asked.lines }
    requires before { FirstFlows question.now.asked schedule.now
        (tenth_arc question.now.asked line 0) amounts.old.items }
    ensures { OnOk result (FirstFlows question.now.asked schedule.now
        (tenth_arc question.now.asked line 10) amounts.new.items) }
{
    let ceiling = question.ceiling(line).get();
    let planned = schedule.quantity(line).get();
    for tenth in 0..10 {
        amounts.push(part_in(ceiling, planned, tenth))?;
    }
    Ok(())
}

/// The flow of a schedule: the loads, and what each line's arcs carry.
pub(crate) fn flow_of(
    alloc: Global,
    question: &Question,
    schedule: &Schedule,
) -> Result<Flow, AllocError>
    requires { length schedule.now ≡ length question.now.asked.lines }
    ensures { IfOk result (FirstFlows question.now.asked schedule.now
        (arc_count question.now.asked)) }
{
    let mut amounts = load_table(alloc, question, schedule)?;
    for line in 0..question.line_count() {
        add_line(question, schedule, line, &mut amounts)?;
    }
    Ok(Flow { amounts })
}

/// What the ten arcs of a line carry together.
fn carried_by(flow: &[i64], elements: usize, line: usize) -> u64
    requires few { elements ≤ most_elements }
    requires line { line < most_lines }
    requires size { elements + (10 * line + 9) < length flow.now }
    requires low { (j : ℕ) → j < 10 → pos 0 ≤ℤ flow_at flow.now (elements + (10 * line + j)) }
    requires high { (j : ℕ) → j < 10
        → flow_at flow.now (elements + (10 * line + j)) ≤ℤ pos most_dekatherms }
    ensures { pos result ≡ sum_int 10 (λ j. flow_at flow.now (elements + (10 * line + j))) }
{
    let mut sum: u64 = 0;
    for tenth in 0..10 {
        sum += flow[elements + (10 * line + tenth)] as u64;
    }
    sum
}

/// What a line's arcs carry, as a quantity.
fn carried(question: &Question, arcs: &[Arc], flow: &[i64], line: usize) -> Dth
    requires line { line < length question.now.asked.lines }
    requires network { IsNetwork question.now.asked arcs.now }
    requires size { length flow.now ≡ length arcs.now }
    requires within { IsWithin arcs.now flow.now }
    ensures { pos result
        ≡ sum_int 10 (λ j. flow_at flow.now (tenth_arc question.now.asked line j)) }
{
    question.known();
    let ceiling = question.ceiling(line);
    let _most = ceiling.get();
    match Dth::new(carried_by(flow, question.element_count(), line)) {
        Ok(quantity) => quantity,
        Err(_) => unreachable!(),
    }
}

/// The schedule of a flow: what each line's arcs carry.
pub(crate) fn schedule_of(
    alloc: Global,
    question: &Question,
    arcs: &[Arc],
    flow: &[i64],
) -> Result<Schedule, AllocError>
    requires network { IsNetwork question.now.asked arcs.now }
    requires size { length flow.now ≡ length arcs.now }
    requires within { IsWithin arcs.now flow.now }
    ensures { IfOk result (IsScheduleOf question.now.asked flow.now) }
{
    let mut quantities = Vec::new(alloc);
    for line in 0..question.line_count() {
        quantities.push(carried(question, arcs, flow, line))?;
    }
    Ok(Schedule::of(quantities))
}

/// What a schedule gives a line, brought between floor and ceiling; a missing entry is 0.
fn clamp(question: &Question, schedule: &Schedule, line: usize) -> Dth
    requires { line < length question.now.asked.lines }
    ensures { result ≡ clamped (asked_line question.now.asked line) (quantity schedule.now line) }
{
    question.known();
    let floor = question.floor(line);
    let ceiling = question.ceiling(line);
    if line >= schedule.len() {
        return floor;
    }
    schedule.quantity(line).max(floor).min(ceiling)
}

/// A schedule brought within the lines' bounds.
pub(crate) fn bring(
    alloc: Global,
    question: &Question,
    schedule: &Schedule,
) -> Result<Schedule, AllocError>
    ensures { IfOk result (λ within. within ≡ clamped_schedule question.now.asked.lines schedule.now) }
{
    let mut quantities = Vec::new(alloc);
    for line in 0..question.line_count() {
        quantities.push(clamp(question, schedule, line))?;
    }
    Ok(Schedule::of(quantities))
}
