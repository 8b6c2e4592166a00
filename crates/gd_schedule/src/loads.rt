//! The loads of elements: what the lines bring to each, in dekatherms a gas day.

ghost use Rattle.std.specs.Prelude.{◌≡◌, ℕ, pos, ◌+◌, ◌+ℤ◌, ◌*ℤ◌, neg_ℤ, ◌≤◌, ◌<◌, ◌^◌, length, get_or, IfOk, ◌==◌, if◌then◌else◌, MatchOption, ◌⊎◌, ◌≢◌, IsTrue, false};
ghost use Rattle.gd_rules.specs.Schedule.{quantity, load as load_of};
ghost use Rattle.gd_rules.specs.Question.{crossing, element as asked_element};
ghost use Rattle.gd_question.specs.Nodes.{anchor, start, stop};
ghost use Rattle.gd_schedule.specs.Sizes.{IsSized};
ghost use Rattle.gd_schedule.specs.Surplus.{IsSurplus, IsPassedOn};
ghost use Rattle.gd_schedule.specs.Table.{IsTable};

use crate::Schedule;
use gd_question::{Element, Part, Question};
use gd_units::Dth;
use std::alloc::{AllocError, Global};

/// Adds to one entry.
fn add_at(table: &mut [i64], at: usize, amount: i64)
    requires known { at < length table.old }
    requires room { IsSized (2 ^ 62) (get_or table.old at (pos 0)) }
    requires small { IsSized (2 ^ 61) amount }
    ensures sized { length table.new ≡ length table.old }
    ensures added { (e : ℕ)
        → get_or table.new e (pos 0)
        ≡ get_or table.old e (pos 0) +ℤ (if at == e then amount else pos 0) }
{
    table[at] += amount;
}

/// Adds what one line brings to its origin's node and takes from its destination's.
fn add_line(question: &Question, schedule: &Schedule, line: usize, surplus: &mut [i64])
    requires shape { length schedule.now ≡ length question.now.asked.lines }
    requires known { line < length question.now.asked.lines }
    requires before { IsSurplus question.now.asked schedule.now line surplus.old }
    ensures { IsSurplus question.now.asked schedule.now (line + 1) surplus.new }
{
    question.known();
    schedule.known();
    let quantity = schedule.quantity(line).get() as i64;
    add_at(surplus, question.origin(line).0 + 1, quantity);
    add_at(surplus, question.dest(line).0 + 1, -quantity);
}

/// The surplus of each node: what lines bring to it less what they take from it. Places come first, then points and pools, each after its element's number.
fn surplus_of(
    alloc: Global,
    question: &Question,
    schedule: &Schedule,
) -> Result<Vec<i64>, AllocError>
    requires { length schedule.now ≡ length question.now.asked.lines }
    ensures { IfOk result
        (λ surplus. IsSurplus question.now.asked schedule.now
        (length question.now.asked.lines) surplus.items) }
{
    question.known();
    let mut surplus = vec![in alloc; 0i64; question.element_count() + 1]?;
    for line in 0..question.line_count() {
        add_line(question, schedule, line, &mut surplus);
    }
    Ok(surplus)
}

/// How an element joins the node that it brings with an earlier one.
#[derive(Clone, Copy, Drop)]
struct Joint {
    // the earlier node
    anchor: usize,
    // whether gas passes towards it
    inward: bool,
}

/// How an element joins its nodes.
fn joint_of(question: &Question, element: usize) -> Joint
    requires { element < length question.now.asked.elements }
    ensures anchor { result.anchor ≡ anchor element (asked_element question.now.asked element) }
    ensures earlier { result.anchor ≤ element }
    ensures inward { IsTrue result.inward → (start question.now.asked element ≡ element + 1)
        × (stop question.now.asked element ≡ result.anchor) }
    ensures outward { result.inward ≡ false → (start question.now.asked element ≡ result.anchor)
        × (stop question.now.asked element ≡ element + 1) }
{
    question.known();
    question.placed();
    match question.part(Element(element)) {
        Part::Segment(from, to, _) if to.0 == element + 1 => Joint {
            anchor: from.0,
            inward: false,
        },
        Part::Segment(_, to, _) => Joint {
            anchor: to.0,
            inward: true,
        },
        Part::Receipt(place, _) => Joint {
            anchor: place.0,
            inward: true,
        },
        Part::Delivery(place, _) => Joint {
            anchor: place.0,
            inward: false,
        },
        Part::Pool(place) => Joint {
            anchor: place.0,
            inward: false,
        },
    }
}

/// An amount that is brought to the earlier node, counted along the element's direction.
fn along(joint: Joint, amount: i64) -> i64
    requires { IsSized (2 ^ 61) amount }
    ensures { result ≡ (if joint.inward then amount else neg_ℤ amount) }
{
    if joint.inward { amount } else { -amount }
}

/// Lets an element carry the surplus of the node that it brings to the earlier one.
fn pass_on(
    question: &Question,
    schedule: &Schedule,
    element: usize,
    surplus: &mut [i64],
    table: &mut [i64],
)
    requires known { element < length question.now.asked.elements }
    requires before { IsPassedOn question.now.asked schedule.now
        (element + 1) surplus.old table.old }
    ensures { IsPassedOn question.now.asked schedule.now element surplus.new table.new }
{
    // of it the contract speaks
    let _ = schedule;
    question.known();
    question.placed();
    let joint = joint_of(question, element);
    let amount = surplus[element + 1];
    add_at(surplus, joint.anchor, amount);
    table[element] = along(joint, amount);
}

/// The loads of all elements by number, in dekatherms a gas day. The only error is want of memory.
///
/// It asks for one quantity for each line. From the last element to the first, each carries the surplus of the node that it brings, and so of all behind it, to an earlier one.
pub fn load_table(
    alloc: Global,
    question: &Question,
    schedule: &Schedule,
) -> Result<Vec<i64>, AllocError>
    requires { length schedule.now ≡ length question.now.asked.lines }
    ensures { IfOk result (λ table. IsTable question.now.asked schedule.now table.items) }
{
    question.known();
    question.placed();
    let mut surplus = surplus_of(alloc, question, schedule)?;
    let count = question.element_count();
    let mut table = vec![in alloc; 0i64; count]?;
    for done in 0..count {
        pass_on(
            question,
            schedule,
            count - 1 - done,
            &mut surplus,
            &mut table,
        );
    }
    Ok(table)
}

/// How often a line crosses an element: 1 where it passes or enters it, -1 where it leaves it as a pool, else 0.
fn crossing(question: &Question, line: usize, element: Element) -> i64
    requires line { line < length question.now.asked.lines }
    requires element { element.0 < length question.now.asked.elements }
    ensures is { result ≡ crossing question.now.asked line element.0 }
    ensures small { IsSized 1 result }
{
    match question.part(element) {
        Part::Segment(_, _, _) => i64::from(question.passes(line, element)),
        Part::Receipt(_, _) => i64::from(question.origin(line) == element),
        Part::Delivery(_, _) => i64::from(question.dest(line) == element),
        Part::Pool(_) if question.dest(line) == element => 1,
        Part::Pool(_) if question.origin(line) == element => -1,
        Part::Pool(_) => 0,
    }
}

/// What a line brings to an element.
fn brought(question: &Question, schedule: &Schedule, line: usize, element: Element) -> i64
    requires shape { length schedule.now ≡ length question.now.asked.lines }
    requires line { line < length question.now.asked.lines }
    requires element { element.0 < length question.now.asked.elements }
    ensures is { result
        ≡ crossing question.now.asked line element.0 *ℤ pos (quantity schedule.now line) }
    ensures small { IsSized Dth.MAX result }
{
    crossing(question, line, element) * schedule.quantity(line).get() as i64
}

impl Schedule {
    /// The load of one element, in dekatherms a gas day: what passes a segment or point, or what enters a pool less what leaves it.
    ///
    /// `None` where there is not one quantity for each line, or no such element. It goes over all lines; [`load_table`] gives the loads of all elements at that cost.
    pub fn load(&self, question: &Question, element: Element) -> Option<i64>
        ensures { MatchOption result
            ((length self.now ≢ length question.now.asked.lines) ⊎
            (length question.now.asked.elements ≤ element.0))
            (λ load. (length self.now ≡ length question.now.asked.lines)
            × (element.0 < length question.now.asked.elements)
            × (load ≡ load_of question.now.asked self.now element.0)) }
    {
        question.known();
        if self.len() != question.line_count() || element.0 >= question.element_count() {
            return None;
        }
        let mut load = 0;
        for line in 0..question.line_count() {
            load += brought(question, self, line, element);
        }
        Some(load)
    }
}
