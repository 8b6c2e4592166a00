//! The arcs of a network.

ghost use Rattle.std.specs.Prelude.{◌≡◌, ◌+◌, ◌*◌, ◌<◌, ◌≤◌, ◌^◌, pos, ◌≤ℤ◌, length, IfOk, OnOk};
ghost use Rattle.gd_rules.specs.Limits.{most_dekatherms};
ghost use Rattle.gd_rules.specs.Question.{line as asked_line};
ghost use Rattle.gd_rules.specs.Spread.{tenth_end};
ghost use Rattle.gd_system.specs.Parts.{element_of};
ghost use Rattle.gd_network.specs.Arcs.{arc_count, most_of, most_part, least_part, tenth_arc, element_arc, line_arc};
ghost use Rattle.gd_question.specs.Nodes.{start_of, stop_of};
ghost use Rattle.gd_network.specs.Entries.{FirstArcs};

use gd_question::{Element, Part, Question};
use std::alloc::{AllocError, Global};

/// An arc: dekatherms a gas day flow from one node to another, no fewer than `lower` and no more than `upper`.
#[derive(Clone, Copy, Debug)]
pub struct Arc {
    pub from: usize,
    pub to: usize,
    pub lower: i64,
    pub upper: i64,
}

/// The node at which an element's arc begins.
fn start(part: &Part, at: usize) -> usize
    requires { at < 2 ^ 32 }
    ensures { result ≡ start_of at (element_of part.now) }
{
    match *part {
        Part::Segment(from, _, _) => from.0,
        Part::Receipt(_, _) => at + 1,
        Part::Delivery(place, _) => place.0,
        Part::Pool(place) => place.0,
    }
}

/// The node at which it ends.
fn stop(part: &Part, at: usize) -> usize
    requires { at < 2 ^ 32 }
    ensures { result ≡ stop_of at (element_of part.now) }
{
    match *part {
        Part::Segment(_, to, _) => to.0,
        Part::Receipt(place, _) => place.0,
        Part::Delivery(_, _) => at + 1,
        Part::Pool(_) => at + 1,
    }
}

/// What it carries at most: nothing where it is a pool.
fn most(part: &Part) -> i64
    ensures is { result ≡ pos (most_of (element_of part.now)) }
    ensures small { result ≤ℤ pos most_dekatherms }
{
    match *part {
        Part::Segment(_, _, capacity) => capacity.get() as i64,
        Part::Receipt(_, capacity) => capacity.get() as i64,
        Part::Delivery(_, capacity) => capacity.get() as i64,
        Part::Pool(_) => 0,
    }
}

fn element_arc(part: Part, at: usize) -> Arc
    requires { at < 2 ^ 32 }
    ensures is { result ≡ element_arc at (element_of part) }
    ensures small { result.upper ≤ℤ pos most_dekatherms }
{
    Arc {
        from: start(&part, at),
        to: stop(&part, at),
        lower: 0,
        upper: most(&part),
    }
}

/// The last dekatherm of a tenth of the ceiling.
pub(crate) fn tenth_end(ceiling: u64, tenth: usize) -> u64
    requires ceiling { ceiling ≤ most_dekatherms }
    requires tenth { tenth ≤ 10 }
    ensures { result ≡ tenth_end ceiling tenth }
{
    ceiling * tenth as u64 / 10
}

/// What the tenth after so many others holds at most.
fn most_in(ceiling: u64, tenth: usize) -> i64
    requires ceiling { ceiling ≤ most_dekatherms }
    requires tenth { tenth < 10 }
    ensures is { result ≡ pos (most_part ceiling tenth) }
    ensures small { result ≤ℤ pos most_dekatherms }
{
    (tenth_end(ceiling, tenth + 1) - tenth_end(ceiling, tenth)) as i64
}

/// What it holds of the floor.
fn least_in(ceiling: u64, floor: u64, tenth: usize) -> i64
    requires ceiling { ceiling ≤ most_dekatherms }
    requires floor { floor ≤ most_dekatherms }
    requires tenth { tenth < 10 }
    ensures { result ≡ pos (least_part ceiling floor tenth) }
{
    let before = tenth_end(ceiling, tenth);
    (floor.max(before).min(tenth_end(ceiling, tenth + 1)) - before) as i64
}

fn line_arc(question: &Question, line: usize, tenth: usize) -> Arc
    requires line { line < length question.now.asked.lines }
    requires tenth { tenth < 10 }
    ensures is { result ≡ line_arc (asked_line question.now.asked line) tenth }
    ensures small { result.upper ≤ℤ pos most_dekatherms }
{
    question.known();
    let ceiling = question.ceiling(line).get();
    let floor = question.floor(line).get();
    Arc {
        from: question.dest(line).0 + 1,
        to: question.origin(line).0 + 1,
        lower: least_in(ceiling, floor, tenth),
        upper: most_in(ceiling, tenth),
    }
}

/// The arcs of the elements, with room for those of the lines.
fn element_arcs(alloc: Global, question: &Question) -> Result<Vec<Arc>, AllocError>
    ensures { IfOk result
        (λ arcs. FirstArcs question.now.asked (length question.now.asked.elements) arcs.items) }
{
    question.known();
    let tenths = question.line_count().saturating_mul(10);
    let count = question.element_count().saturating_add(tenths);
    let mut arcs = Vec::with_capacity(alloc, count)?;
    for at in 0..question.element_count() {
        arcs.push(element_arc(question.part(Element(at)), at))?;
    }
    Ok(arcs)
}

/// Adds the ten arcs of a line.
fn add_line(question: &Question, line: usize, arcs: &mut Vec<Arc>) -> Result<(), AllocError>
    requires line { line < length question.now.asked.lines }
    requires before { FirstArcs question.now.asked
        (tenth_arc question.now.asked line 0) arcs.old.items }
    ensures { OnOk result (FirstArcs question.now.asked
        (tenth_arc question.now.asked line 10) arcs.new.items) }
{
    for tenth in 0..10 {
        arcs.push(line_arc(question, line, tenth))?;
    }
    Ok(())
}

/// All arcs of a question's network.
pub(crate) fn arcs_of(alloc: Global, question: &Question) -> Result<Vec<Arc>, AllocError>
    ensures { IfOk result
        (λ arcs. FirstArcs question.now.asked (arc_count question.now.asked) arcs.items) }
{
    let mut arcs = element_arcs(alloc, question)?;
    for line in 0..question.line_count() {
        add_line(question, line, &mut arcs)?;
    }
    Ok(arcs)
}
