//! The tree with which the simplex begins: that of the elements, with each line beside it.

ghost use Rattle.std.specs.Prelude.{◌≡◌, ◌<◌, length, IfOk};

use crate::arc::{Amount, Arc, short};
use crate::fill::fill;
use crate::simplex::Simplex;
use crate::tree::{Link, Tree};
use gd_question::{Element, Part, Question};
use gd_schedule::{Schedule, load_table};
use gd_units::Dth;
use std::alloc::{AllocError, Global};

/// What a schedule gives a line, brought between floor and ceiling; a missing entry is 0.
fn first_quantity(question: &Question, first: &Schedule, line: usize) -> Dth
    requires { line < length question.now.asked.lines }
{
    let floor = question.floor(line);
    let ceiling = question.ceiling(line);
    if line >= first.len() {
        return floor;
    }
    first.quantity(line).max(floor).min(ceiling)
}

/// The quantities with which the lines begin.
fn first_quantities(
    alloc: Global,
    question: &Question,
    first: &Schedule,
) -> Result<Schedule, AllocError>
    ensures { IfOk result (λ schedule. length schedule ≡ length question.now.asked.lines) }
{
    let mut quantities = Vec::with_capacity(alloc, question.line_count())?;
    for line in 0..question.line_count() {
        quantities.push(first_quantity(question, first, line))?;
    }
    Ok(Schedule::of(quantities))
}

/// The arc of an element, what it carries at most, and the node on which it hangs the one that it brings.
fn element_arc(part: Part, brings: u32) -> (Arc, i64, u32) {
    let (from, to, most) = match part {
        Part::Segment(from, to, capacity) => (short(from.0), short(to.0), capacity.get() as i64),
        Part::Receipt(place, capacity) => (brings, short(place.0), capacity.get() as i64),
        Part::Delivery(place, capacity) => (short(place.0), brings, capacity.get() as i64),
        Part::Pool(place) => (short(place.0), brings, 0),
    };
    let arc = Arc {
        from,
        to,
        class: 0,
        ..Arc::NONE
    };
    (arc, most, if from == brings { to } else { from })
}

/// The arc of a line, from its destination back to its origin.
fn line_arc(question: &Question, line: usize) -> Arc
    requires { line < length question.now.asked.lines }
{
    Arc {
        from: short(question.dest(line).0.saturating_add(1)),
        to: short(question.origin(line).0.saturating_add(1)),
        class: question.class(line).number(),
        in_tree: false,
        ..Arc::NONE
    }
}

/// Adds the arcs of the elements, which carry these loads, and hangs each node that an element brings on the tree.
fn add_elements(
    question: &Question,
    loads: &[i64],
    tree: &mut Tree,
    arcs: &mut Vec<Arc>,
    amounts: &mut Vec<Amount>,
) -> Result<(), AllocError> {
    question.known();
    for at in 0..question.element_count() {
        let (arc, most, anchor) = element_arc(question.part(Element(at)), short(at + 1));
        tree.attach(short(at + 1), anchor, Link::of(short(at)));
        arcs.push(arc)?;
        let load = loads.get(at).copied().unwrap_or(0);
        amounts.push(Amount::between(0, most, load))?;
    }
    Ok(())
}

/// Adds the arcs of the lines, which carry these quantities.
fn add_lines(
    question: &Question,
    quantities: &Schedule,
    arcs: &mut Vec<Arc>,
    amounts: &mut Vec<Amount>,
) -> Result<(), AllocError>
    requires { length quantities.now ≡ length question.now.asked.lines }
{
    for line in 0..question.line_count() {
        arcs.push(line_arc(question, line))?;
        let floor = question.floor(line).get() as i64;
        let ceiling = question.ceiling(line).get() as i64;
        let now = quantities.quantity(line).get() as i64;
        amounts.push(Amount::between(floor, ceiling, now))?;
    }
    Ok(())
}

/// The simplex that begins with a schedule brought between floors and ceilings, of which lines that can be had whole are raised.
pub(crate) fn start(
    alloc: Global,
    question: &Question,
    first: &Schedule,
) -> Result<Simplex, AllocError> {
    question.known();
    let quantities = first_quantities(alloc, question, first)?;
    let loads = load_table(alloc, question, &quantities)?;
    let mut tree = Tree::of(alloc, question.element_count() + 1)?;
    let mut arcs = Vec::new(alloc);
    let mut amounts = Vec::new(alloc);
    add_elements(question, &loads, &mut tree, &mut arcs, &mut amounts)?;
    add_lines(question, &quantities, &mut arcs, &mut amounts)?;
    fill(alloc, &tree, &arcs, &mut amounts)?;
    Simplex::of(alloc, arcs, amounts, tree)
}
