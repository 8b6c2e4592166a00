//! The cut of the nodes that a search reached.

ghost use Rattle.std.specs.Prelude.{◌≡◌, ℕ, ◌+◌, ◌<◌, ◌≤◌, ◌^◌, length, get_or, false, IfOk};
ghost use Rattle.gd_network.specs.Flow.{IsSideOf};
ghost use Rattle.gd_certificate.specs.Cutting.{side_of};
ghost use Rattle.gd_certificate.specs.Explained.{IsShaped};

use gd_certificate::Cut;
use gd_network::{Network, elements_bring};
use gd_question::{Element, Question};
use std::alloc::{AllocError, Global};

/// Each element is a segment, a point or a pool, since the last one has a name.
fn elements_are_named(question: &Question)
    ensures { length question.now.asked.elements
        ≤ length question.now.pipeline.tree + length question.now.pipeline.points
        + length question.now.pipeline.pools }
{
    question.system().known();
    let count = question.element_count();
    if count > 0 {
        question.name(Element(count - 1));
    }
}

/// As many marks from a place on, false past the end.
fn marks_from(
    alloc: Global,
    marks: &[bool],
    first: usize,
    count: usize,
) -> Result<Vec<bool>, AllocError>
    requires few { first + count < 2 ^ 32 }
    ensures size { IfOk result (λ part. length part.items ≡ count) }
    ensures entries { IfOk result
        (λ part. (k : ℕ) → k < count
        → get_or part.items k false ≡ get_or marks.now (first + k) false) }
{
    let mut part = Vec::new(alloc);
    for k in 0..count {
        let at = first + k;
        part.push(at < marks.len() && marks[at])?;
    }
    Ok(part)
}

/// The set of the places, points and pools whose nodes are marked.
pub(crate) fn cut_of(
    alloc: Global,
    network: &Network<'_>,
    marks: &[bool],
) -> Result<Cut, AllocError>
    ensures shaped { IfOk result (IsShaped network.now.question.pipeline) }
    ensures side { IfOk result
        (λ cut. IsSideOf network.now.question.asked (λ v. get_or marks.now v false)
        (side_of network.now.question.pipeline cut)) }
{
    network.known();
    elements_bring();
    let question = network.question();
    elements_are_named(question);
    let system = question.system();
    system.known();
    let places = system.place_count();
    let points = system.point_count();
    let pools = system.pool_count();
    Ok(Cut::of(
        marks_from(alloc, marks, 0, places)?,
        marks_from(alloc, marks, places, points)?,
        marks_from(alloc, marks, places + points, pools)?,
    ))
}
