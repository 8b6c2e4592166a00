//! Levels of places: what a route's segments cost together is the difference of its two places' levels.

ghost use Rattle.std.specs.Prelude.{◌≡◌, ℕ, ◌+◌, ◌<◌, pos, length, map, IfOk, IsTrue};
ghost use Rattle.gd_rules.specs.Question.{element as asked_element};
ghost use Rattle.gd_rules.specs.Question.Element.{Segment as segment};
ghost use Rattle.gd_rules.specs.Limits.{most_price_word};
ghost use Rattle.gd_rules.specs.Priced.{price};
ghost use Rattle.gd_tree.specs.Grown.{Joins};
ghost use Rattle.gd_certificate.specs.Levels.{HasLevels};

use gd_cost::Cost;
use gd_question::{Element, Part, Question};
use gd_units::Dth;
use std::alloc::{AllocError, Global};

/// The places that a segment leads from and to, and its capacity.
#[derive(Clone, Copy, Drop)]
struct SegmentEnds {
    from: usize,
    to: usize,
    capacity: Dth,
}

/// The places of the segment of this number, one of which is the next after all earlier ones.
fn ends_of(question: &Question, at: usize) -> SegmentEnds
    requires { at < length question.now.pipeline.tree }
    ensures is { asked_element question.now.asked at
        ≡ segment result.from result.to result.capacity }
    ensures joins { Joins at (segment result.from result.to result.capacity) }
{
    question.placed();
    match question.part(Element(at)) {
        Part::Segment(from, to, capacity) => SegmentEnds {
            from: from.0,
            to: to.0,
            capacity,
        },
        _ => unreachable!(),
    }
}

/// The levels of all places, nothing at the first: along each segment they rise by its price.
pub fn levels<C: Cost>(
    alloc: Global,
    question: &Question,
    prices: &[C],
) -> Result<Vec<C>, AllocError>
    requires shape { length prices.now ≡ length question.now.asked.elements }
    requires small { (e : ℕ) → e < length question.now.asked.elements
        → IsTrue (C.within (pos most_price_word) (price C.scale (map C.meaning prices.now) e)) }
    ensures { IfOk result (λ levels. HasLevels C.scale C.within question.now.asked.elements
        (length question.now.pipeline.tree + 1) (map C.meaning prices.now)
        (map C.meaning levels.items)) }
{
    question.placed();
    let count = question.system().segment_count();
    let mut levels = Vec::with_capacity(alloc, count + 1)?;
    levels.push(C::zero())?;
    for k in 0..count {
        let segment = ends_of(question, k);
        let weight = prices[k];
        let next = if segment.to == k + 1 {
            levels[segment.from].add(weight)
        } else {
            levels[segment.to].sub(weight)
        };
        levels.push(next)?;
    }
    Ok(levels)
}
