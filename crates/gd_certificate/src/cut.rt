//! The check of a cut.

ghost use Rattle.std.specs.Prelude.{◌≡◌, ◌↔◌, IsTrue, ℕ, pos, ◌<◌, ◌≤◌, length, IfOk, IfErr, List, get_or, false};
ghost use Rattle.gd_rules.specs.Question.{element as asked_element};
ghost use Rattle.gd_rules.specs.Schedule.{IsAllowed};
ghost use Rattle.gd_rules.specs.Cut.{has_place, has_end, way_out, must_leave, may_enter, can_leave, excess};
ghost use Rattle.gd_certificate.specs.Cutting.{side_of};
ghost use Rattle.gd_certificate.specs.Explained.{ExplainsCut, IsShaped, Cuts};

use gd_question::{Element, Part, PlaceId, Question};
use gd_units::Dth;
use std::alloc::{AllocError, Global};
use std::marker::Model;

/// Why a set does not show that no schedule is allowed, the first reason in this order.
/// It is printed by its name.
#[derive(Clone, Copy, Debug, PartialEq, Eq, Drop)]
pub enum CutFault {
    /// There is not one entry for each place, each point and each pool.
    Shape,
    /// No more must leave the set than can.
    NotCut,
}

/// A set of places, points and pools: for each whether it is inside, in order of entry.
///
/// A contract sees the three lists.
#[derive(Debug, Drop)]
pub struct Cut {
    places: Vec<bool>,
    points: Vec<bool>,
    pools: Vec<bool>,
}

impl Model for Cut {
    ghost use Rattle.gd_certificate.specs.Cutting.{Members};

    ghost Value = { Members };

    ghost view = { λ c. record {
      places = c.places.items;
      points = c.points.items;
      pools = c.pools.items;
    } };
}

/// An entry, false past the end.
fn entry(bits: &[bool], at: usize) -> bool
    ensures { result ≡ get_or bits.now at false }
{
    at < bits.len() && bits[at]
}

/// Whether both lists have the same entries in the same order.
fn same_entries(a: &[bool], b: &[bool]) -> bool
    ensures { IsTrue result ↔ (a.now ≡ b.now) }
{
    a == b
}

impl Cut {
    /// The set of the places, points and pools whose entry is true.
    pub fn of(places: Vec<bool>, points: Vec<bool>, pools: Vec<bool>) -> Cut
        ensures { result
            ≡ record { places = places.items; points = points.items; pools = pools.items } }
    {
        Cut {
            places,
            points,
            pools,
        }
    }

    /// Which places are inside.
    pub fn places(&self) -> &[bool]
        ensures { result.now ≡ self.now.places }
    {
        self.places.as_slice()
    }

    /// Which points are inside.
    pub fn points(&self) -> &[bool]
        ensures { result.now ≡ self.now.points }
    {
        self.points.as_slice()
    }

    /// Which pools are inside.
    pub fn pools(&self) -> &[bool]
        ensures { result.now ≡ self.now.pools }
    {
        self.pools.as_slice()
    }

    /// Whether both have the same entries. Takes no memory.
    pub fn same(&self, other: &Cut) -> bool
        ensures { IsTrue result ↔ (self.now ≡ other.now) }
    {
        same_entries(&self.places, &other.places)
            && same_entries(&self.points, &other.points)
            && same_entries(&self.pools, &other.pools)
    }

    /// The same set once more. The only error is want of memory.
    pub fn try_clone(&self, alloc: Global) -> Result<Cut, AllocError>
        ensures { IfOk result (λ copy. copy ≡ self.now) }
    {
        let places = Vec::from_slice(alloc, &self.places)?;
        let points = Vec::from_slice(alloc, &self.points)?;
        let pools = Vec::from_slice(alloc, &self.pools)?;
        Ok(Cut {
            places,
            points,
            pools,
        })
    }

    /// Whether a place is inside.
    fn has_place(&self, question: &Question, place: PlaceId) -> bool
        ensures { result ≡ has_place (side_of question.now.pipeline self.now) place.0 }
    {
        let _ = question;
        entry(&self.places, place.0)
    }

    /// Whether a point or pool is inside.
    fn has_end(&self, question: &Question, end: Element) -> bool
        ensures { result ≡ has_end (side_of question.now.pipeline self.now) end.0 }
    {
        let segments = question.system().segment_count();
        if end.0 < segments {
            return false;
        }
        let at = end.0 - segments;
        let points = self.points.len();
        if at < points {
            entry(&self.points, at)
        } else {
            entry(&self.pools, at - points)
        }
    }
}

/// What can flow out of the set through an element, in dekatherms a gas day.
fn way_out(question: &Question, cut: &Cut, at: Element) -> u64
    requires { at.0 < length question.now.asked.elements }
    ensures is { result ≡ way_out (side_of question.now.pipeline cut.now) at.0
        (asked_element question.now.asked at.0) }
    ensures small { result ≤ Dth.MAX }
{
    match question.part(at) {
        Part::Segment(from, to, capacity)
            if cut.has_place(question, from) && !cut.has_place(question, to) => { capacity.get() }
        Part::Receipt(place, capacity)
            if cut.has_end(question, at) && !cut.has_place(question, place) => { capacity.get() }
        Part::Delivery(place, capacity)
            if cut.has_place(question, place) && !cut.has_end(question, at) => { capacity.get() }
        _ => 0,
    }
}

/// What the ways out of the set can take.
fn can_leave(question: &Question, cut: &Cut) -> u64
    ensures is { result ≡ can_leave question.now.asked (side_of question.now.pipeline cut.now) }
    ensures small { result ≤ 10_000_000_000_000 }
{
    question.known();
    let mut sum = 0;
    for at in 0..question.element_count() {
        sum += way_out(question, cut, Element(at));
    }
    sum
}

/// The floors of the lines that lead out of the set.
fn must_leave(question: &Question, cut: &Cut) -> u64
    ensures is { result ≡ must_leave question.now.asked (side_of question.now.pipeline cut.now) }
    ensures small { result ≤ 20_000_000_000_000 }
{
    question.known();
    let mut sum = 0;
    for line in 0..question.line_count() {
        if cut.has_end(question, question.origin(line))
            && !cut.has_end(question, question.dest(line))
        {
            sum += question.floor(line).get();
        }
    }
    sum
}

/// The ceilings of the lines that lead into the set.
fn may_enter(question: &Question, cut: &Cut) -> u64
    ensures is { result ≡ may_enter question.now.asked (side_of question.now.pipeline cut.now) }
    ensures small { result ≤ 20_000_000_000_000 }
{
    question.known();
    let mut sum = 0;
    for line in 0..question.line_count() {
        if cut.has_end(question, question.dest(line))
            && !cut.has_end(question, question.origin(line))
        {
            sum += question.ceiling(line).get();
        }
    }
    sum
}

/// Passes exactly where more must leave the set than can; then no schedule is allowed. It answers how much more, in dekatherms a gas day.
///
/// What must leave is the floors of the lines that lead out. What can is the ceilings of the lines that lead in, and the capacities of the segments and points that lead out (Hoffman).
pub fn check_cut(question: &Question, cut: &Cut) -> Result<u64, CutFault>
    ensures excess { IfOk result
        (λ n. IsShaped question.now.pipeline cut.now × Cuts question.now cut.now
        × (pos n ≡ excess question.now.asked (side_of question.now.pipeline cut.now))) }
    ensures none { IfOk result (λ n. (schedule : List ℕ) → IsAllowed question.now.asked schedule
        → ⊥) }
    ensures fault { IfErr result (ExplainsCut question.now cut.now) }
{
    question.known();
    let system = question.system();
    if cut.places.len() != system.place_count()
        || cut.points.len() != system.point_count()
        || cut.pools.len() != system.pool_count()
    {
        return Err(CutFault::Shape);
    }
    let ways = may_enter(question, cut) + can_leave(question, cut);
    let owed = must_leave(question, cut);
    if owed <= ways {
        return Err(CutFault::NotCut);
    }
    Ok(owed - ways)
}
