//! The tree of a pipeline's segments, by numbers: segment k joins place k + 1 to an earlier one.
#![tactic(auto)]

ghost use Rattle.std.specs.Prelude.{◌≡◌, ℕ, ◌+◌, ◌<◌, ◌≤◌, ◌++◌, ◌∷◌, [], List, length, get_or, IfOk, MatchOption, MatchResult, IsTrue, ◌↔◌, ◌==◌, if◌then◌else◌, true};
ghost use Rattle.std.specs.List.{count_by};
ghost use Rattle.gd_rules.specs.Question.{Element};
ghost use Rattle.gd_rules.specs.Question.Element.{Segment as segment, Pool as pool};
ghost use Rattle.gd_rules.specs.Tree.{IsTree, IsRoute};
ghost use Rattle.gd_tree.specs.Grown.{Joins, IsGrown, route_of, has_route};
ghost use Rattle.gd_tree.specs.Lifts.{IsLift, LiftsUp, LiftsDown};
ghost use Rattle.gd_tree.specs.Steps.{IsStep};

use gd_units::Dth;
use std::alloc::{AllocError, Global};
use std::marker::Model;

/// What grew place by place is a tree: any two places are joined by exactly one walk that repeats none.
pub fn grown_is_tree()
    ensures { (n : ℕ) (elements : List Element) → IsGrown n elements → IsTree (n + 1) elements }
{}

/// There is a route exactly where the walk between the two places goes along each segment's direction, and it is that walk's.
pub fn routes_are_walks()
    ensures { (elements : List Element) (n from to : ℕ) → IsGrown n elements → from ≤ n → to ≤ n
        → (has_route elements n from to ≡ true
        → IsRoute elements from (route_of elements n from to) to)
        × ((route : List ℕ) → IsRoute elements from route to
        → (has_route elements n from to ≡ true) × (route ≡ route_of elements n from to)) }
{}

/// A route has at most as many segments as there are.
pub fn routes_are_short()
    ensures { (elements : List Element) (n from to : ℕ) → length (route_of elements n from to) ≤ n }
{}

/// A one-way segment between two places, with its capacity in dekatherms a gas day.
#[derive(Clone, Copy, Debug, PartialEq, Eq, Drop)]
pub struct Segment {
    pub from: u32,
    pub to: u32,
    pub capacity: Dth,
}

/// The next segment on the way between two places, and the places that are left between.
#[derive(Clone, Copy, Debug, Drop)]
pub struct Step {
    pub segment: u32,
    pub along: bool,
    pub from: u32,
    pub to: u32,
}

/// Earlier places, one on the way from a place and one on the way to it.
///
/// From the place gas flows on to each place no later than `up` just where it does from `up`, and to the place it flows from each place no later than `down` just where it does to `down`.
#[derive(Clone, Copy, Debug, Drop)]
pub(crate) struct Lift {
    up: u32,
    down: u32,
}

/// Segments that grew place by place.
#[derive(Drop)]
pub struct Tree {
    segments: Vec<Segment>,
    // of all places but the first
    lifts: Vec<Lift>,
}

impl Model for Tree {
    ghost use Rattle.std.specs.Prelude.{List};
    ghost use Rattle.gd_rules.specs.Question.{Element};

    ghost Value = { List Element };

    ghost use Rattle.gd_tree.specs.View.{segments_of};
    ghost use Rattle.gd_tree.specs.Inside.{IsSound};

    ghost view = { segments_of };

    ghost invariant = { IsSound };
}

impl Tree {
    pub fn new(alloc: Global) -> Tree
        ensures { result ≡ [] }
    {
        Tree {
            segments: Vec::new(alloc),
            lifts: Vec::new(alloc),
        }
    }

    pub fn len(&self) -> usize
        ensures is { result ≡ length self.now }
        ensures grown { IsGrown (length self.now) self.now }
    {
        self.segments.len()
    }

    pub fn segment(&self, at: usize) -> Segment
        requires { at < length self.now }
        ensures is { get_or self.now at (pool 0) ≡ segment result.from result.to result.capacity }
        ensures joins { Joins at (segment result.from result.to result.capacity) }
    {
        self.segments[at]
    }

    /// Another tree of the same segments. The only error is want of memory.
    pub fn try_clone(&self, alloc: Global) -> Result<Tree, AllocError>
        ensures { IfOk result (λ copy. copy ≡ self.now) }
    {
        let segments = Vec::from_slice(alloc, &self.segments)?;
        let lifts = Vec::from_slice(alloc, &self.lifts)?;
        Ok(Tree { segments, lifts })
    }

    /// Whether both have the same segments with the same capacities.
    pub fn same(&self, other: &Tree) -> bool
        ensures { IsTrue result ↔ (self.now ≡ other.now) }
    {
        self.segments.as_slice() == other.segments.as_slice()
    }

    /// The lift of a place; the first place stays where it is.
    fn lift(&self, place: u32) -> Lift
        requires { place ≤ length self.now }
        ensures lift { IsLift self.now place result }
        ensures grown { IsGrown (length self.now) self.now }
    {
        let lifts = &self.lifts;
        if place == 0 {
            return Lift { up: 0, down: 0 };
        }
        lifts[place as usize - 1]
    }

    /// Where the lift of a new place leads that can send to this one: here, or where two lifts lead from here, if they pass equally many numbers. So a long chain is climbed in few lifts.
    fn next_up(&self, place: u32) -> u32
        requires { place ≤ length self.now }
        ensures { LiftsUp self.now place result }
    {
        let first = self.lift(place).up;
        let second = self.lift(first).up;
        if place - first == first - second {
            second
        } else {
            place
        }
    }

    /// The same of a new place to which this one can send.
    fn next_down(&self, place: u32) -> u32
        requires { place ≤ length self.now }
        ensures { LiftsDown self.now place result }
    {
        let first = self.lift(place).down;
        let second = self.lift(first).down;
        if place - first == first - second {
            second
        } else {
            place
        }
    }

    /// Joins a new place to an earlier one.
    pub fn push(&mut self, next: Segment) -> Result<(), AllocError>
        requires { Joins (length self.old) (segment next.from next.to next.capacity) }
        ensures { MatchResult result
            (λ _. self.new ≡ self.old ++ segment next.from next.to next.capacity ∷ [])
            (λ _. self.new ≡ self.old) }
    {
        let lift = if next.to < next.from {
            Lift {
                up: self.next_up(next.to),
                down: next.from,
            }
        } else {
            Lift {
                up: next.to,
                down: self.next_down(next.from),
            }
        };
        self.lifts.reserve(1)?;
        self.segments.push(next)?;
        self.lifts.push(lift).unwrap();
        Ok(())
    }

    /// The next segment on the way.
    pub fn step(&self, from: u32, to: u32) -> Option<Step>
        requires from_known { from ≤ length self.now }
        requires to_known { to ≤ length self.now }
        ensures next { MatchOption result (from ≡ to) (IsStep self.now from to) }
        ensures grown { IsGrown (length self.now) self.now }
    {
        let segments = &self.segments;
        if from == to {
            return None;
        }
        if from > to {
            let at = from - 1;
            let segment = segments[at as usize];
            let along = segment.from == from;
            let next = if along { segment.to } else { segment.from };
            Some(Step {
                segment: at,
                along,
                from: next,
                to,
            })
        } else {
            let at = to - 1;
            let segment = segments[at as usize];
            let along = segment.to == to;
            let next = if along { segment.from } else { segment.to };
            Some(Step {
                segment: at,
                along,
                from,
                to: next,
            })
        }
    }

    /// An earlier place on the way from one place to another, or the first itself: as far as lifts lead without passing the other by.
    fn lift_up(&self, from: u32, to: u32) -> u32
        requires from_known { from ≤ length self.now }
        requires to_known { to ≤ length self.now }
        ensures below { result ≤ from }
        ensures same { has_route self.now (length self.now) result to
            ≡ has_route self.now (length self.now) from to }
    {
        let mut at = from;
        let mut up = self.lift(at).up;
        while to <= up && up < at {
            at = up;
            up = self.lift(at).up;
        }
        at
    }

    /// The same on the way to a place.
    fn lift_down(&self, from: u32, to: u32) -> u32
        requires from_known { from ≤ length self.now }
        requires to_known { to ≤ length self.now }
        ensures below { result ≤ to }
        ensures same { has_route self.now (length self.now) from result
            ≡ has_route self.now (length self.now) from to }
    {
        let mut at = to;
        let mut down = self.lift(at).down;
        while from <= down && down < at {
            at = down;
            down = self.lift(at).down;
        }
        at
    }

    /// Whether there is a route from one place to another: each segment on the way is passed along its direction. Lifts shorten long ways.
    pub fn runs(&self, from: u32, to: u32) -> bool
        requires from_known { from ≤ length self.now }
        requires to_known { to ≤ length self.now }
        ensures is { result ≡ has_route self.now (length self.now) from to }
        ensures exists { IsTrue result ↔ ((route : List ℕ) × IsRoute self.now from route to) }
    {
        let mut a = self.lift_up(from, to);
        let mut b = self.lift_down(a, to);
        while let Some(step) = self.step(a, b) {
            if !step.along {
                return false;
            }
            a = self.lift_up(step.from, step.to);
            b = self.lift_down(a, step.to);
        }
        true
    }

    /// The segments from one place to another, each passed along its direction, or none where one would be passed against it.
    pub fn route(&self, alloc: Global, from: u32, to: u32) -> Result<Option<Vec<u32>>, AllocError>
        requires from_known { from ≤ length self.now }
        requires to_known { to ≤ length self.now }
        ensures { IfOk result
            (λ found. MatchOption found ((other : List ℕ) → IsRoute self.now from other to → ⊥)
            (λ r. (r.items ≡ route_of self.now (length self.now) from to)
            × IsRoute self.now from r.items to
            × ((other : List ℕ) → IsRoute self.now from other to → other ≡ r.items))) }
    {
        let mut front = Vec::new(alloc);
        let mut back = Vec::new(alloc);
        let mut a = from;
        let mut b = to;
        while let Some(step) = self.step(a, b) {
            if !step.along {
                return Ok(None);
            }
            if step.to == b {
                front.push(step.segment)?;
            } else {
                back.push(step.segment)?;
            }
            a = step.from;
            b = step.to;
        }
        while let Some(segment) = back.pop() {
            front.push(segment)?;
        }
        Ok(Some(front))
    }

    /// How often a segment stands on the way: once or never.
    pub fn passes(&self, from: u32, to: u32, segment: u32) -> bool
        requires from_known { from ≤ length self.now }
        requires to_known { to ≤ length self.now }
        ensures { (if result then 1 else 0) ≡ count_by (λ k. k == segment)
            (route_of self.now (length self.now) from to) }
    {
        let mut a = from;
        let mut b = to;
        while let Some(step) = self.step(a, b) {
            if step.segment == segment {
                return true;
            }
            a = step.from;
            b = step.to;
        }
        false
    }
}
