//! Questions, with all that can be read of them.

ghost use Rattle.std.specs.Prelude.{◌≡◌, ◌↔◌, IsTrue, ◌+◌, ◌<◌, ◌==◌, Some, None, Ok, Err, length, slice_get, Option, Result, IfOk, OnOk, OnErr, MatchResult, if◌then◌else◌};
ghost use Rattle.std.specs.List.{count_by};
ghost use Rattle.gd_rules.specs.Question.{line, element as asked_element};
ghost use Rattle.gd_question.specs.Known.{IsKnown, limit_of};
ghost use Rattle.gd_question.specs.Placing.{IsPlaced};
ghost use Rattle.gd_question.specs.Filling.{after_capacity, checked_line, with_line, capacity_fault, posed};
ghost use Rattle.gd_question.specs.InForce.{with_limit};
ghost use Rattle.gd_question.specs.Stored.{IsRow, ends_of_row, AreOwn};
ghost use Rattle.gd_system.specs.Pipeline.{names_of};
ghost use Rattle.gd_system.specs.Parts.{element_of};

use crate::{CapacityFault, LineFault, MAX_LINES};
use gd_system::{Element, Ends, Part, System};
use gd_units::{Class, CycleNo, Dth, Name, Round};
use std::alloc::{AllocError, Global};
use std::marker::Model;

/// A line in memory: its ends stand for its route, which the tree tells.
#[derive(Clone, Copy, Debug, PartialEq, Eq)]
pub(crate) struct Row {
    ends: Ends,
    class: Class,
    floor: Dth,
    ceiling: Dth,
}

/// A pipeline with the capacities in force in one cycle, and lines with their floors and ceilings. All quantities are dekatherms a gas day.
///
/// Lines and elements count from 0. No route is kept: contracts see it, and calls walk it along the tree.
#[derive(Drop)]
pub struct Question {
    system: System,
    // of segments and points, in force
    capacities: Vec<Dth>,
    rows: Vec<Row>,
    book: Name,
    cycle: CycleNo,
    round: Round,
}

impl Model for Question {
    ghost use Rattle.gd_question.specs.Posing.{Posed};

    ghost Value = { Posed };

    ghost use Rattle.gd_question.specs.Inside.{posed_of, IsSound};

    ghost view = { posed_of };

    ghost invariant = { IsSound };
}

/// What may pass a part at most: `None` at a pool.
fn limit_of_part(part: Part) -> Option<Dth>
    ensures { result ≡ limit_of (element_of part) }
{
    match part {
        Part::Segment(_, _, capacity) => Some(capacity),
        Part::Receipt(_, capacity) => Some(capacity),
        Part::Delivery(_, capacity) => Some(capacity),
        Part::Pool(_) => None,
    }
}

/// The part with another capacity.
fn with_limit(part: Part, limit: Dth) -> Part
    ensures { element_of result ≡ with_limit (element_of part) limit }
{
    match part {
        Part::Segment(from, to, _) => Part::Segment(from, to, limit),
        Part::Receipt(place, _) => Part::Receipt(place, limit),
        Part::Delivery(place, _) => Part::Delivery(place, limit),
        Part::Pool(place) => Part::Pool(place),
    }
}

/// The capacities of a system's segments and points, by number.
pub(crate) fn capacities_of(alloc: Global, system: &System) -> Result<Vec<Dth>, AllocError>
    ensures own { IfOk result (λ limits. AreOwn system.now limits.items) }
{
    system.known();
    let count = system.segment_count() + system.point_count();
    let mut limits = Vec::with_capacity(alloc, count)?;
    for at in 0..count {
        match limit_of_part(system.part(Element(at))) {
            Some(limit) => limits.push(limit)?,
            None => unreachable!(),
        }
    }
    Ok(limits)
}

/// Whether both lists have the same capacities in the same order.
fn same_capacities(a: &[Dth], b: &[Dth]) -> bool
    ensures { IsTrue result ↔ (a.now ≡ b.now) }
{
    a == b
}

/// Whether both have the same lines in the same order.
fn same_rows(a: &[Row], b: &[Row]) -> bool
    ensures { IsTrue result ↔ (a.now ≡ b.now) }
{
    a == b
}

impl Question {
    /// A question without lines, with the system's own capacities in force.
    pub(crate) fn empty(
        alloc: Global,
        system: System,
        book: Name,
        cycle: CycleNo,
        round: Round,
    ) -> Result<Question, AllocError>
        ensures { IfOk result (λ question. question ≡ posed system book cycle round) }
    {
        match capacities_of(alloc, &system) {
            Ok(capacities) => Ok(Question {
                system,
                capacities,
                rows: Vec::new(alloc),
                book,
                cycle,
                round,
            }),
            Err(fault) => {
                drop(system);
                Err(fault)
            }
        }
    }

    /// Sets the capacity in force of a segment or a point.
    pub(crate) fn set_capacity(
        &mut self,
        element: Element,
        capacity: Dth,
    ) -> Result<(), CapacityFault>
        ensures done { OnOk result (after_capacity self.old element.0 capacity ≡ Ok self.new) }
        ensures refused { MatchResult result (λ _. capacity_fault self.old element.0 ≡ None)
            (λ fault. (capacity_fault self.old element.0 ≡ Some fault) × (self.new ≡ self.old)) }
    {
        if element.0 >= self.system.element_count() {
            return Err(CapacityFault::UnknownElement);
        }
        if element.0 >= self.capacities.len() {
            return Err(CapacityFault::IsPool);
        }
        self.capacities[element.0] = capacity;
        Ok(())
    }

    /// The first refusal of a line, or the line.
    pub(crate) fn check_line(
        &self,
        origin: Name,
        dest: Name,
        class: u8,
        floor: Dth,
        ceiling: Dth,
    ) -> Result<Row, LineFault>
        ensures row { MatchResult result
            (λ row. (checked_line self.now origin dest class floor ceiling ≡ Ok (ends_of_row row))
            × IsRow self.now.pipeline row)
            (λ fault. checked_line self.now origin dest class floor ceiling ≡ Err fault) }
        ensures told { IfOk result
            (λ row. (row.class ≡ class) × (row.floor ≡ floor) × (row.ceiling ≡ ceiling)) }
        ensures few { OnOk result (length self.now.asked.lines < MAX_LINES) }
    {
        let ends = self.system.ends(origin, dest)?;
        if ceiling.get() < floor.get() {
            return Err(LineFault::FloorAboveCeiling);
        }
        let Some(class) = Class::new(class) else {
            return Err(LineFault::BadClass);
        };
        if self.rows.len() >= MAX_LINES {
            return Err(LineFault::TooMany);
        }
        Ok(Row {
            ends,
            class,
            floor,
            ceiling,
        })
    }

    /// Adds a line that passed the check, last.
    pub(crate) fn push_row(&mut self, row: Row) -> Result<(), AllocError>
        requires sound { IsRow self.old.pipeline row }
        requires few { length self.old.asked.lines < MAX_LINES }
        ensures pushed { OnOk result
            (self.new ≡ with_line self.old (ends_of_row row) row.class row.floor row.ceiling) }
        ensures kept { OnErr result (self.new ≡ self.old) }
    {
        self.rows.push(row)?;
        Ok(())
    }

    /// Another question of the same pipeline, capacities in force, lines, book, cycle and round. The only error is want of memory.
    pub fn try_clone(&self, alloc: Global) -> Result<Question, AllocError>
        ensures { IfOk result (λ copy. copy ≡ self.now) }
    {
        let system = self.system.try_clone(alloc)?;
        let Ok(capacities) = Vec::from_slice(alloc, &self.capacities) else {
            drop(system);
            return Err(AllocError);
        };
        let Ok(rows) = Vec::from_slice(alloc, &self.rows) else {
            drop(system);
            drop(capacities);
            return Err(AllocError);
        };
        Ok(Question {
            system,
            capacities,
            rows,
            book: self.book,
            cycle: self.cycle,
            round: self.round,
        })
    }

    /// Whether both have the same pipeline, capacities in force, lines in the same order, book, cycle and round. Takes no memory.
    pub fn same(&self, other: &Question) -> bool
        ensures { IsTrue result ↔ (self.now ≡ other.now) }
    {
        self.system.same(&other.system)
            && same_capacities(&self.capacities, &other.capacities)
            && same_rows(&self.rows, &other.rows)
            && self.book == other.book
            && self.cycle == other.cycle
            && self.round == other.round
    }

    /// What holds of every question.
    pub fn known(&self)
        ensures { IsKnown self.now.asked }
    {
        self.system.known();
        let _rows = &self.rows;
    }

    /// Where the elements of every question stand: segments first, and each on a place of the pipeline.
    pub fn placed(&self)
        ensures { IsPlaced self.now.pipeline self.now.asked }
    {
        self.system.known();
        let _rows = &self.rows;
    }

    /// The pipeline, with its own capacities.
    pub fn system(&self) -> &System
        ensures { result.now ≡ self.now.pipeline }
    {
        &self.system
    }

    /// The name of an element.
    pub fn name(&self, element: Element) -> Name
        requires { element.0 < length self.now.asked.elements }
        ensures { slice_get (names_of self.now.pipeline) element.0 ≡ Some result }
    {
        self.system.name(element)
    }

    /// The name of the book that asks.
    pub fn book(&self) -> Name
        ensures { result ≡ self.now.book }
    {
        self.book
    }

    /// The cycle that it is asked for.
    pub fn cycle(&self) -> CycleNo
        ensures { result ≡ self.now.cycle }
    {
        self.cycle
    }

    /// Which freeze of the day asks, from 1.
    pub fn round(&self) -> Round
        ensures { result ≡ self.now.round }
    {
        self.round
    }

    /// How many lines there are.
    pub fn line_count(&self) -> usize
        ensures { result ≡ length self.now.asked.lines }
    {
        self.rows.len()
    }

    /// How many segments, points and pools there are.
    pub fn element_count(&self) -> usize
        ensures { result ≡ length self.now.asked.elements }
    {
        self.system.element_count()
    }

    /// The line's priority class.
    pub fn class(&self, at: usize) -> Class
        requires { at < length self.now.asked.lines }
        ensures { result ≡ (line self.now.asked at).class }
    {
        self.rows[at].class
    }

    /// The least quantity that the line must get.
    pub fn floor(&self, at: usize) -> Dth
        requires { at < length self.now.asked.lines }
        ensures { result ≡ (line self.now.asked at).floor }
    {
        self.rows[at].floor
    }

    /// The line's confirmed quantity, the most that it may get.
    pub fn ceiling(&self, at: usize) -> Dth
        requires { at < length self.now.asked.lines }
        ensures { result ≡ (line self.now.asked at).ceiling }
    {
        self.rows[at].ceiling
    }

    /// Where the line's gas comes from: a receipt point or a pool.
    pub fn origin(&self, at: usize) -> Element
        requires { at < length self.now.asked.lines }
        ensures { result.0 ≡ (line self.now.asked at).origin }
    {
        self.rows[at].ends.origin
    }

    /// Where it goes to: a delivery point or a pool.
    pub fn dest(&self, at: usize) -> Element
        requires { at < length self.now.asked.lines }
        ensures { result.0 ≡ (line self.now.asked at).dest }
    {
        self.rows[at].ends.dest
    }

    /// What an element is, with the capacity in force.
    pub fn part(&self, element: Element) -> Part
        requires { element.0 < length self.now.asked.elements }
        ensures { element_of result ≡ asked_element self.now.asked element.0 }
    {
        let part = self.system.part(element);
        if element.0 >= self.capacities.len() {
            return part;
        }
        with_limit(part, self.capacities[element.0])
    }

    /// The most that may pass an element in this cycle; `None` at a pool, whose load is 0.
    pub fn limit(&self, element: Element) -> Option<Dth>
        requires { element.0 < length self.now.asked.elements }
        ensures { result ≡ limit_of (asked_element self.now.asked element.0) }
    {
        limit_of_part(self.part(element))
    }

    /// Whether a segment stands in a line's route. A route passes it at most once.
    pub fn passes(&self, at: usize, segment: Element) -> bool
        requires known { at < length self.now.asked.lines }
        requires few { segment.0 < length self.now.asked.elements }
        ensures { (if result then 1 else 0) ≡ count_by (λ k. k == segment.0)
            (line self.now.asked at).route }
    {
        self.system.known();
        let ends = self.rows[at].ends;
        let tree = self.system.tree();
        tree.passes(
            ends.origin_place.0 as u32,
            ends.dest_place.0 as u32,
            segment.0 as u32,
        )
    }
}
