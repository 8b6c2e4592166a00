//! Networks, whose circulations within bounds are the allowed schedules of a question.

ghost use Rattle.std.specs.Prelude.{◌≡◌, ℕ, ◌+◌, ◌<◌, ◌≤◌, [], length, IfOk, MatchOption};
ghost use Rattle.gd_rules.specs.Schedule.{IsAllowed, load};
ghost use Rattle.gd_question.specs.Known.{IsKnown};
ghost use Rattle.gd_question.specs.Placing.{IsPlaced};
ghost use Rattle.gd_network.specs.Arcs.{IsNetwork, arc_at, tenth_arc};
ghost use Rattle.gd_question.specs.Nodes.{AllBring, start, stop};
ghost use Rattle.gd_network.specs.Flow.{flow_at, IsCirculation, IsWithin, IsFlowOf, IsScheduleOf};
ghost use Rattle.gd_network.specs.Links.{links_of};
ghost use Rattle.gd_network.specs.Beginning.{clamped_schedule, AreSound, IsFirst};

use crate::arcs::arcs_of;
use crate::flow::{bring, flow_of, schedule_of};
use crate::links::links_of;
use crate::{Arc, Flow};
use gd_question::{Element, Question};
use gd_schedule::Schedule;
use std::alloc::{AllocError, Global};
use std::marker::Model;

/// A tenth of a line's ceiling, which one arc stands for.
#[derive(Clone, Copy, Debug)]
pub struct Tenth {
    /// The line, from 0.
    pub line: usize,
    /// How many tenths come before it, 0 to 9.
    pub before: usize,
}

/// A question as a network of nodes and arcs, and a flow to begin with.
///
/// Places, points and pools are nodes: a place has its own number, and a point or pool the one after its element's
/// number. Arc e, from 0, is that of element e, and its flow is the load: it leads along a segment, from a receipt
/// point into its place, and from a place to its delivery point or pool. Its flow lies between 0 and the capacity, which
/// is 0 at a pool. Then come ten arcs for each line, from its destination back to its origin, one for each tenth of its ceiling.
#[derive(Drop)]
pub struct Network<'q> {
    question: &'q Question,
    arcs: Vec<Arc>,
    // the arcs that begin or end at each node
    links: Vec<Vec<usize>>,
    first: Flow,
}

impl<'q> Model for Network<'q> {
    ghost use Rattle.gd_network.specs.Beginning.{Laid};

    ghost Value = { Laid };

    ghost use Rattle.gd_network.specs.Inside.{laid_of, IsLaid};

    ghost view = { laid_of };

    ghost invariant = { IsLaid };
}

impl<'q> Network<'q> {
    /// The network of a question; it begins with each line at its floor. The only error is want of memory.
    pub fn of(alloc: Global, question: &'q Question) -> Result<Network<'q>, AllocError>
        ensures asked { IfOk result (λ network. network.question ≡ question.now) }
        ensures arcs { IfOk result (λ network. IsNetwork question.now.asked network.arcs) }
        ensures first { IfOk result
            (λ network. IsFlowOf question.now.asked
            (clamped_schedule question.now.asked.lines []) network.first) }
    {
        let none = Schedule::of(Vec::new(alloc));
        Network::at(alloc, question, &none)
    }

    /// The network of a question; it begins with a schedule brought within bounds. The only error is want of memory.
    ///
    /// Entries past the lines are dropped, missing ones are 0, and each is brought between floor and ceiling.
    pub fn at(
        alloc: Global,
        question: &'q Question,
        schedule: &Schedule,
    ) -> Result<Network<'q>, AllocError>
        ensures asked { IfOk result (λ network. network.question ≡ question.now) }
        ensures arcs { IfOk result (λ network. IsNetwork question.now.asked network.arcs) }
        ensures first { IfOk result
            (λ network. IsFlowOf question.now.asked
            (clamped_schedule question.now.asked.lines schedule.now) network.first) }
    {
        question.known();
        let begun = bring(alloc, question, schedule)?;
        begun.known();
        let first = flow_of(alloc, question, &begun)?;
        let arcs = arcs_of(alloc, question)?;
        question.placed();
        let links = links_of(alloc, &arcs, question.element_count() + 1)?;
        Ok(Network {
            question,
            arcs,
            links,
            first,
        })
    }

    /// What holds of every network: its arcs are those of its question, whose elements lie in its pipeline, element e
    /// brings node e + 1, and the flow to begin with balances.
    pub fn known(&self)
        ensures network { IsNetwork self.now.question.asked self.now.arcs }
        ensures question { IsKnown self.now.question.asked }
        ensures placed { IsPlaced self.now.question.pipeline self.now.question.asked }
        ensures grown { AllBring self.now.question.asked }
        ensures sound { AreSound (length self.now.question.asked.elements + 1) self.now.arcs }
        ensures first { IsFirst self.now.arcs self.now.first }
        ensures balances { IsCirculation self.now.arcs self.now.first }
    {
        let question = self.question;
        question.known();
        question.placed();
        let _arcs = &self.arcs;
    }

    /// The question.
    pub fn question(&self) -> &'q Question
        ensures { result.now ≡ self.now.question }
    {
        self.question
    }

    /// The number of nodes, one more than elements.
    pub fn node_count(&self) -> usize
        ensures { result ≡ length self.now.question.asked.elements + 1 }
    {
        self.links.len()
    }

    /// The number of arcs.
    pub fn arc_count(&self) -> usize
        ensures { result ≡ length self.now.arcs }
    {
        self.arcs.len()
    }

    /// The arc of this number.
    pub fn arc(&self, number: usize) -> Arc
        requires { number < length self.now.arcs }
        ensures { result ≡ arc_at self.now.arcs number }
    {
        self.arcs[number]
    }

    /// The numbers of the arcs that begin or end at a node, in their order.
    pub fn links(&self, node: usize) -> &[usize]
        requires { node < length self.now.question.asked.elements + 1 }
        ensures { result.now ≡ links_of self.now.arcs node }
    {
        self.links[node].as_slice()
    }

    /// Which line's tenth an arc stands for; `None` at an element's arc.
    pub fn tenth(&self, number: usize) -> Option<Tenth>
        requires { number < length self.now.arcs }
        ensures { MatchOption result
            (number < length self.now.question.asked.elements)
            (λ tenth. (tenth.line < length self.now.question.asked.lines) × (tenth.before < 10)
            × (number ≡ tenth_arc self.now.question.asked tenth.line tenth.before)) }
    {
        self.known();
        let question = self.question;
        let elements = question.element_count();
        if number < elements {
            return None;
        }
        let at = number - elements;
        Some(Tenth {
            line: at / 10,
            before: at % 10,
        })
    }

    /// The nodes at which an element's arc begins and ends; `None` where there is no such element.
    pub fn ends(&self, element: Element) -> Option<(usize, usize)>
        ensures { MatchOption result
            (length self.now.question.asked.elements ≤ element.0)
            (λ ends. (element.0 < length self.now.question.asked.elements)
            × (ends.0 ≡ start self.now.question.asked element.0)
            × (ends.1 ≡ stop self.now.question.asked element.0)) }
    {
        if element.0 >= self.question.element_count() {
            return None;
        }
        let arc = self.arcs[element.0];
        Some((arc.from, arc.to))
    }

    /// The flow to begin with.
    pub fn first(&self) -> &Flow
        ensures { result.now ≡ self.now.first }
    {
        &self.first
    }

    /// The flow of a schedule: each element's arc carries its load, and each line's arcs its quantity, tenth by
    /// tenth. The only error is want of memory.
    ///
    /// It asks for one quantity for each line. What is above a ceiling counts with the last tenth.
    pub fn flow_of(&self, alloc: Global, schedule: &Schedule) -> Result<Flow, AllocError>
        requires { length schedule.now ≡ length self.now.question.asked.lines }
        ensures flow { IfOk result (IsFlowOf self.now.question.asked schedule.now) }
        ensures balances { IfOk result (IsCirculation self.now.arcs) }
        ensures within { IfOk result
            (λ flow. IsAllowed self.now.question.asked schedule.now → IsWithin self.now.arcs flow) }
        ensures small { IfOk result (IsFirst self.now.arcs) }
        ensures back { IfOk result
            (λ flow. IsScheduleOf self.now.question.asked flow schedule.now) }
    {
        self.known();
        schedule.known();
        flow_of(alloc, self.question, schedule)
    }

    /// The schedule of a flow: what each line's arcs carry. It is allowed, and an element's load is the flow of its
    /// arc. The only error is want of memory.
    ///
    /// It asks for a flow that balances within the bounds.
    pub fn schedule_of(&self, alloc: Global, flow: &Flow) -> Result<Schedule, AllocError>
        requires size { length flow.now ≡ length self.now.arcs }
        requires balances { IsCirculation self.now.arcs flow.now }
        requires within { IsWithin self.now.arcs flow.now }
        ensures schedule { IfOk result (IsScheduleOf self.now.question.asked flow.now) }
        ensures allowed { IfOk result (IsAllowed self.now.question.asked) }
        ensures loads { IfOk result
            (λ schedule. (e : ℕ) → e < length self.now.question.asked.elements
            → load self.now.question.asked schedule e ≡ flow_at flow.now e) }
    {
        self.known();
        schedule_of(alloc, self.question, &self.arcs, flow.amounts())
    }
}
