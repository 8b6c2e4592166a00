//! Proposals for best schedules, by a network simplex over the tree of a question's elements.
//!
//! The contracts here promise that each call is safe, that it returns, and that a proposal has a quantity for each line and
//! a potential for each node. They promise nothing of what these mean: not that the schedule is best, nor even that it is
//! allowed. That is enough, since nobody has to believe a proposal. The solver brings the schedule between floors and
//! ceilings, mends what is out of balance, and looks at each step of the network whether the potentials show the flow
//! best; where they don't, it goes on without them. So a wrong proposal costs time, and never a wrong answer. That
//! proposals are mostly right, which makes the solver fast, is tested.
#![tactic(auto)]

mod arc;
mod fill;
mod pivot;
mod simplex;
mod start;
mod tree;
mod worth;

ghost use Rattle.std.specs.Prelude.{◌≡◌, ◌+◌, length, IfOk};

use arc::short;
use gd_cost::Tariff;
use gd_question::Question;
use gd_schedule::Schedule;
use gd_units::Dth;
use simplex::Simplex;
use start::start;
use std::alloc::{AllocError, Global};
pub use worth::{Gains, Worth};

/// A schedule that may be best, and potentials that may show it.
#[derive(Drop)]
pub struct Proposal {
    /// A quantity for each line, in dekatherms a gas day.
    pub schedule: Schedule,
    /// A potential for each node of the question's network, by its number.
    pub potentials: Vec<Tariff>,
    /// How many pivots it took, those among them that carry nothing.
    pub pivots: usize,
}

/// The quantities of the lines.
fn schedule_of(
    alloc: Global,
    question: &Question,
    simplex: &Simplex,
) -> Result<Schedule, AllocError>
    ensures { IfOk result (λ schedule. length schedule ≡ length question.now.asked.lines) }
{
    let mut quantities = Vec::with_capacity(alloc, question.line_count())?;
    for line in 0..question.line_count() {
        let arc = question.element_count().saturating_add(line);
        let carried = u64::try_from(simplex.amount(short(arc)).now).unwrap_or(0);
        quantities.push(match Dth::new(carried) {
            Ok(quantity) => quantity,
            Err(_) => question.floor(line),
        })?;
    }
    Ok(Schedule::of(quantities))
}

/// The potentials of the nodes.
fn potentials_of(
    alloc: Global,
    question: &Question,
    simplex: &Simplex,
) -> Result<Vec<Tariff>, AllocError>
    ensures { IfOk result (λ potentials. length potentials.items
        ≡ length question.now.asked.elements + 1) }
{
    question.known();
    let mut potentials = Vec::new(alloc);
    for node in 0..question.element_count() + 1 {
        potentials.push(simplex.potential(short(node)).tariff())?;
    }
    Ok(potentials)
}

/// How many pivots there are for each arc at first, in each round: no question was seen to take two.
const PIVOTS: usize = 16;

/// How many there are at the second attempt, before it is given up.
const MORE_PIVOTS: usize = 256;

/// A schedule that may be best, with potentials, found from a first one by a network simplex. The only error is want of memory.
///
/// Of the first schedule, entries past the lines are dropped, missing ones are 0, and each is brought between floor and
/// ceiling. The first attempt could turn in a circle, though it was never seen to. The second begins where the first was
/// given up; it can't turn in a circle (strongly feasible trees, Cunningham), but many of its pivots carry nothing.
pub fn propose(alloc: Global, question: &Question, first: &Schedule) -> Result<Proposal, AllocError>
    ensures lines { IfOk result (λ proposal. length proposal.schedule
        ≡ length question.now.asked.lines) }
    ensures nodes { IfOk result (λ proposal. length proposal.potentials.items
        ≡ length question.now.asked.elements + 1) }
{
    let mut simplex = start(alloc, question, first)?;
    let mut pivots = 0;
    if !simplex.solve(alloc, false, PIVOTS)? {
        pivots = simplex.pivots;
        let reached = schedule_of(alloc, question, &simplex)?;
        simplex = start(alloc, question, &reached)?;
        let _ended = simplex.solve(alloc, true, MORE_PIVOTS)?;
    }
    Ok(Proposal {
        schedule: schedule_of(alloc, question, &simplex)?,
        potentials: potentials_of(alloc, question, &simplex)?,
        pivots: pivots.wrapping_add(simplex.pivots),
    })
}
