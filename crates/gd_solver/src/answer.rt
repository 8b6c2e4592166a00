//! The solver.

ghost use Rattle.std.specs.Prelude.{IfOk};
ghost use Rattle.gd_solver.specs.Answer.{Solves};

use crate::prices::prices_of;
use gd_certificate::{Cut, Prices};
use gd_cost::Tariff;
use gd_flow::{Feasible, Repaired, repair};
use gd_mincost::settle_from;
use gd_network::{Network, potentials_price};
use gd_question::Question;
use gd_schedule::Schedule;
use gd_simplex::{Proposal, propose};
use std::alloc::{AllocError, Global};

/// The answer to a question.
#[derive(Drop)]
pub enum Answer {
    /// A best schedule, and prices by the tariff in force that show it best.
    Best(Schedule, Prices<Tariff>),
    /// A cut, where no schedule is allowed.
    Impossible(Cut),
}

/// The best schedule that a feasible flow leads to, and its prices. Potentials may show already that it is best.
fn best_of(
    alloc: Global,
    feasible: Feasible<'_>,
    proposed: Vec<Tariff>,
) -> Result<Answer, AllocError>
    ensures { IfOk result (Solves feasible.entry.question) }
{
    potentials_price();
    feasible.known();
    let best = settle_from::<Tariff>(alloc, feasible, proposed)?;
    let network = best.network();
    network.known();
    let schedule = network.schedule_of(alloc, best.flow())?;
    let prices = prices_of(alloc, network, best.potentials())?;
    Ok(Answer::Best(schedule, Prices::of(prices)))
}

/// The answer that a network leads to.
fn solution(
    alloc: Global,
    network: Network<'_>,
    proposed: Vec<Tariff>,
) -> Result<Answer, AllocError>
    ensures { IfOk result (Solves network.entry.question) }
{
    network.known();
    match repair(alloc, network)? {
        Repaired::Feasible(feasible) => best_of(alloc, feasible, proposed),
        Repaired::Impossible(cut) => Ok(Answer::Impossible(cut)),
    }
}

/// The answer to a question, whatever is proposed for it. The only error is want of memory.
///
/// Nothing of a proposal is believed. Of its schedule, entries past the lines are dropped, missing ones are 0, and each is
/// brought between floor and ceiling; the repair mends what is out of balance or above a capacity, and the settling looks
/// whether the potentials show the flow best. The better a proposal, the sooner the answer.
pub fn solve_with(
    alloc: Global,
    question: &Question,
    proposal: Proposal,
) -> Result<Answer, AllocError>
    ensures { IfOk result (Solves question.now) }
{
    let Proposal {
        schedule,
        potentials,
        ..
    } = proposal;
    solution(alloc, Network::at(alloc, question, &schedule)?, potentials)
}

/// A best schedule with prices that show it, or a cut that shows that none is allowed. The only error is want of memory.
pub fn solve(alloc: Global, question: &Question) -> Result<Answer, AllocError>
    ensures { IfOk result (Solves question.now) }
{
    let floors = Schedule::of(Vec::new(alloc));
    solve_with(alloc, question, propose(alloc, question, &floors)?)
}

/// The same, beginning from a schedule: entries past the lines are dropped, missing ones are 0, and each is brought
/// between floor and ceiling. The only error is want of memory.
pub fn solve_from(
    alloc: Global,
    question: &Question,
    schedule: &Schedule,
) -> Result<Answer, AllocError>
    ensures { IfOk result (Solves question.now) }
{
    solve_with(alloc, question, propose(alloc, question, schedule)?)
}
