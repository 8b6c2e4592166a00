//! A feasible flow made best.

ghost use Rattle.std.specs.Prelude.{◌≡◌, ◌+◌, length, map, IfOk, OnOk, MatchOption};
ghost use Rattle.gd_scale.specs.Scale.{IsAbove};
ghost use Rattle.gd_mincost.specs.Settling.{IsSettled, worth};
ghost use Rattle.gd_mincost.specs.Gains.{AreGains, value};
ghost use Rattle.gd_flow.specs.Feasible.{IsFeasible};
ghost use Rattle.gd_mincost.specs.ClosedWalks.{AreShown};

use crate::found::push_found;
use crate::gains::gains;
use crate::residual::Residual;
use crate::still::show_best;
use crate::walk::push_closed;
use gd_cost::{ByClass, Cost};
use gd_flow::Feasible;
use gd_labels::{Found, potentials};
use gd_network::{Flow, Network, within_is_near};
use gd_shortest::Walks;
use std::alloc::{AllocError, Global};
use std::marker::Model;

/// A flow that balances within bounds, and a potential for each node, under which no arc with room gains by this cost.
///
/// A contract sees the question, the arcs, the amounts and the potentials.
#[derive(Drop)]
pub struct Best<'q, C: Cost> {
    network: Network<'q>,
    flow: Flow,
    potentials: Vec<C>,
}

impl<'q, C: Cost> Model for Best<'q, C> {
    ghost use Rattle.gd_mincost.specs.Settling.{Settled};

    ghost Value = { Settled C };

    ghost view = { λ b. record {
      question = b.network.question;
      arcs = b.network.arcs;
      flow = b.flow;
      potentials = b.potentials.items;
    } };
}

impl<'q, C: Cost> Best<'q, C> {
    /// The network.
    pub fn network(&self) -> &Network<'q>
        ensures question { result.now.question ≡ self.now.question }
        ensures arcs { result.now.arcs ≡ self.now.arcs }
    {
        &self.network
    }

    /// The flow.
    pub fn flow(&self) -> &Flow
        ensures { result.now ≡ self.now.flow }
    {
        &self.flow
    }

    /// The potentials, by the nodes' numbers.
    pub fn potentials(&self) -> &[C]
        ensures { result.now ≡ self.now.potentials }
    {
        self.potentials.as_slice()
    }
}

/// Pushes once along a closed walk that gains: the next one found that does, or else any that there is. Where there is none,
/// it answers potentials that show it.
fn improve<C: Cost>(
    alloc: Global,
    network: &Network<'_>,
    gains: &[C],
    flow: &mut [i64],
    walks: &mut Walks,
) -> Result<Option<Vec<C>>, AllocError>
    requires gains { AreGains C.scale C.within (length network.now.arcs) (map C.meaning gains.now) }
    requires feasible { IsFeasible network.now.arcs flow.old }
    ensures feasible { OnOk result (IsFeasible network.now.arcs flow.new) }
    ensures improved { IfOk result (λ found. MatchOption found
        (IsAbove C.scale (value C.scale (map C.meaning gains.now) network.now.arcs flow.new)
        (value C.scale (map C.meaning gains.now) network.now.arcs flow.old))
        (λ labels. AreShown C.scale C.within (length network.now.question.asked.elements + 1)
        network.now.arcs flow.new (map C.meaning gains.now) (map C.meaning labels.items))) }
{
    network.known();
    if push_found(alloc, network, gains, flow, walks)? {
        return Ok(None);
    }
    within_is_near(network, flow);
    let residual = Residual::of(alloc, network, gains, flow)?;
    match potentials(alloc, &residual.links, network.node_count())? {
        Found::Labels(labels) => Ok(Some(labels)),
        Found::Closed(walk) => {
            push_closed(alloc, network, &residual, gains, flow, &walk)?;
            walks.begin(network, flow);
            Ok(None)
        }
    }
}

/// Pushes along closed walks that gain until there is none (Klein), and answers potentials that show it.
///
/// What the flow is worth rises at each push. Where a search over all steps finds that some walk gains, the walks that follow
/// are looked for one by one, by shortest walks whose potentials are kept; the last word has a search over all steps.
fn rise<C: Cost>(
    alloc: Global,
    network: &Network<'_>,
    gains: &[C],
    flow: &mut [i64],
) -> Result<Vec<C>, AllocError>
    requires gains { AreGains C.scale C.within (length network.now.arcs) (map C.meaning gains.now) }
    requires feasible { IsFeasible network.now.arcs flow.old }
    ensures feasible { OnOk result (IsFeasible network.now.arcs flow.new) }
    ensures shown { IfOk result
        (λ labels. AreShown C.scale C.within (length network.now.question.asked.elements + 1)
        network.now.arcs flow.new (map C.meaning gains.now) (map C.meaning labels.items)) }
{
    network.known();
    let mut walks = Walks::of(alloc, network)?;
    loop {
        if let Some(labels) = improve(alloc, network, gains, flow, &mut walks)? {
            return Ok(labels);
        }
    }
}

/// Makes a feasible flow best by a cost, with potentials that show it. The only error is want of memory.
///
/// The value of a flow is what its lines' dekatherms are worth together, by class and tenth.
pub fn settle<'q, C: ByClass>(
    alloc: Global,
    feasible: Feasible<'q>,
) -> Result<Best<'q, C>, AllocError>
    ensures question { IfOk result (λ best. best.question ≡ feasible.entry.question) }
    ensures arcs { IfOk result (λ best. best.arcs ≡ feasible.entry.arcs) }
    ensures settled { IfOk result
        (λ best. IsSettled C.scale C.within (worth C.meaning C.at)
        best.question.asked best.arcs best.flow (map C.meaning best.potentials)) }
{
    settle_from(alloc, feasible, Vec::new(alloc))
}

/// The same, with potentials that may show the flow best already. Where they do, there is nothing left to find.
pub fn settle_from<'q, C: ByClass>(
    alloc: Global,
    feasible: Feasible<'q>,
    proposed: Vec<C>,
) -> Result<Best<'q, C>, AllocError>
    ensures question { IfOk result (λ best. best.question ≡ feasible.entry.question) }
    ensures arcs { IfOk result (λ best. best.arcs ≡ feasible.entry.arcs) }
    ensures settled { IfOk result
        (λ best. IsSettled C.scale C.within (worth C.meaning C.at)
        best.question.asked best.arcs best.flow (map C.meaning best.potentials)) }
{
    feasible.known();
    let (network, flow) = feasible.into_parts();
    if show_best(&network, flow.amounts(), &proposed) {
        return Ok(Best {
            network,
            flow,
            potentials: proposed,
        });
    }
    let gains = gains(alloc, &network)?;
    let mut amounts = flow.into_amounts();
    let potentials = rise(alloc, &network, &gains, &mut amounts)?;
    Ok(Best {
        network,
        flow: Flow::of(amounts),
        potentials,
    })
}
