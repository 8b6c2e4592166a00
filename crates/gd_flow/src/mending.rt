//! The repair of a flow that is out of bounds.

ghost use Rattle.std.specs.Prelude.{◌<◌, length, IfOk, OnOk, MatchOption};
ghost use Rattle.gd_certificate.specs.Explained.{IsShaped, Cuts};
ghost use Rattle.gd_network.specs.Flow.{IsWithin};
ghost use Rattle.gd_network.specs.Steps.{IsNearer, Mends};
ghost use Rattle.gd_flow.specs.Keeping.{IsKept, Holds};
ghost use Rattle.gd_flow.specs.Repair.{Repairs};
ghost use Rattle.gd_flow.specs.Ways.{IsWay};

use crate::Feasible;
use crate::cut::cut_of;
use crate::faults::fault_of;
use crate::first::first_flow;
use crate::search::Search;
use gd_certificate::Cut;
use gd_network::{Flow, Network, Step, least_room, near_fits, push, reached_cut};
use std::alloc::{AllocError, Global};

/// What a repair comes to.
#[derive(Drop)]
pub enum Repaired<'q> {
    /// A flow that balances within bounds.
    Feasible(Feasible<'q>),
    /// A cut, where no schedule is allowed.
    Impossible(Cut),
}

/// How a step that mends an arc can be closed.
#[derive(Drop)]
enum Way {
    /// A closed walk with that step.
    Walk(Vec<Step>),
    /// It can't: a cut.
    Cut(Cut),
}

/// Looks for a walk from a step's end back to its start. Where there is none, the nodes reached are a cut.
fn closing(
    alloc: Global,
    network: &Network<'_>,
    flow: &[i64],
    step: Step,
) -> Result<Way, AllocError>
    requires kept { IsKept network.now.arcs flow.now }
    requires arc { step.arc < length network.now.arcs }
    requires mends { Mends network.now.arcs flow.now step }
    ensures { IfOk result (IsWay network.now flow.now step) }
{
    network.known();
    reached_cut();
    let to = step.tail(network);
    let search = Search::run(alloc, network, flow, step.head(network), to)?;
    match search.place(to) {
        Some(at) => Ok(Way::Walk(search.walk_to(alloc, network, flow, at, step)?)),
        None => Ok(Way::Cut(cut_of(alloc, network, &search.marks)?)),
    }
}

/// Brings an arc within its bounds; no other comes further from its own. It answers a cut where there is no way to do so.
fn mend(
    alloc: Global,
    network: &Network<'_>,
    flow: &mut [i64],
    number: usize,
) -> Result<Option<Cut>, AllocError>
    requires kept { IsKept network.now.arcs flow.old }
    requires arc { number < length network.now.arcs }
    ensures kept { OnOk result (IsKept network.now.arcs flow.new) }
    ensures nearer { OnOk result (IsNearer network.now.arcs flow.old flow.new) }
    ensures mended { IfOk result (λ cut. MatchOption cut
        (Holds network.now.arcs flow.new number)
        (λ cut. IsShaped network.now.question.pipeline cut × Cuts network.now.question cut)) }
{
    network.known();
    while let Some(fault) = fault_of(network, flow, number) {
        match closing(alloc, network, flow, fault.step)? {
            Way::Walk(walk) => {
                let amount = least_room(network, flow, &walk, fault.amount);
                near_fits(network, flow);
                push(network, flow, &walk, amount);
            }
            Way::Cut(cut) => return Ok(Some(cut)),
        }
    }
    Ok(None)
}

/// Brings each arc within its bounds. It answers a cut where there is no way to do so.
fn mend_all(
    alloc: Global,
    network: &Network<'_>,
    flow: &mut [i64],
) -> Result<Option<Cut>, AllocError>
    requires { IsKept network.now.arcs flow.old }
    ensures kept { OnOk result (IsKept network.now.arcs flow.new) }
    ensures mended { IfOk result (λ cut. MatchOption cut
        (IsWithin network.now.arcs flow.new)
        (λ cut. IsShaped network.now.question.pipeline cut × Cuts network.now.question cut)) }
{
    for number in 0..network.arc_count() {
        if let Some(cut) = mend(alloc, network, flow, number)? {
            return Ok(Some(cut));
        }
    }
    Ok(None)
}

/// A flow that balances within the bounds of all arcs, found from the network's first flow or from a schedule that is
/// proposed, or a cut that shows that there is none (Hoffman). The only error is want of memory.
pub fn repair<'q>(alloc: Global, network: Network<'q>) -> Result<Repaired<'q>, AllocError>
    ensures { IfOk result (Repairs network.entry.question network.entry.arcs) }
{
    network.known();
    let mut flow = first_flow(alloc, &network)?.into_amounts();
    match mend_all(alloc, &network, &mut flow)? {
        Some(cut) => Ok(Repaired::Impossible(cut)),
        None => Ok(Repaired::Feasible(Feasible::of(network, Flow::of(flow)))),
    }
}
