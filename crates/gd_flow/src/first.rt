//! The flow with which a repair begins.

ghost use Rattle.std.specs.Prelude.{IfOk};
ghost use Rattle.gd_network.specs.Beginning.{IsFirst};
ghost use Rattle.gd_network.specs.Flow.{IsCirculation};

use gd_network::{Flow, Network};
use gd_shortest::allowed_schedule;
use std::alloc::{AllocError, Global};

/// Whether each amount lies within its arc's bounds.
fn is_within(network: &Network<'_>, flow: &[i64]) -> bool {
    for number in 0..network.arc_count() {
        let arc = network.arc(number);
        match flow.get(number) {
            Some(amount) if arc.lower <= *amount && *amount <= arc.upper => {}
            _ => return false,
        }
    }
    true
}

/// The network's first flow, or where that is out of bounds the flow of a schedule that is proposed, if it is within them. So
/// there is nothing to mend where that schedule is allowed.
pub(crate) fn first_flow(alloc: Global, network: &Network<'_>) -> Result<Flow, AllocError>
    ensures balances { IfOk result (IsCirculation network.now.arcs) }
    ensures small { IfOk result (IsFirst network.now.arcs) }
{
    network.known();
    let first = network.first();
    if is_within(network, first.amounts()) {
        return first.try_clone(alloc);
    }
    let schedule = allowed_schedule(alloc, network)?;
    let proposed = network.flow_of(alloc, &schedule)?;
    if is_within(network, proposed.amounts()) {
        return Ok(proposed);
    }
    first.try_clone(alloc)
}
