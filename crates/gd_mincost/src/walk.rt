//! Closed walks that gain, and pushes along them.

ghost use Rattle.std.specs.Prelude.{◌≡◌, ℕ, ◌<◌, length, map, IfOk, OnOk};
ghost use Rattle.gd_scale.specs.Scale.{IsAbove};
ghost use Rattle.gd_labels.specs.Links.{node_at};
ghost use Rattle.gd_labels.specs.Findings.{IsGaining};
ghost use Rattle.gd_mincost.specs.Gains.{value};
ghost use Rattle.gd_flow.specs.Feasible.{IsFeasible};
ghost use Rattle.gd_mincost.specs.Residual.{IsSound};
ghost use Rattle.gd_mincost.specs.ClosedWalks.{steps_along};

use crate::residual::Residual;
use gd_cost::Cost;
use gd_network::{Network, Step, least_room, near_fits, push, within_is_near};
use std::alloc::{AllocError, Global};

/// More than any arc carries.
pub(crate) const GREATEST: i64 = 1 << 62;

/// The steps of a walk whose links are listed from the last to the first.
fn steps_along(alloc: Global, steps: &[Step], walk: &[usize]) -> Result<Vec<Step>, AllocError>
    requires { (k : ℕ) → k < length walk.now → node_at walk.now k < length steps.now }
    ensures { IfOk result (λ along. along.items ≡ steps_along steps.now walk.now) }
{
    let mut along = Vec::new(alloc);
    for link in walk {
        along.push(steps[*link])?;
    }
    along.reverse();
    Ok(along)
}

/// Carries as much as there is room for along a closed walk of links that gains. What the flow is worth rises.
pub(crate) fn push_closed<C: Cost>(
    alloc: Global,
    network: &Network<'_>,
    residual: &Residual<C>,
    gains: &[C],
    flow: &mut [i64],
    walk: &[usize],
) -> Result<(), AllocError>
    requires feasible { IsFeasible network.now.arcs flow.old }
    requires sound { IsSound C.scale C.meaning network.now.arcs flow.old
        (map C.meaning gains.now) residual.now }
    requires closed { IsGaining C.scale residual.now.links.from.items residual.now.links.to.items
        (map C.meaning residual.now.links.gain.items) walk.now }
    ensures feasible { OnOk result (IsFeasible network.now.arcs flow.new) }
    ensures rises { OnOk result (IsAbove C.scale
        (value C.scale (map C.meaning gains.now) network.now.arcs flow.new)
        (value C.scale (map C.meaning gains.now) network.now.arcs flow.old)) }
{
    network.known();
    let along = steps_along(alloc, &residual.steps, walk)?;
    within_is_near(network, flow);
    let amount = least_room(network, flow, &along, GREATEST);
    near_fits(network, flow);
    push(network, flow, &along, amount);
    Ok(())
}
