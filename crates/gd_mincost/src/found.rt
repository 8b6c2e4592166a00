//! Walks that were found, which gain if a look at each of their steps shows it.

ghost use Rattle.std.specs.Prelude.{◌≡◌, ◌<◌, ◌^◌, pos, true, false, length, map, IfOk, OnOk, IfSome, IsTrue};
ghost use Rattle.gd_scale.specs.Scale.{IsAbove};
ghost use Rattle.gd_network.specs.Steps.{AreSteps, Follows, Once};
ghost use Rattle.gd_flow.specs.Feasible.{IsFeasible};
ghost use Rattle.gd_mincost.specs.Gains.{AreGains, gained, gain_along, value};
ghost use Rattle.gd_mincost.specs.ClosedWalks.{IsGainingWalk, IsClosed};

use crate::walk::GREATEST;
use gd_cost::Cost;
use gd_network::{Network, Step, least_room, near_fits, push, within_is_near};
use gd_shortest::Walks;
use std::alloc::{AllocError, Global};

/// The greatest size of a number in what steps gain together, to which one more step's can be added.
const GREATEST_GAIN: i128 = 1 << 100;

/// Whether each step takes an arc of the network.
fn are_steps(network: &Network<'_>, walk: &[Step]) -> bool
    ensures { result ≡ true → AreSteps network.now.arcs walk.now }
{
    for step in walk {
        if step.arc >= network.arc_count() {
            return false;
        }
    }
    true
}

/// The node to which a walk leads from another one; `None` where some step doesn't begin where the one before it ends.
fn end_of(network: &Network<'_>, walk: &[Step], from: usize) -> Option<usize>
    requires { AreSteps network.now.arcs walk.now }
    ensures { IfSome result (λ end. Follows network.now.arcs from walk.now end) }
{
    let mut at = from;
    for step in walk {
        if step.tail(network) != at {
            return None;
        }
        at = step.head(network);
    }
    Some(at)
}

/// Whether a walk leads back to where it begins.
fn is_closed(network: &Network<'_>, walk: &[Step]) -> bool
    requires { AreSteps network.now.arcs walk.now }
    ensures { result ≡ true → IsClosed network.now.arcs walk.now }
{
    if walk.is_empty() {
        return false;
    }
    let from = walk[0].tail(network);
    match end_of(network, walk, from) {
        Some(end) => end == from,
        None => false,
    }
}

/// Whether no two steps lead to one node, so that none comes twice.
fn is_once(alloc: Global, network: &Network<'_>, walk: &[Step]) -> Result<bool, AllocError>
    requires { AreSteps network.now.arcs walk.now }
    ensures { IfOk result (λ once. once ≡ true → Once walk.now) }
{
    network.known();
    let mut marks = vec![in alloc; false; network.node_count()]?;
    for step in walk {
        let head = step.head(network);
        if marks[head] {
            return Ok(false);
        }
        marks[head] = true;
    }
    Ok(true)
}

/// What a step gains.
fn gain_of_step<C: Cost>(network: &Network<'_>, gains: &[C], step: Step) -> C
    requires arc { step.arc < length network.now.arcs }
    requires gains { AreGains C.scale C.within (length network.now.arcs) (map C.meaning gains.now) }
    ensures is { C.meaning result ≡ gained C.scale (map C.meaning gains.now) step }
    ensures fits { IsTrue (C.within (pos (2 ^ 100)) (C.meaning result)) }
{
    // of this one the contract speaks
    let _ = network;
    let gain = gains[step.arc];
    if step.back { C::zero().sub(gain) } else { gain }
}

/// What the steps of a walk gain together; `None` where that is too much to count with.
fn gain_of<C: Cost>(network: &Network<'_>, gains: &[C], walk: &[Step]) -> Option<C>
    requires steps { AreSteps network.now.arcs walk.now }
    requires gains { AreGains C.scale C.within (length network.now.arcs) (map C.meaning gains.now) }
    ensures { IfSome result
        (λ gain. C.meaning gain ≡ gain_along C.scale (map C.meaning gains.now) walk.now) }
{
    let mut gain = C::zero();
    for step in walk {
        if !gain.fits(GREATEST_GAIN) {
            return None;
        }
        gain = gain.add(gain_of_step(network, gains, *step));
    }
    Some(gain)
}

/// Whether a walk leads back to where it begins, without a step that comes twice, and gains.
fn does_gain<C: Cost>(
    alloc: Global,
    network: &Network<'_>,
    gains: &[C],
    walk: &[Step],
) -> Result<bool, AllocError>
    requires { AreGains C.scale C.within (length network.now.arcs) (map C.meaning gains.now) }
    ensures { IfOk result (λ does. does ≡ true
        → IsGainingWalk C.scale network.now.arcs (map C.meaning gains.now) walk.now) }
{
    if !are_steps(network, walk) {
        return Ok(false);
    }
    if !is_closed(network, walk) {
        return Ok(false);
    }
    if !is_once(alloc, network, walk)? {
        return Ok(false);
    }
    match gain_of(network, gains, walk) {
        Some(gain) => Ok(gain.cmp(C::zero()).is_gt()),
        None => Ok(false),
    }
}

/// Carries as much as there is room for along a walk, if it is closed and gains. What the flow is worth rises then.
fn push_gaining<C: Cost>(
    alloc: Global,
    network: &Network<'_>,
    gains: &[C],
    flow: &mut [i64],
    walk: &[Step],
) -> Result<bool, AllocError>
    requires gains { AreGains C.scale C.within (length network.now.arcs) (map C.meaning gains.now) }
    requires feasible { IsFeasible network.now.arcs flow.old }
    ensures feasible { OnOk result (IsFeasible network.now.arcs flow.new) }
    ensures rises { IfOk result (λ pushed. pushed ≡ true → IsAbove C.scale
        (value C.scale (map C.meaning gains.now) network.now.arcs flow.new)
        (value C.scale (map C.meaning gains.now) network.now.arcs flow.old)) }
    ensures still { IfOk result (λ pushed. pushed ≡ false → flow.new ≡ flow.old) }
{
    network.known();
    if !does_gain(alloc, network, gains, walk)? {
        return Ok(false);
    }
    within_is_near(network, flow);
    let amount = least_room(network, flow, walk, GREATEST);
    if amount <= 0 {
        return Ok(false);
    }
    near_fits(network, flow);
    push(network, flow, walk, amount);
    Ok(true)
}

/// Pushes along the next walk that is found; false where there is none, or where it doesn't gain.
pub(crate) fn push_found<C: Cost>(
    alloc: Global,
    network: &Network<'_>,
    gains: &[C],
    flow: &mut [i64],
    walks: &mut Walks,
) -> Result<bool, AllocError>
    requires gains { AreGains C.scale C.within (length network.now.arcs) (map C.meaning gains.now) }
    requires feasible { IsFeasible network.now.arcs flow.old }
    ensures feasible { OnOk result (IsFeasible network.now.arcs flow.new) }
    ensures rises { IfOk result (λ pushed. pushed ≡ true → IsAbove C.scale
        (value C.scale (map C.meaning gains.now) network.now.arcs flow.new)
        (value C.scale (map C.meaning gains.now) network.now.arcs flow.old)) }
    ensures still { IfOk result (λ pushed. pushed ≡ false → flow.new ≡ flow.old) }
{
    if !walks.find(network, flow)? {
        return Ok(false);
    }
    push_gaining(alloc, network, gains, flow, walks.walk())
}
