//! Walks over a network's arcs, and what a push along one leaves.

ghost use Rattle.std.specs.Prelude.{◌≡◌, ℕ, ◌<◌, length, get_or, slice_set, pos, ◌≤ℤ◌, ◌<ℤ◌, FitsSigned};
ghost use Rattle.std.specs.Int.{w64};
ghost use Rattle.gd_network.specs.Flow.{flow_at, IsCirculation, IsWithin};
ghost use Rattle.gd_network.specs.Steps.{moved, pushed, Follows, Once, AreSteps, HasRooms, IsNearer, Mends, all_amiss};

use crate::Network;

/// A step of a walk: along an arc, or back along it.
#[derive(Clone, Copy, Debug)]
pub struct Step {
    /// The arc's number.
    pub arc: usize,
    /// Whether it is taken from its end to its start.
    pub back: bool,
}

/// Carries an amount along one step.
fn push_step(flow: &mut [i64], step: Step, amount: i64)
    requires within { step.arc < length flow.old }
    requires fits { FitsSigned w64 (moved flow.old step amount) }
    ensures { flow.new ≡ slice_set flow.old step.arc (moved flow.old step amount) }
{
    if step.back {
        flow[step.arc] -= amount;
    } else {
        flow[step.arc] += amount;
    }
}

/// Carries an amount, in dekatherms a gas day, along each step of a walk, no step of which comes twice and each of
/// which has the room.
///
/// It asks for an amount of at least 0 and for as many entries in the flow as arcs. Along a closed walk the flow
/// balances as before. No arc comes further from its bounds, and an arc that the walk mends comes nearer to them.
pub fn push(network: &Network<'_>, flow: &mut [i64], walk: &[Step], amount: i64)
    requires size { length flow.old ≡ length network.now.arcs }
    requires fits { (a : ℕ) → FitsSigned w64 (flow_at flow.old a) }
    requires amount { pos 0 ≤ℤ amount }
    requires steps { AreSteps network.now.arcs walk.now }
    requires rooms { HasRooms network.now.arcs flow.old walk.now amount }
    requires once { Once walk.now }
    ensures size { length flow.new ≡ length network.now.arcs }
    ensures fits { (a : ℕ) → FitsSigned w64 (flow_at flow.new a) }
    ensures pushed { flow.new ≡ pushed flow.old walk.now amount }
    ensures balances { (node : ℕ) → Follows network.now.arcs node walk.now node
        → IsCirculation network.now.arcs flow.old → IsCirculation network.now.arcs flow.new }
    ensures nearer { IsNearer network.now.arcs flow.old flow.new }
    ensures within { IsWithin network.now.arcs flow.old → IsWithin network.now.arcs flow.new }
    ensures mends { (k : ℕ) (s : Step) → k < length walk.now → pos 0 <ℤ amount
        → Mends network.now.arcs flow.old (get_or walk.now k s)
        → all_amiss network.now.arcs flow.new < all_amiss network.now.arcs flow.old }
{
    network.known();
    for step in walk {
        push_step(flow, *step, amount);
    }
}
