//! Where steps lead, and how much they can carry.

ghost use Rattle.std.specs.Prelude.{◌≡◌, ℕ, ◌<◌, length, pos, ◌<ℤ◌, FitsSigned};
ghost use Rattle.std.specs.Int.{w64};
ghost use Rattle.gd_network.specs.Flow.{flow_at, IsWithin};
ghost use Rattle.gd_network.specs.Steps.{tail_of, head_of, room, least_room, AreSteps, HasRooms, IsNear};

use crate::{Network, Step};

/// A flow with as many amounts as arcs, each within its arc's bounds, is near enough to them to count with.
pub fn within_is_near(network: &Network<'_>, flow: &[i64])
    requires size { length flow.now ≡ length network.now.arcs }
    requires within { IsWithin network.now.arcs flow.now }
    ensures { IsNear network.now.arcs flow.now }
{
    let _ = network;
    let _ = flow;
}

/// The amounts of a flow near enough to its bounds are numbers of 64 bits.
pub fn near_fits(network: &Network<'_>, flow: &[i64])
    requires { IsNear network.now.arcs flow.now }
    ensures { (a : ℕ) → FitsSigned w64 (flow_at flow.now a) }
{
    network.known();
    let _ = flow;
}

impl Step {
    /// The node at which the step begins.
    pub fn tail(self, network: &Network<'_>) -> usize
        requires { self.arc < length network.now.arcs }
        ensures { result ≡ tail_of network.now.arcs self }
    {
        let arc = network.arc(self.arc);
        if self.back { arc.to } else { arc.from }
    }

    /// The node to which it leads.
    pub fn head(self, network: &Network<'_>) -> usize
        requires { self.arc < length network.now.arcs }
        ensures { result ≡ head_of network.now.arcs self }
    {
        let arc = network.arc(self.arc);
        if self.back { arc.from } else { arc.to }
    }

    /// How much more it can carry, in dekatherms a gas day; below 0 where its arc is out of bounds on that side.
    pub fn room(self, network: &Network<'_>, flow: &[i64]) -> i64
        requires near { IsNear network.now.arcs flow.now }
        requires arc { self.arc < length network.now.arcs }
        ensures { result ≡ room network.now.arcs flow.now self }
    {
        network.known();
        let arc = network.arc(self.arc);
        if self.back {
            flow[self.arc] - arc.lower
        } else {
            arc.upper - flow[self.arc]
        }
    }
}

/// The least room of a walk's steps, or `most` where that is less, in dekatherms a gas day.
pub fn least_room(network: &Network<'_>, flow: &[i64], walk: &[Step], most: i64) -> i64
    requires near { IsNear network.now.arcs flow.now }
    requires steps { AreSteps network.now.arcs walk.now }
    ensures least { result ≡ least_room network.now.arcs flow.now walk.now most }
    ensures rooms { HasRooms network.now.arcs flow.now walk.now result }
    ensures some { pos 0 <ℤ most → HasRooms network.now.arcs flow.now walk.now (pos 1)
        → pos 0 <ℤ result }
{
    let mut least = most;
    for step in walk {
        least = least.min(step.room(network, flow));
    }
    least
}
