//! Feasible flows.

ghost use Rattle.std.specs.Prelude.{◌≡◌, length};
ghost use Rattle.gd_network.specs.Arcs.{IsNetwork};
ghost use Rattle.gd_network.specs.Flow.{IsCirculation, IsWithin};

use gd_network::{Flow, Network};
use std::marker::Model;

/// A flow that balances within the bounds of a network's arcs.
///
/// A contract sees the question, the arcs and the amounts.
#[derive(Drop)]
pub struct Feasible<'q> {
    network: Network<'q>,
    flow: Flow,
}

impl<'q> Model for Feasible<'q> {
    ghost use Rattle.gd_flow.specs.Feasible.{Flowing};

    ghost Value = { Flowing };

    ghost use Rattle.gd_flow.specs.Inside.{flowing_of, flows};

    ghost view = { flowing_of };

    ghost invariant = { flows };
}

impl<'q> Feasible<'q> {
    /// A flow that balances within the bounds of its network's arcs.
    pub(crate) fn of(network: Network<'q>, flow: Flow) -> Feasible<'q>
        requires size { length flow ≡ length network.arcs }
        requires balances { IsCirculation network.arcs flow }
        requires within { IsWithin network.arcs flow }
        ensures { result ≡ record {
          question = network.entry.question;
          arcs = network.entry.arcs;
          flow = flow;
        } }
    {
        Feasible { network, flow }
    }

    /// What holds of every feasible flow: there is an amount for each arc of the question's network, it balances, and
    /// each lies within its arc's bounds.
    pub fn known(&self)
        ensures network { IsNetwork self.now.question.asked self.now.arcs }
        ensures size { length self.now.flow ≡ length self.now.arcs }
        ensures balances { IsCirculation self.now.arcs self.now.flow }
        ensures within { IsWithin self.now.arcs self.now.flow }
    {
        self.network.known();
        let _flow = &self.flow;
    }

    /// The network.
    pub fn network(&self) -> &Network<'q>
        ensures question { result.now.question ≡ self.now.question }
        ensures arcs { result.now.arcs ≡ self.now.arcs }
    {
        &self.network
    }

    /// The flow.
    pub fn flow(&self) -> &Flow
        ensures { result.now ≡ self.now.flow }
    {
        &self.flow
    }

    /// The network and the flow.
    pub fn into_parts(self) -> (Network<'q>, Flow)
        ensures question { result.0.question ≡ self.entry.question }
        ensures arcs { result.0.arcs ≡ self.entry.arcs }
        ensures flow { result.1 ≡ self.entry.flow }
    {
        let Feasible { network, flow } = self;
        (network, flow)
    }
}
