//! The links along which a flow can change.

ghost use Rattle.std.specs.Prelude.{◌≡◌, ◌<◌, ◌++◌, ◌∷◌, [], pos, ◌≤ℤ◌, ◌<ℤ◌, length, map, IfOk, OnOk};
ghost use Rattle.gd_network.specs.Steps.{room, IsNear};
ghost use Rattle.gd_mincost.specs.Gains.{AreGains};
ghost use Rattle.gd_mincost.specs.Residual.{IsSound, IsWhole, Holds, Keeps};

use gd_cost::Cost;
use gd_labels::Links;
use gd_network::{Network, Step};
use std::alloc::{AllocError, Global};

/// The steps that a flow leaves room for, as links.
#[derive(Drop)]
pub(crate) struct Residual<C> {
    /// The links, from node to node.
    pub links: Links<C>,
    /// The step of each link.
    pub steps: Vec<Step>,
}

impl<C: Cost> Residual<C> {
    /// No links.
    fn none(alloc: Global) -> Residual<C>
        ensures from { result.links.from.items ≡ [] }
        ensures to { result.links.to.items ≡ [] }
        ensures gain { result.links.gain.items ≡ [] }
        ensures steps { result.steps.items ≡ [] }
    {
        Residual {
            links: Links {
                from: Vec::new(alloc),
                to: Vec::new(alloc),
                gain: Vec::new(alloc),
            },
            steps: Vec::new(alloc),
        }
    }

    /// Adds a link for a step.
    fn link(&mut self, step: Step, from: usize, to: usize, gain: C) -> Result<(), AllocError>
        ensures from { OnOk result (self.new.links.from.items
            ≡ self.old.links.from.items ++ from ∷ []) }
        ensures to { OnOk result (self.new.links.to.items ≡ self.old.links.to.items ++ to ∷ []) }
        ensures gain { OnOk result (self.new.links.gain.items
            ≡ self.old.links.gain.items ++ gain ∷ []) }
        ensures steps { OnOk result (self.new.steps.items ≡ self.old.steps.items ++ step ∷ []) }
    {
        self.links.from.push(from)?;
        self.links.to.push(to)?;
        self.links.gain.push(gain)?;
        self.steps.push(step)?;
        Ok(())
    }

    /// Adds the link of a step, where the step has room.
    fn add(
        &mut self,
        network: &Network<'_>,
        gains: &[C],
        flow: &[i64],
        step: Step,
    ) -> Result<(), AllocError>
        requires arc { step.arc < length network.now.arcs }
        requires gains { AreGains C.scale C.within (length network.now.arcs)
            (map C.meaning gains.now) }
        requires near { IsNear network.now.arcs flow.now }
        requires sound { IsSound C.scale C.meaning network.now.arcs flow.now
            (map C.meaning gains.now) self.old }
        ensures sound { OnOk result (IsSound C.scale C.meaning network.now.arcs flow.now
            (map C.meaning gains.now) self.new) }
        ensures kept { OnOk result (Keeps self.old.steps.items self.new.steps.items) }
        ensures added { OnOk result (pos 0 <ℤ room network.now.arcs flow.now step
            → Holds self.new.steps.items step) }
    {
        if step.room(network, flow) <= 0 {
            return Ok(());
        }
        let arc = network.arc(step.arc);
        let gain = gains[step.arc];
        if step.back {
            self.link(step, arc.to, arc.from, C::zero().sub(gain))
        } else {
            self.link(step, arc.from, arc.to, gain)
        }
    }

    /// Adds the links of both steps of an arc, as far as they have room.
    fn add_arc(
        &mut self,
        network: &Network<'_>,
        gains: &[C],
        flow: &[i64],
        arc: usize,
    ) -> Result<(), AllocError>
        requires arc { arc < length network.now.arcs }
        requires gains { AreGains C.scale C.within (length network.now.arcs)
            (map C.meaning gains.now) }
        requires near { IsNear network.now.arcs flow.now }
        requires sound { IsSound C.scale C.meaning network.now.arcs flow.now
            (map C.meaning gains.now) self.old }
        ensures sound { OnOk result (IsSound C.scale C.meaning network.now.arcs flow.now
            (map C.meaning gains.now) self.new) }
        ensures kept { OnOk result (Keeps self.old.steps.items self.new.steps.items) }
        ensures added { OnOk result ((step : Step) → step.arc ≡ arc
            → pos 0 <ℤ room network.now.arcs flow.now step → Holds self.new.steps.items step) }
    {
        self.add(network, gains, flow, Step { arc, back: false })?;
        self.add(network, gains, flow, Step { arc, back: true })?;
        Ok(())
    }

    /// Adds the links of the elements' arcs, the last one first.
    fn add_elements(
        &mut self,
        network: &Network<'_>,
        gains: &[C],
        flow: &[i64],
    ) -> Result<(), AllocError>
        requires gains { AreGains C.scale C.within (length network.now.arcs)
            (map C.meaning gains.now) }
        requires near { IsNear network.now.arcs flow.now }
        requires sound { IsSound C.scale C.meaning network.now.arcs flow.now
            (map C.meaning gains.now) self.old }
        ensures sound { OnOk result (IsSound C.scale C.meaning network.now.arcs flow.now
            (map C.meaning gains.now) self.new) }
        ensures kept { OnOk result (Keeps self.old.steps.items self.new.steps.items) }
    {
        network.known();
        for arc in (0..network.node_count() - 1).rev() {
            self.add_arc(network, gains, flow, arc)?;
        }
        Ok(())
    }

    /// The links of a flow: along each arc that can carry more, and back along each that can carry less.
    ///
    /// The elements' links come twice, from the first and at the end from the last: they are a tree, each with its node
    /// behind an earlier one, so that the end of one sweep and the beginning of the next carry a label from any node of it
    /// to any other.
    pub(crate) fn of(
        alloc: Global,
        network: &Network<'_>,
        gains: &[C],
        flow: &[i64],
    ) -> Result<Residual<C>, AllocError>
        requires gains { AreGains C.scale C.within (length network.now.arcs)
            (map C.meaning gains.now) }
        requires near { IsNear network.now.arcs flow.now }
        ensures sound { IfOk result (IsSound C.scale C.meaning network.now.arcs flow.now
            (map C.meaning gains.now)) }
        ensures whole { IfOk result
            (λ residual. IsWhole network.now.arcs flow.now (length network.now.arcs)
            residual.steps.items) }
    {
        let mut residual = Residual::none(alloc);
        for arc in 0..network.arc_count() {
            residual.add_arc(network, gains, flow, arc)?;
        }
        residual.add_elements(network, gains, flow)?;
        Ok(residual)
    }
}
