//! The search for a walk from one node to another by steps that have room, breadth first.

ghost use Rattle.std.specs.Prelude.{◌≡◌, ℕ, ◌+◌, ◌<◌, pos, ◌<ℤ◌, length, get_or, slice_set, true, false, replicate, ◌≢◌, IfOk, OnOk, MatchOption};
ghost use Rattle.gd_network.specs.Steps.{tail_of, head_of, room};
ghost use Rattle.gd_flow.specs.Keeping.{IsKept};
ghost use Rattle.gd_flow.specs.Search.{find_at, IsSearch, IsTried, AreTried, Grows, Closes};

use gd_network::{Network, Step};
use std::alloc::{AllocError, Global};

/// A node that a search found, and the step that led to it from the node found at the place `before`.
#[derive(Clone, Copy, Debug)]
pub(crate) struct Find {
    node: usize,
    // at place 0, where the search begins, these two say nothing
    step: Step,
    before: usize,
}

/// The nodes that a search found, each once, in order.
#[derive(Drop)]
pub(crate) struct Search {
    // which nodes are found
    pub(crate) marks: Vec<bool>,
    finds: Vec<Find>,
}

impl Search {
    /// A search that has found the node from which it sets out.
    fn start(alloc: Global, nodes: usize, node: usize) -> Result<Search, AllocError>
        requires { node < nodes }
        ensures size { IfOk result (λ s. length s.marks.items ≡ nodes) }
        ensures first { IfOk result (λ s. (length s.finds.items ≡ 1)
            × ((find_at s 0).node ≡ node)) }
        ensures marks { IfOk result (λ s. s.marks.items
            ≡ slice_set (replicate nodes false) node true) }
    {
        let mut marks = vec![in alloc; false; nodes]?;
        marks[node] = true;
        let mut finds = Vec::new(alloc);
        let step = Step {
            arc: 0,
            back: false,
        };
        finds.push(Find {
            node,
            step,
            before: 0,
        })?;
        Ok(Search { marks, finds })
    }

    /// Takes a step from the node found at a place, where it begins there and has room.
    fn take(
        &mut self,
        network: &Network<'_>,
        flow: &[i64],
        at: usize,
        step: Step,
    ) -> Result<(), AllocError>
        requires kept { IsKept network.now.arcs flow.now }
        requires search { IsSearch network.now flow.now self.old }
        requires at { at < length self.old.finds.items }
        requires arc { step.arc < length network.now.arcs }
        ensures search { OnOk result (IsSearch network.now flow.now self.new) }
        ensures grows { OnOk result (Grows self.old self.new) }
        ensures tried { OnOk result (IsTried network.now.arcs flow.now self.new.marks.items
            (find_at self.old at).node step) }
    {
        if step.tail(network) != self.finds[at].node || step.room(network, flow) <= 0 {
            return Ok(());
        }
        network.known();
        let node = step.head(network);
        if self.marks[node] {
            return Ok(());
        }
        self.finds.push(Find {
            node,
            step,
            before: at,
        })?;
        self.marks[node] = true;
        Ok(())
    }

    /// Takes all steps from the node found at a place.
    fn spread(&mut self, network: &Network<'_>, flow: &[i64], at: usize) -> Result<(), AllocError>
        requires kept { IsKept network.now.arcs flow.now }
        requires search { IsSearch network.now flow.now self.old }
        requires at { at < length self.old.finds.items }
        ensures search { OnOk result (IsSearch network.now flow.now self.new) }
        ensures grows { OnOk result (Grows self.old self.new) }
        ensures tried { OnOk result ((step : Step) → step.arc < length network.now.arcs
            → IsTried network.now.arcs flow.now self.new.marks.items
            (find_at self.old at).node step) }
    {
        let node = self.finds[at].node;
        for number in network.links(node) {
            let arc = *number;
            self.take(network, flow, at, Step { arc, back: false })?;
            self.take(network, flow, at, Step { arc, back: true })?;
        }
        Ok(())
    }

    /// Searches from one node until another is found, or no step leads to a new node.
    pub(crate) fn run(
        alloc: Global,
        network: &Network<'_>,
        flow: &[i64],
        from: usize,
        to: usize,
    ) -> Result<Search, AllocError>
        requires kept { IsKept network.now.arcs flow.now }
        requires from { from < length network.now.question.asked.elements + 1 }
        requires to { to < length network.now.question.asked.elements + 1 }
        ensures search { IfOk result (IsSearch network.now flow.now) }
        ensures first { IfOk result (λ s. (find_at s 0).node ≡ from) }
        ensures tried { IfOk result
            (λ s. get_or s.marks.items to false ≡ false
            → AreTried network.now.arcs flow.now s (length s.finds.items)) }
    {
        let mut search = Search::start(alloc, network.node_count(), from)?;
        let mut at = 0;
        while at < search.finds.len() && !search.marks[to] {
            search.spread(network, flow, at)?;
            at += 1;
        }
        Ok(search)
    }

    /// The place at which a node is found.
    pub(crate) fn place(&self, node: usize) -> Option<usize>
        ensures { MatchOption result
            ((k : ℕ) → k < length self.now.finds.items → (find_at self.now k).node ≢ node)
            (λ k. (k < length self.now.finds.items) × ((find_at self.now k).node ≡ node)) }
    {
        for (at, find) in self.finds.iter().enumerate() {
            if find.node == node {
                return Some(at);
            }
        }
        None
    }

    /// The steps by which the node at a place was found, with a step from there back to the first node.
    pub(crate) fn walk_to(
        &self,
        alloc: Global,
        network: &Network<'_>,
        flow: &[i64],
        mut at: usize,
        last: Step,
    ) -> Result<Vec<Step>, AllocError>
        requires search { IsSearch network.now flow.now self.now }
        requires at { at < length self.now.finds.items }
        requires last { last.arc < length network.now.arcs }
        requires starts { tail_of network.now.arcs last ≡ (find_at self.now at).node }
        requires ends { head_of network.now.arcs last ≡ (find_at self.now 0).node }
        requires has_room { pos 0 <ℤ room network.now.arcs flow.now last }
        ensures { IfOk result (λ walk. Closes network.now.arcs flow.now last walk.items) }
    {
        // of these two the contract speaks
        let _ = network;
        let _ = flow;
        let mut walk = Vec::new(alloc);
        walk.push(last)?;
        while at > 0 {
            let find = self.finds[at];
            walk.push(find.step)?;
            at = find.before;
        }
        walk.reverse();
        Ok(walk)
    }
}
