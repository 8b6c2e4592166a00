//! The search for a shortest walk from one node to another (Dijkstra).

use crate::graph::{Graph, Link};
use gd_network::{Network, Step};
use gd_simplex::Worth;
use std::alloc::{AllocError, Global};
use std::collections::BinaryHeap;

/// What a search knows of a node: how far it is, and the last step there, from the node `before`.
#[derive(Clone, Copy, Debug)]
struct Mark {
    /// The search that reached the node last.
    turn: u32,
    is_settled: bool,
    distance: Worth,
    before: usize,
    step: Step,
}

impl Mark {
    const NONE: Mark = Mark {
        turn: 0,
        is_settled: false,
        distance: Worth::NONE,
        before: 0,
        step: Step {
            arc: 0,
            back: false,
        },
    };
}

/// A node that waits in the heap; the nearest is the greatest.
#[derive(Clone, Copy, PartialEq, Eq, PartialOrd, Ord)]
struct Reached {
    nearness: Worth,
    node: usize,
}

/// The nodes that a search reached. Those as near as the last one settled wait in a queue, the others in a heap.
#[derive(Drop)]
pub(crate) struct Search {
    marks: Vec<Mark>,
    turn: u32,
    heap: BinaryHeap<Reached>,
    queue: Vec<usize>,
    /// The place of the queue's first node.
    first: usize,
    /// How far the last node settled is.
    distance: Worth,
    /// The nodes settled, in order.
    settled: Vec<usize>,
}

impl Search {
    /// A search over so many nodes that has reached none.
    pub(crate) fn of(alloc: Global, nodes: usize) -> Result<Search, AllocError> {
        let mut marks = Vec::with_capacity(alloc, nodes)?;
        for _ in 0..nodes {
            marks.push(Mark::NONE)?;
        }
        Ok(Search {
            marks,
            turn: 0,
            heap: BinaryHeap::new(alloc),
            queue: Vec::new(alloc),
            first: 0,
            distance: Worth::NONE,
            settled: Vec::new(alloc),
        })
    }

    /// What is known of a node.
    #[inline]
    fn mark(&self, node: usize) -> Mark {
        match self.marks.get(node) {
            Some(mark) => *mark,
            None => Mark::NONE,
        }
    }

    /// Begins at a node.
    fn begin(&mut self, from: usize) -> Result<(), AllocError> {
        self.turn = self.turn.wrapping_add(1);
        self.heap.clear();
        self.queue.clear();
        self.settled.clear();
        self.first = 0;
        self.distance = Worth::NONE;
        if let Some(mark) = self.marks.get_mut(from) {
            *mark = Mark {
                turn: self.turn,
                ..Mark::NONE
            };
        }
        self.queue.push(from)?;
        Ok(())
    }

    /// The nearest node that waits, and how far it is.
    #[inline]
    fn nearest(&mut self) -> Option<(usize, Worth)> {
        if let Some(node) = self.queue.get(self.first).copied() {
            self.first = self.first.wrapping_add(1);
            return Some((node, self.distance));
        }
        let reached = self.heap.pop()?;
        Some((reached.node, Worth::NONE.less(reached.nearness)))
    }

    /// Notes that a node is no further than this.
    fn settle(&mut self, node: usize, distance: Worth) -> Result<(), AllocError> {
        self.distance = distance;
        if let Some(mark) = self.marks.get_mut(node) {
            mark.is_settled = true;
        }
        self.settled.push(node)?;
        Ok(())
    }

    /// Takes a step from a node, where it leads to another one sooner than any before.
    #[inline]
    fn take(&mut self, link: Link, node: usize, limit: Worth) -> Result<(), AllocError> {
        if Worth::NONE.is_above(link.length) {
            return Ok(());
        }
        let distance = self.distance.plus(link.length);
        let known = self.mark(link.head);
        let is_new = known.turn != self.turn;
        let is_nearer = is_new || (!known.is_settled && known.distance.is_above(distance));
        if !is_nearer || !limit.is_above(distance) {
            return Ok(());
        }
        if let Some(mark) = self.marks.get_mut(link.head) {
            *mark = Mark {
                turn: self.turn,
                is_settled: false,
                distance,
                before: node,
                step: link.step,
            };
        }
        self.wait(link.head, distance)
    }

    /// Has a node wait.
    fn wait(&mut self, node: usize, distance: Worth) -> Result<(), AllocError> {
        if self.distance.is_above(distance) || distance.is_above(self.distance) {
            let nearness = Worth::NONE.less(distance);
            let _room = self.heap.push(Reached { nearness, node })?;
            Ok(())
        } else {
            self.queue.push(node)?;
            Ok(())
        }
    }

    /// Takes each step from a node that has room and doesn't improve.
    fn relax(
        &mut self,
        graph: &Graph,
        network: &Network<'_>,
        flow: &[i64],
        node: usize,
        limit: Worth,
    ) -> Result<(), AllocError> {
        for number in graph.joins.at(node) {
            if let Some(link) = graph.link(network, flow, *number, node) {
                self.take(link, node, limit)?;
            }
        }
        Ok(())
    }

    /// How far it is from one node to another, where that is less than a limit.
    pub(crate) fn run(
        &mut self,
        graph: &Graph,
        network: &Network<'_>,
        flow: &[i64],
        (from, to): (usize, usize),
        limit: Worth,
    ) -> Result<Option<Worth>, AllocError> {
        self.begin(from)?;
        for _ in 0..graph.joins.count().saturating_mul(2).saturating_add(1) {
            let Some((node, distance)) = self.nearest() else {
                return Ok(None);
            };
            if !limit.is_above(distance) {
                return Ok(None);
            }
            if !self.mark(node).is_settled {
                self.settle(node, distance)?;
                if node == to {
                    return Ok(Some(distance));
                }
                self.relax(graph, network, flow, node, limit)?;
            }
        }
        Ok(None)
    }

    /// Raises the potentials of the nodes settled, each by how much nearer than this it is. Then each step of the walk
    /// found gains as much as the potentials rise, and still no step that took part gains more.
    pub(crate) fn raise(&self, graph: &mut Graph, distance: Worth) {
        for node in &self.settled {
            graph.raise(*node, distance.less(self.mark(*node).distance));
        }
    }

    /// Adds the steps of the walk found, the last one first.
    pub(crate) fn add_steps(
        &self,
        from: usize,
        to: usize,
        walk: &mut Vec<Step>,
    ) -> Result<(), AllocError> {
        let mut node = to;
        for _ in 0..self.marks.len() {
            if node == from {
                return Ok(());
            }
            let mark = self.mark(node);
            walk.push(mark.step)?;
            node = mark.before;
        }
        Ok(())
    }
}
