//! Closed walks that may gain, one after the other.

use crate::graph::Graph;
use crate::joins::{TENTHS, arc_of};
use crate::search::Search;
use gd_network::{Network, Step};
use gd_simplex::Worth;
use gd_units::Class;
use std::alloc::{AllocError, Global};

/// Walks that close a line's tenth each, those first that gain most by a dekatherm: class by class, and in each tenth by
/// tenth. The potentials of the nodes are kept from one walk to the next, so that no step improves but those of tenths whose
/// turn is still to come; these are left out of the searches.
#[derive(Drop)]
pub struct Walks {
    graph: Graph,
    search: Search,
    /// The arcs of the lines' tenths in their turn.
    order: Vec<usize>,
    /// Whose turn it is.
    next: usize,
    walk: Vec<Step>,
}

/// The lines of a class.
fn lines_of(
    alloc: Global,
    graph: &Graph,
    lines: usize,
    class: Class,
) -> Result<Vec<usize>, AllocError> {
    let mut found = Vec::new(alloc);
    for line in 0..lines {
        if graph.class(line) == class.number() {
            found.push(line)?;
        }
    }
    Ok(found)
}

/// Adds the arcs of these lines in one of their tenths, from 0.
fn add_tenth(
    graph: &Graph,
    lines: &[usize],
    tenth: usize,
    order: &mut Vec<usize>,
) -> Result<(), AllocError> {
    for line in lines {
        let first = graph.joins.first_arc(graph.joins.of_line(*line));
        order.push(first.saturating_add(tenth))?;
    }
    Ok(())
}

/// Adds the arcs of a class, tenth by tenth.
fn add_class(
    alloc: Global,
    graph: &Graph,
    count: usize,
    class: Class,
    order: &mut Vec<usize>,
) -> Result<(), AllocError> {
    let lines = lines_of(alloc, graph, count, class)?;
    for tenth in 0..TENTHS {
        add_tenth(graph, &lines, tenth, order)?;
    }
    Ok(())
}

impl Walks {
    /// The walks of a network, of which none is looked for before `begin`. The only error is want of memory.
    pub fn of(alloc: Global, network: &Network<'_>) -> Result<Walks, AllocError> {
        let graph = Graph::of(alloc, network)?;
        let count = network.question().line_count();
        let mut order = Vec::with_capacity(alloc, count.saturating_mul(TENTHS))?;
        for class in Class::ALL {
            add_class(alloc, &graph, count, class, &mut order)?;
        }
        Ok(Walks {
            search: Search::of(alloc, network.node_count())?,
            graph,
            next: order.len(),
            order,
            walk: Vec::new(alloc),
        })
    }

    /// Begins with the first line's first tenth, over what flows. The potentials stay as they are.
    pub fn begin(&mut self, network: &Network<'_>, flow: &[i64]) {
        self.next = 0;
        self.walk.clear();
        self.graph.look_at_all(network, flow);
    }

    /// The walk found last; empty where none was.
    pub fn walk(&self) -> &[Step] {
        self.walk.as_slice()
    }

    /// Looks again at the lines of the last walk, whose flow may have changed.
    fn look_again(&mut self, network: &Network<'_>, flow: &[i64]) {
        for step in &self.walk {
            if let Some((line, _)) = self.graph.joins.tenth(step.arc) {
                self.graph.look_at(network, flow, line);
            }
        }
        self.walk.clear();
    }

    /// Looks for a walk that closes an arc whose excess is above nothing. Where there is none, the potentials rise until
    /// the arc doesn't improve.
    fn close(
        &mut self,
        network: &Network<'_>,
        flow: &[i64],
        number: usize,
        excess: Worth,
    ) -> Result<bool, AllocError> {
        let Some(arc) = arc_of(network, number) else {
            return Ok(false);
        };
        let ends = (arc.to, arc.from);
        let found = self.search.run(&self.graph, network, flow, ends, excess)?;
        self.search.raise(&mut self.graph, found.unwrap_or(excess));
        if found.is_none() {
            return Ok(false);
        }
        self.search.add_steps(arc.to, arc.from, &mut self.walk)?;
        self.walk.push(Step {
            arc: number,
            back: false,
        })?;
        self.walk.reverse();
        Ok(true)
    }

    /// Looks for the next closed walk that may gain, over what flows since `begin` but for a push along the walk found last;
    /// answers false where there is none. The only error is want of memory.
    pub fn find(&mut self, network: &Network<'_>, flow: &[i64]) -> Result<bool, AllocError> {
        self.look_again(network, flow);
        for at in self.next..self.order.len() {
            self.next = at;
            let Some(number) = self.order.get(at).copied() else {
                return Ok(false);
            };
            if let Some(excess) = self.graph.excess(network, flow, number) {
                if excess.is_above(Worth::NONE) && self.close(network, flow, number, excess)? {
                    return Ok(true);
                }
            }
        }
        self.next = self.order.len();
        Ok(false)
    }
}
