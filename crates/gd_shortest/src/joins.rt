//! The elements and lines that meet at each node.

use gd_network::{Arc, Network};
use std::alloc::{AllocError, Global};

/// How many tenths a line has.
pub(crate) const TENTHS: usize = 10;

/// The two nodes that an element or a line joins: its arcs lead from the first to the second.
#[derive(Clone, Copy, Debug)]
pub(crate) struct Ends {
    pub from: usize,
    pub to: usize,
}

impl Ends {
    /// The node at the other end.
    #[inline]
    pub(crate) fn across(self, node: usize) -> usize {
        if self.from == node {
            self.to
        } else {
            self.from
        }
    }
}

/// The ends of elements and lines, and their numbers at each node. A line's number is its own behind the elements.
#[derive(Drop)]
pub(crate) struct Joins {
    ends: Vec<Ends>,
    at: Vec<Vec<usize>>,
    elements: usize,
}

/// The arc of this number; `None` where there is none.
#[inline]
pub(crate) fn arc_of(network: &Network<'_>, number: usize) -> Option<Arc> {
    if number < network.arc_count() {
        Some(network.arc(number))
    } else {
        None
    }
}

impl Joins {
    /// What meets at each node of a network.
    pub(crate) fn of(alloc: Global, network: &Network<'_>) -> Result<Joins, AllocError> {
        let mut at = Vec::with_capacity(alloc, network.node_count())?;
        for _ in 0..network.node_count() {
            at.push(Vec::new(alloc))?;
        }
        let mut joins = Joins {
            ends: Vec::new(alloc),
            at,
            elements: network.question().element_count(),
        };
        joins.add_all(network)?;
        Ok(joins)
    }

    /// Adds each element and each line.
    fn add_all(&mut self, network: &Network<'_>) -> Result<(), AllocError> {
        let lines = network.question().line_count();
        for number in 0..self.elements.saturating_add(lines) {
            if let Some(arc) = arc_of(network, self.first_arc(number)) {
                self.add(number, arc)?;
            }
        }
        Ok(())
    }

    /// Adds an element or a line.
    fn add(&mut self, number: usize, arc: Arc) -> Result<(), AllocError> {
        let ends = Ends {
            from: arc.from,
            to: arc.to,
        };
        self.ends.push(ends)?;
        if let Some(list) = self.at.get_mut(ends.from) {
            list.push(number)?;
        }
        if let Some(list) = self.at.get_mut(ends.to) {
            list.push(number)?;
        }
        Ok(())
    }

    /// How many nodes there are.
    pub(crate) fn nodes(&self) -> usize {
        self.at.len()
    }

    /// How many elements and lines there are.
    pub(crate) fn count(&self) -> usize {
        self.ends.len()
    }

    /// The line of this number; `None` where it is an element's.
    #[inline]
    pub(crate) fn line(&self, number: usize) -> Option<usize> {
        number.checked_sub(self.elements)
    }

    /// The number of a line.
    pub(crate) fn of_line(&self, line: usize) -> usize {
        self.elements.saturating_add(line)
    }

    /// The arc of an element, or of a line's first tenth.
    #[inline]
    pub(crate) fn first_arc(&self, number: usize) -> usize {
        match self.line(number) {
            None => number,
            Some(line) => self.elements.saturating_add(line.saturating_mul(TENTHS)),
        }
    }

    /// The line and the tenth, from 0, of an arc; `None` where it is an element's.
    pub(crate) fn tenth(&self, arc: usize) -> Option<(usize, usize)> {
        let behind = arc.checked_sub(self.elements)?;
        Some((behind / TENTHS, behind % TENTHS))
    }

    /// The nodes that an element or a line joins.
    #[inline]
    pub(crate) fn ends(&self, number: usize) -> Ends {
        match self.ends.get(number) {
            Some(ends) => *ends,
            None => Ends { from: 0, to: 0 },
        }
    }

    /// What meets at a node.
    #[inline]
    pub(crate) fn at(&self, node: usize) -> &[usize] {
        match self.at.get(node) {
            Some(list) => list.as_slice(),
            None => &[],
        }
    }
}
