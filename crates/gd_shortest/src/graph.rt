//! The steps that a flow leaves room for, each with how far it is from gaining.

use crate::joins::{Joins, TENTHS, arc_of};
use gd_network::{Network, Step};
use gd_simplex::{Gains, Worth};
use std::alloc::{AllocError, Global};

/// A line's class, and the tenths, from 0, along which it can carry more and less next.
///
/// Of the tenths with room the first gains most, and of those that can carry less the last one loses least; so no other
/// step of the line is on a shortest walk.
#[derive(Clone, Copy, Debug)]
struct Tenths {
    class: u8,
    rise: Option<usize>,
    fall: Option<usize>,
}

/// A step with room, the node to which it leads, and its length: how much less it gains than the potentials rise.
#[derive(Clone, Copy, Debug)]
pub(crate) struct Link {
    pub step: Step,
    pub head: usize,
    pub length: Worth,
}

/// The network's joins with what the lines gain, and the potentials of the nodes.
#[derive(Drop)]
pub(crate) struct Graph {
    pub joins: Joins,
    tenths: Vec<Tenths>,
    gains: Gains,
    potentials: Vec<Worth>,
}

/// What a dekatherm gains in a tenth of a class.
#[inline]
fn gain_in(gains: &Gains, class: u8, tenth: usize) -> Worth {
    gains.gain(class, (tenth % TENTHS) as u8 + 1)
}

impl Graph {
    /// The lines of a network without room, and potentials that are nothing.
    pub(crate) fn of(alloc: Global, network: &Network<'_>) -> Result<Graph, AllocError> {
        let question = network.question();
        let mut graph = Graph {
            joins: Joins::of(alloc, network)?,
            tenths: Vec::with_capacity(alloc, question.line_count())?,
            gains: Gains::of(alloc, true)?,
            potentials: Vec::with_capacity(alloc, network.node_count())?,
        };
        for line in 0..question.line_count() {
            graph.tenths.push(Tenths {
                class: question.class(line).number(),
                rise: None,
                fall: None,
            })?;
        }
        graph.level()?;
        Ok(graph)
    }

    /// Gives each node a potential of nothing.
    fn level(&mut self) -> Result<(), AllocError> {
        for _ in 0..self.joins.nodes() {
            self.potentials.push(Worth::NONE)?;
        }
        Ok(())
    }

    /// Looks along which tenths a line can carry more and less.
    pub(crate) fn look_at(&mut self, network: &Network<'_>, flow: &[i64], line: usize) {
        let first = self.joins.first_arc(self.joins.of_line(line));
        let (mut rise, mut fall) = (None, None);
        for tenth in 0..TENTHS {
            let number = first.saturating_add(tenth);
            if let (Some(arc), Some(now)) = (arc_of(network, number), flow.get(number)) {
                if rise.is_none() && *now < arc.upper {
                    rise = Some(tenth);
                }
                if *now > arc.lower {
                    fall = Some(tenth);
                }
            }
        }
        if let Some(tenths) = self.tenths.get_mut(line) {
            tenths.rise = rise;
            tenths.fall = fall;
        }
    }

    /// Looks at all lines.
    pub(crate) fn look_at_all(&mut self, network: &Network<'_>, flow: &[i64]) {
        for line in 0..self.tenths.len() {
            self.look_at(network, flow, line);
        }
    }

    /// The class of a line; 0 where there is no such line.
    pub(crate) fn class(&self, line: usize) -> u8 {
        match self.tenths.get(line) {
            Some(tenths) => tenths.class,
            None => 0,
        }
    }

    /// The potential of a node.
    #[inline]
    pub(crate) fn potential(&self, node: usize) -> Worth {
        match self.potentials.get(node) {
            Some(potential) => *potential,
            None => Worth::NONE,
        }
    }

    /// Raises the potential of a node.
    pub(crate) fn raise(&mut self, node: usize, rise: Worth) {
        if let Some(potential) = self.potentials.get_mut(node) {
            *potential = potential.plus(rise);
        }
    }

    /// How much more carrying a dekatherm more in a line's tenth gains than the potentials rise; `None` where it can't carry more.
    pub(crate) fn excess(
        &self,
        network: &Network<'_>,
        flow: &[i64],
        number: usize,
    ) -> Option<Worth> {
        let arc = arc_of(network, number)?;
        let (line, tenth) = self.joins.tenth(number)?;
        if *flow.get(number)? >= arc.upper {
            return None;
        }
        let gain = gain_in(&self.gains, self.class(line), tenth);
        Some(
            self.potential(arc.from)
                .plus(gain)
                .less(self.potential(arc.to)),
        )
    }

    /// The step from a node along or back along an element, where it has room.
    #[inline]
    fn element_step(
        &self,
        network: &Network<'_>,
        flow: &[i64],
        element: usize,
        back: bool,
    ) -> Option<Step> {
        let arc = arc_of(network, element)?;
        let now = *flow.get(element)?;
        let has_room = if back {
            now > arc.lower
        } else {
            now < arc.upper
        };
        if has_room {
            Some(Step { arc: element, back })
        } else {
            None
        }
    }

    /// The step along or back along a line's tenths that gains most, where one has room, and what it gains.
    #[inline]
    fn line_step(&self, line: usize, back: bool) -> Option<(Step, Worth)> {
        let tenths = *self.tenths.get(line)?;
        let tenth = if back { tenths.fall? } else { tenths.rise? };
        let first = self.joins.first_arc(self.joins.of_line(line));
        let gain = gain_in(&self.gains, tenths.class, tenth);
        let step = Step {
            arc: first.saturating_add(tenth),
            back,
        };
        Some((step, if back { Worth::NONE.less(gain) } else { gain }))
    }

    /// The shortest step from a node by an element or a line, where one has room.
    #[inline]
    pub(crate) fn link(
        &self,
        network: &Network<'_>,
        flow: &[i64],
        number: usize,
        node: usize,
    ) -> Option<Link> {
        let ends = self.joins.ends(number);
        let back = ends.from != node;
        let (step, gain) = match self.joins.line(number) {
            None => (self.element_step(network, flow, number, back)?, Worth::NONE),
            Some(line) => self.line_step(line, back)?,
        };
        let head = ends.across(node);
        let length = self.potential(head).less(self.potential(node)).less(gain);
        Some(Link { step, head, length })
    }
}
