//! Gas from where too much of it comes to where it is missing, along the fewest steps (Dinic).

ghost use Rattle.std.specs.Prelude.{◌≡◌, length, IfOk};

use crate::joins::{Joins, TENTHS, arc_of};
use gd_network::Network;
use gd_schedule::Schedule;
use gd_units::Dth;
use std::alloc::{AllocError, Global};

/// No level.
const UNSEEN: usize = usize::MAX;

/// What an element, or the tenths of a line together, carry and may carry, in dekatherms a gas day.
#[derive(Clone, Copy, Debug)]
struct Load {
    least: i64,
    most: i64,
    now: i64,
}

impl Load {
    const NONE: Load = Load {
        least: 0,
        most: 0,
        now: 0,
    };

    /// With what an arc carries and may carry besides.
    fn and(self, least: i64, most: i64, now: i64) -> Load {
        Load {
            least: self.least.saturating_add(least),
            most: self.most.saturating_add(most),
            now: self.now.saturating_add(now),
        }
    }
}

/// A step: along an element's or a line's arcs, or back along them.
#[derive(Clone, Copy, Debug)]
struct Way {
    number: usize,
    back: bool,
}

/// What everything carries, within bounds, and what comes to each node and doesn't leave it.
#[derive(Drop)]
pub(crate) struct Levels {
    joins: Joins,
    loads: Vec<Load>,
    surplus: Vec<i64>,
    /// How many steps each node is from one with too much.
    level: Vec<usize>,
    /// Which of the ways out of each node is tried next.
    next: Vec<usize>,
    queue: Vec<usize>,
    walk: Vec<Way>,
}

/// What an element or a line carries of a network's first flow.
fn load_of(joins: &Joins, network: &Network<'_>, number: usize) -> Load {
    let first = joins.first_arc(number);
    let count = if joins.line(number).is_some() {
        TENTHS
    } else {
        1
    };
    let mut load = Load::NONE;
    for k in 0..count {
        let at = first.saturating_add(k);
        if let Some(arc) = arc_of(network, at) {
            let now = network.first().amounts().get(at).copied().unwrap_or(0);
            load = load.and(arc.lower, arc.upper, now);
        }
    }
    load
}

/// So many entries that are all the same.
fn table<T: Copy + Drop>(alloc: Global, count: usize, entry: T) -> Result<Vec<T>, AllocError> {
    let mut entries = Vec::with_capacity(alloc, count)?;
    for _ in 0..count {
        entries.push(entry)?;
    }
    Ok(entries)
}

impl Levels {
    /// What a network's first flow carries, brought within bounds.
    pub(crate) fn of(alloc: Global, network: &Network<'_>) -> Result<Levels, AllocError> {
        let joins = Joins::of(alloc, network)?;
        let nodes = joins.nodes();
        let mut levels = Levels {
            loads: Vec::with_capacity(alloc, joins.count())?,
            surplus: table(alloc, nodes, 0)?,
            level: table(alloc, nodes, UNSEEN)?,
            next: table(alloc, nodes, 0)?,
            queue: Vec::new(alloc),
            walk: Vec::new(alloc),
            joins,
        };
        for number in 0..levels.joins.count() {
            let load = load_of(&levels.joins, network, number);
            levels.bring_in(number, load)?;
        }
        Ok(levels)
    }

    /// Adds what an element or a line carries, brought within its bounds.
    fn bring_in(&mut self, number: usize, load: Load) -> Result<(), AllocError> {
        let now = load.now.max(load.least).min(load.most);
        self.loads.push(Load { now, ..load })?;
        let ends = self.joins.ends(number);
        let more = now.wrapping_sub(load.now);
        self.add_surplus(ends.from, more.wrapping_neg());
        self.add_surplus(ends.to, more);
        Ok(())
    }

    /// Adds to what comes to a node and doesn't leave it.
    fn add_surplus(&mut self, node: usize, more: i64) {
        if let Some(surplus) = self.surplus.get_mut(node) {
            *surplus = surplus.wrapping_add(more);
        }
    }

    /// What comes to a node and doesn't leave it; below 0 what leaves it and doesn't come.
    fn surplus(&self, node: usize) -> i64 {
        self.surplus.get(node).copied().unwrap_or(0)
    }

    /// The level of a node.
    fn level(&self, node: usize) -> usize {
        self.level.get(node).copied().unwrap_or(UNSEEN)
    }

    /// How much more can go a way.
    fn room(&self, way: Way) -> i64 {
        let load = self.loads.get(way.number).copied().unwrap_or(Load::NONE);
        if way.back {
            load.now.wrapping_sub(load.least)
        } else {
            load.most.wrapping_sub(load.now)
        }
    }

    /// The way out of a node by an element or a line, and the node to which it leads.
    fn way(&self, number: usize, node: usize) -> (Way, usize) {
        let ends = self.joins.ends(number);
        let back = ends.from != node;
        (Way { number, back }, ends.across(node))
    }

    /// Forgets all levels, and begins at the nodes with too much.
    fn begin(&mut self) -> Result<(), AllocError> {
        self.queue.clear();
        for node in 0..self.joins.nodes() {
            let has_too_much = self.surplus(node) > 0;
            if let Some(level) = self.level.get_mut(node) {
                *level = if has_too_much { 0 } else { UNSEEN };
            }
            if let Some(next) = self.next.get_mut(node) {
                *next = 0;
            }
            if has_too_much {
                self.queue.push(node)?;
            }
        }
        Ok(())
    }

    /// Gives the nodes behind a node their level.
    fn spread(&mut self, node: usize) -> Result<(), AllocError> {
        let level = self.level(node).wrapping_add(1);
        for at in 0..self.joins.at(node).len() {
            let Some(number) = self.joins.at(node).get(at).copied() else {
                return Ok(());
            };
            let (way, head) = self.way(number, node);
            if self.level(head) == UNSEEN && self.room(way) > 0 {
                if let Some(place) = self.level.get_mut(head) {
                    *place = level;
                }
                self.queue.push(head)?;
            }
        }
        Ok(())
    }

    /// Gives each node its level, and answers whether there is a way to one where gas is missing.
    fn rank(&mut self) -> Result<bool, AllocError> {
        self.begin()?;
        let mut is_reached = false;
        for at in 0..self.joins.nodes() {
            let Some(node) = self.queue.get(at).copied() else {
                return Ok(is_reached);
            };
            is_reached = is_reached || self.surplus(node) < 0;
            self.spread(node)?;
        }
        Ok(is_reached)
    }

    /// The next way with room from a node to one of the next level; `None` where there is none left.
    fn onward(&mut self, node: usize) -> Option<(Way, usize)> {
        let level = self.level(node).wrapping_add(1);
        let first = self.next.get(node).copied().unwrap_or(0);
        let mut found = None;
        let mut tried = first;
        for at in first..self.joins.at(node).len() {
            tried = at;
            let number = self.joins.at(node).get(at).copied().unwrap_or(0);
            let (way, head) = self.way(number, node);
            if self.level(head) == level && self.room(way) > 0 {
                found = Some((way, head));
                break;
            }
            tried = at.wrapping_add(1);
        }
        if let Some(next) = self.next.get_mut(node) {
            *next = tried;
        }
        found
    }

    /// Goes back from a node that leads nowhere, and answers the one before it; `None` at the beginning.
    fn retreat(&mut self) -> Option<usize> {
        let way = self.walk.pop()?;
        let ends = self.joins.ends(way.number);
        let tail = if way.back { ends.to } else { ends.from };
        if let Some(next) = self.next.get_mut(tail) {
            *next = next.wrapping_add(1);
        }
        Some(tail)
    }

    /// A walk by levels from a node to one where gas is missing, which is answered; `None` where there is none left.
    fn lead(&mut self, from: usize) -> Result<Option<usize>, AllocError> {
        self.walk.clear();
        let mut node = from;
        for _ in 0..self.most_steps() {
            if self.surplus(node) < 0 {
                return Ok(Some(node));
            }
            match self.onward(node) {
                Some((way, head)) => {
                    self.walk.push(way)?;
                    node = head;
                }
                None => match self.retreat() {
                    Some(tail) => node = tail,
                    None => return Ok(None),
                },
            }
        }
        Ok(None)
    }

    /// No search for a walk takes more steps: each one forth or back is taken once a way.
    fn most_steps(&self) -> usize {
        self.joins
            .count()
            .saturating_mul(4)
            .saturating_add(self.joins.nodes())
    }

    /// How much can go along the walk from one node to another.
    fn least_room(&self, from: usize, to: usize) -> i64 {
        let missing = self.surplus(to).wrapping_neg();
        let mut least = self.surplus(from).min(missing);
        for way in &self.walk {
            least = least.min(self.room(*way));
        }
        least
    }

    /// Carries so much along the walk from one node to another.
    fn carry(&mut self, from: usize, to: usize, amount: i64) {
        for way in &self.walk {
            if let Some(load) = self.loads.get_mut(way.number) {
                load.now = if way.back {
                    load.now.wrapping_sub(amount)
                } else {
                    load.now.wrapping_add(amount)
                };
            }
        }
        self.add_surplus(from, amount.wrapping_neg());
        self.add_surplus(to, amount);
    }

    /// Carries away what is too much at a node, as far as the levels lead.
    fn empty(&mut self, node: usize) -> Result<(), AllocError> {
        for _ in 0..self.most_steps() {
            if self.surplus(node) <= 0 {
                return Ok(());
            }
            let Some(to) = self.lead(node)? else {
                return Ok(());
            };
            let amount = self.least_room(node, to);
            self.carry(node, to, amount);
        }
        Ok(())
    }

    /// Carries away what is too much at each node, as far as the levels lead.
    fn empty_all(&mut self) -> Result<(), AllocError> {
        for node in 0..self.joins.nodes() {
            self.empty(node)?;
        }
        Ok(())
    }

    /// Carries gas from where there is too much to where it is missing, until no way is left. The levels rise each time, so
    /// that there are no more times than nodes.
    pub(crate) fn even_out(&mut self) -> Result<(), AllocError> {
        for _ in 0..self.joins.nodes() {
            if !self.rank()? {
                return Ok(());
            }
            self.empty_all()?;
        }
        Ok(())
    }

    /// What each line carries.
    pub(crate) fn schedule(
        &self,
        alloc: Global,
        network: &Network<'_>,
    ) -> Result<Schedule, AllocError>
        ensures { IfOk result
            (λ schedule. length schedule ≡ length network.now.question.asked.lines) }
    {
        let question = network.question();
        let mut quantities = Vec::with_capacity(alloc, question.line_count())?;
        for line in 0..question.line_count() {
            let load = self.loads.get(self.joins.of_line(line));
            let carried = u64::try_from(load.copied().unwrap_or(Load::NONE).now).unwrap_or(0);
            quantities.push(match Dth::new(carried) {
                Ok(quantity) => quantity,
                Err(_) => question.floor(line),
            })?;
        }
        Ok(Schedule::of(quantities))
    }
}
