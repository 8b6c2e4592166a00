//! The network simplex.

use crate::arc::{Amount, Arc, short};
use crate::tree::{Link, Tree};
use crate::worth::{Gains, Worth};
use std::alloc::{AllocError, Global};

/// The arcs with what they carry, a spanning tree of them, and the potentials under which no arc of the tree gains.
#[derive(Drop)]
pub(crate) struct Simplex {
    pub arcs: Vec<Arc>,
    pub amounts: Vec<Amount>,
    pub tree: Tree,
    /// The potentials by spread; by classes the tree has them. In all rounds but the last those have the spread too, and these
    /// are 0.
    spreads: Vec<i128>,
    pub gains: Gains,
    /// Whether tenths count.
    pub tenths: bool,
    /// Whether the spread has numbers of its own.
    is_exact: bool,
    /// Whether the arcs of the tree that lie between two pieces have room towards the root (strongly feasible trees, Cunningham).
    leans: bool,
    /// The arc at which the search for the next entering one begins.
    pub next: usize,
    /// How many arcs are tried before the best of them is taken.
    pub block: usize,
    /// How many pivots there were.
    pub pivots: usize,
}

impl Simplex {
    /// The simplex over arcs that a tree of them spans.
    pub(crate) fn of(
        alloc: Global,
        arcs: Vec<Arc>,
        amounts: Vec<Amount>,
        tree: Tree,
    ) -> Result<Simplex, AllocError> {
        Ok(Simplex {
            spreads: vec![in alloc; 0i128; tree.count()]?,
            amounts,
            tree,
            gains: Gains::short(alloc, false)?,
            tenths: false,
            is_exact: false,
            leans: false,
            next: 0,
            block: arcs.len() / 400 + 8,
            pivots: 0,
            arcs,
        })
    }

    /// The arc of this number.
    #[inline]
    pub(crate) fn arc(&self, number: u32) -> Arc {
        match self.arcs.get(number as usize) {
            Some(arc) => *arc,
            None => Arc::NONE,
        }
    }

    /// What the arc of this number carries.
    #[inline]
    pub(crate) fn amount(&self, number: u32) -> Amount {
        match self.amounts.get(number as usize) {
            Some(amount) => *amount,
            None => Amount::NONE,
        }
    }

    /// The potential of a node.
    pub(crate) fn potential(&self, node: u32) -> Worth {
        Worth::of(
            self.tree.classes(node),
            self.spreads.get(node as usize).copied().unwrap_or(0),
        )
    }

    /// Raises the potentials of a node and of those below it by spread.
    fn raise_spreads(&mut self, top: u32, spread: i128) {
        let mut at = top;
        for _ in 0..self.tree.count() {
            if let Some(number) = self.spreads.get_mut(at as usize) {
                *number = number.wrapping_add(spread);
            }
            match self.tree.after(at, top) {
                None => return,
                Some(next) => at = next,
            }
        }
    }

    /// Raises the potentials of a node and of those below it.
    pub(crate) fn raise(&mut self, top: u32, rise: Worth) {
        self.tree.raise(top, rise.classes);
        if self.is_exact {
            self.raise_spreads(top, rise.spread);
        }
    }

    /// What an arc has to gain by classes, and more, so that it can be above a worth.
    pub(crate) fn least_above(&self, worth: Worth) -> i128 {
        if self.is_exact {
            worth.classes.wrapping_sub(1)
        } else {
            worth.classes
        }
    }

    /// Whether an arc gains more than this by classes, whichever way.
    #[inline]
    pub(crate) fn gains_more(&self, arc: &Arc, least: i128) -> bool {
        let from = self.tree.classes(arc.from);
        let fall = from.wrapping_sub(self.tree.classes(arc.to));
        if let Some(piece) = arc.rise {
            let gain = self.gains.classes(arc.class, piece);
            if fall.wrapping_add(gain) > least {
                return true;
            }
        }
        if let Some(piece) = arc.fall {
            let gain = self.gains.classes(arc.class, piece);
            return fall.wrapping_add(gain).wrapping_neg() > least;
        }
        false
    }

    /// What a dekatherm along an arc gains, to which the potentials add how far they fall.
    pub(crate) fn reduced(&self, arc: Arc, piece: u8) -> Worth {
        self.potential(arc.from)
            .less(self.potential(arc.to))
            .plus(self.gains.gain(arc.class, piece))
    }

    /// Notes what an arc carries, and along which pieces it can rise and fall from there.
    pub(crate) fn rest(&mut self, number: u32, amount: Amount, in_tree: bool) {
        let tenths = self.tenths;
        if let Some(arc) = self.arcs.get_mut(number as usize) {
            arc.in_tree = in_tree;
            arc.rise = amount.above(arc.class, tenths);
            arc.fall = amount.below(arc.class, tenths);
        }
        if let Some(place) = self.amounts.get_mut(number as usize) {
            *place = amount;
        }
    }

    /// An arc as it is seen from the lower one of its nodes, in the piece in which it lies.
    pub(crate) fn link(&self, number: u32, node: u32) -> Link {
        let amount = self.amount(number);
        let link = Link {
            arc: number,
            up: amount.high.wrapping_sub(amount.now),
            down: amount.now.wrapping_sub(amount.low),
        };
        if self.arc(number).from == node {
            link
        } else {
            link.reversed()
        }
    }

    /// The arc above a node, and what it carries.
    pub(crate) fn carried(&self, node: u32) -> (u32, Amount) {
        let link = self.tree.node(node).link;
        let amount = self.amount(link.arc);
        let less = if self.arc(link.arc).from == node {
            link.down
        } else {
            link.up
        };
        let now = amount.low.wrapping_add(less);
        (link.arc, Amount { now, ..amount })
    }

    /// A piece in which an arc above a node lies.
    fn piece(&self, arc: Arc, amount: Amount, node: u32) -> u8 {
        let leaning = if arc.from == node {
            amount.above(arc.class, self.tenths)
        } else {
            amount.below(arc.class, self.tenths)
        };
        match leaning {
            Some(piece) if self.leans => piece,
            _ => amount.within(arc.class, self.tenths),
        }
    }

    /// Notes along which pieces each arc can rise and fall.
    fn rest_all(&mut self) {
        for number in 0..short(self.arcs.len()) {
            self.rest(number, self.amount(number), self.arc(number).in_tree);
        }
    }

    /// Puts each arc of the tree into a piece in which it lies.
    fn place_tree(&mut self) {
        for node in 1..short(self.tree.count()) {
            let number = self.tree.node(node).link.arc;
            let arc = self.arc(number);
            let amount = self.amount(number);
            let piece = self.piece(arc, amount, node);
            let placed = amount.in_piece(arc.class, self.tenths, piece);
            self.rest(number, placed, true);
            let link = self.link(number, node);
            self.tree.put_link(node, link);
        }
    }

    /// Gives each node the depth and the potential at which the arc above it gains nothing.
    fn label(&mut self) {
        let mut at = 0;
        for _ in 0..self.tree.count() {
            match self.tree.after(at, 0) {
                None => return,
                Some(next) => at = next,
            }
            let node = self.tree.node(at);
            let arc = self.arc(node.link.arc);
            let gain = self.gains.gain(arc.class, self.amount(node.link.arc).piece);
            let above = self.potential(node.parent);
            let potential = if arc.to == at {
                above.plus(gain)
            } else {
                above.less(gain)
            };
            self.tree.place(at, potential.classes);
            if let Some(number) = self.spreads.get_mut(at as usize) {
                *number = potential.spread;
            }
        }
    }

    /// Notes what the arcs of the tree carry.
    fn note_tree(&mut self) {
        for node in 1..short(self.tree.count()) {
            let (number, amount) = self.carried(node);
            self.rest(number, amount, true);
        }
    }

    /// Pivots until no arc gains; false where so many pivots were too few.
    fn pivot_all(&mut self, most: usize) -> bool {
        for _ in 0..most {
            match self.entering() {
                None => return true,
                Some(entering) => self.pivot(entering),
            }
        }
        false
    }

    /// Makes what flows best by these gains; false where so many pivots were too few.
    fn run(&mut self, gains: Gains, most: usize) -> bool {
        self.gains = gains;
        self.rest_all();
        self.place_tree();
        self.label();
        let has_ended = self.pivot_all(most);
        self.note_tree();
        has_ended
    }

    /// Makes what flows best by classes, and then by tenths; false where so many pivots for each arc were too few.
    ///
    /// A line goes from bound to bound while classes alone count, so that few pivots bring most of what is to be had. The
    /// first two rounds count in short numbers; the last one, in which there is seldom anything left to do, in whole ones.
    pub(crate) fn solve(
        &mut self,
        alloc: Global,
        leans: bool,
        pivots: usize,
    ) -> Result<bool, AllocError> {
        let most = self.arcs.len().saturating_mul(pivots);
        self.leans = leans;
        let _ended = self.run(Gains::short(alloc, false)?, most);
        self.tenths = true;
        let _ended = self.run(Gains::short(alloc, true)?, most);
        self.is_exact = true;
        Ok(self.run(Gains::of(alloc, true)?, most))
    }
}
