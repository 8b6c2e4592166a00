//! Pivots: an arc enters the spanning tree, and another one leaves it.

use crate::arc::{Amount, Arc, short};
use crate::simplex::Simplex;
use crate::worth::Worth;

/// An arc that comes into the tree, since carrying more along it, or less, gains.
#[derive(Clone, Copy)]
pub(crate) struct Entering {
    arc: u32,
    /// Whether it carries more, and not less.
    rises: bool,
    /// The piece along which it does; `None` where no arc was found that gains.
    piece: Option<u8>,
    /// The reduced cost: what a dekatherm gains on the way round.
    gain: Worth,
}

/// How much goes round, and which arc of the tree goes no further.
#[derive(Clone, Copy)]
struct Leaving {
    amount: i64,
    /// The lower node of the arc that leaves the tree; `None` where the entering arc itself goes no further.
    below: Option<u32>,
    /// Whether it lies on the head's side of the way.
    at_head: bool,
    /// The node at which the two sides meet.
    meeting: u32,
}

impl Entering {
    /// Where there is no such arc.
    const NONE: Entering = Entering {
        arc: 0,
        rises: true,
        piece: None,
        gain: Worth::NONE,
    };

    /// Gas is pushed from the first of these nodes to the second, and back through the tree.
    fn ends(self, arc: Arc) -> (u32, u32) {
        if self.rises {
            (arc.from, arc.to)
        } else {
            (arc.to, arc.from)
        }
    }

    /// The better of it and an arc that gains so much.
    fn or(self, arc: u32, rises: bool, piece: u8, gain: Worth) -> Entering {
        if !gain.is_above(self.gain) {
            return self;
        }
        Entering {
            arc,
            rises,
            piece: Some(piece),
            gain,
        }
    }

    /// What it carries once so much goes round.
    fn moved(self, before: Amount, amount: i64) -> Amount {
        let now = if self.rises {
            before.now.wrapping_add(amount)
        } else {
            before.now.wrapping_sub(amount)
        };
        Amount { now, ..before }
    }
}

impl Leaving {
    /// What stops earlier: the arc above a node.
    #[inline]
    fn stopped(self, amount: i64, below: u32, at_head: bool) -> Leaving {
        Leaving {
            amount,
            below: Some(below),
            at_head,
            ..self
        }
    }
}

impl Simplex {
    /// The better of a candidate and what an arc gains.
    #[inline(never)]
    fn better(&self, best: Entering, number: u32) -> Entering {
        let arc = self.arc(number);
        let mut better = best;
        if let Some(piece) = arc.rise {
            better = better.or(number, true, piece, self.reduced(arc, piece));
        }
        if let Some(piece) = arc.fall {
            let gain = Worth::NONE.less(self.reduced(arc, piece));
            better = better.or(number, false, piece, gain);
        }
        better
    }

    /// The best arc of the next block in which there is one that gains, or `None` where none does.
    ///
    /// Most arcs gain less by the classes alone, and no more is looked at then.
    pub(crate) fn entering(&mut self) -> Option<Entering> {
        let mut best = Entering::NONE;
        let mut least = self.least_above(Worth::NONE);
        let mut tried = 0usize;
        let mut number = self.next;
        for _ in 0..self.arcs.len() {
            if let Some(arc) = self.arcs.get(number) {
                if !arc.in_tree && self.gains_more(arc, least) {
                    best = self.better(best, short(number));
                    least = self.least_above(best.gain);
                }
            }
            number = number.wrapping_add(1);
            if number >= self.arcs.len() {
                number = 0;
            }
            tried = tried.wrapping_add(1);
            if tried >= self.block {
                if best.piece.is_some() {
                    break;
                }
                tried = 0;
            }
        }
        self.next = number;
        best.piece.map(|_| best)
    }

    /// How much can go round, and what stops it: of several arcs the last on the way from where the sides meet (Cunningham).
    fn leaving(&self, tail: u32, head: u32, most: i64) -> Leaving {
        let mut leaving = Leaving {
            amount: most,
            below: None,
            at_head: false,
            meeting: 0,
        };
        let (mut tail, mut head) = (tail, head);
        let (mut at_tail, mut at_head) = (self.tree.node(tail), self.tree.node(head));
        for _ in 0..self.tree.count().saturating_mul(2) {
            if tail == head {
                break;
            }
            if at_tail.depth >= at_head.depth {
                let room = at_tail.link.down;
                if room < leaving.amount {
                    leaving = leaving.stopped(room, tail, false);
                }
                tail = at_tail.parent;
                at_tail = self.tree.node(tail);
            } else {
                let room = at_head.link.up;
                if room <= leaving.amount {
                    leaving = leaving.stopped(room, head, true);
                }
                head = at_head.parent;
                at_head = self.tree.node(head);
            }
        }
        leaving.meeting = tail;
        leaving
    }

    /// Hangs what is below the leaving arc on the entering one, which is at `inner` above it now.
    fn exchange(&mut self, inner: u32, outer: u32, entering: u32, below: u32) {
        let link = self.link(entering, inner);
        let (mut at, mut parent, mut above) = (inner, outer, link);
        for _ in 0..self.tree.count() {
            let old = self.tree.node(at);
            self.tree.detach(at);
            self.tree.attach(at, parent, above);
            if at == below {
                return;
            }
            (parent, above, at) = (at, old.link.reversed(), old.parent);
        }
    }

    /// Lets the entering arc take the place of the one above a node.
    fn replace(&mut self, entering: Entering, after: Amount, below: u32, at_head: bool) {
        let (number, amount) = self.carried(below);
        self.rest(number, amount, false);
        self.rest(entering.arc, after, true);
        let (tail, head) = entering.ends(self.arc(entering.arc));
        if at_head {
            self.exchange(head, tail, entering.arc, below);
            self.raise(head, entering.gain);
        } else {
            self.exchange(tail, head, entering.arc, below);
            self.raise(tail, Worth::NONE.less(entering.gain));
        }
    }

    /// Carries as much as there is room for along an arc and back through the tree.
    pub(crate) fn pivot(&mut self, entering: Entering) {
        self.pivots = self.pivots.wrapping_add(1);
        let arc = self.arc(entering.arc);
        let piece = entering.piece.unwrap_or(0);
        let before = self
            .amount(entering.arc)
            .in_piece(arc.class, self.tenths, piece);
        let most = if entering.rises {
            before.high.wrapping_sub(before.now)
        } else {
            before.now.wrapping_sub(before.low)
        };
        let (tail, head) = entering.ends(arc);
        let leaving = self.leaving(tail, head, most);
        if leaving.amount != 0 {
            self.tree
                .carry(tail, leaving.meeting, leaving.amount.wrapping_neg());
            self.tree.carry(head, leaving.meeting, leaving.amount);
        }
        let after = entering.moved(before, leaving.amount);
        match leaving.below {
            Some(below) => self.replace(entering, after, below, leaving.at_head),
            None => self.rest(entering.arc, after, false),
        }
    }
}
