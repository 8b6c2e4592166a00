//! What can be had whole, class by class, before the first pivot.

use crate::arc::{Amount, Arc, short};
use crate::tree::Tree;
use gd_units::Class;
use std::alloc::{AllocError, Global};

/// What the lines bring and take, over the tree with which the simplex begins. In it each node is numbered behind the one
/// above it, and the arc between the two is an element's.
#[derive(Drop)]
struct Filling<'t> {
    tree: &'t Tree,
    /// What the lines bring to each node less what they take from it.
    surpluses: Vec<i64>,
    /// The same with what comes from below.
    sums: Vec<i64>,
    /// The part of the tree in which each node lies where elements above their capacity are taken away, by its highest node.
    parts: Vec<u32>,
    /// What each arc carried before it was raised.
    former: Vec<i64>,
}

/// Adds to the number at a place.
fn add(numbers: &mut [i64], at: u32, amount: i64) {
    if let Some(number) = numbers.get_mut(at as usize) {
        *number = number.wrapping_add(amount);
    }
}

impl Filling<'_> {
    /// Carries so much more along a line's arc.
    fn carry(&mut self, arc: Arc, amount: i64) {
        add(&mut self.surpluses, arc.to, amount);
        add(&mut self.surpluses, arc.from, amount.wrapping_neg());
    }

    /// Notes what the lines carry at first.
    fn begin(&mut self, arcs: &[Arc], amounts: &[Amount]) {
        for (number, arc) in arcs.iter().enumerate() {
            if arc.class > 0 {
                if let Some(amount) = amounts.get(number) {
                    self.carry(*arc, amount.now);
                }
            }
        }
    }

    /// Raises the lines of a class to their ceilings.
    fn raise(&mut self, arcs: &[Arc], amounts: &mut [Amount], class: u8) {
        for (number, arc) in arcs.iter().enumerate() {
            if arc.class == class {
                if let Some(amount) = amounts.get_mut(number) {
                    let before = amount.now;
                    amount.now = amount.ceiling;
                    self.carry(*arc, amount.ceiling.wrapping_sub(before));
                    self.note(number, before);
                }
            }
        }
    }

    /// Notes what an arc carried before.
    fn note(&mut self, number: usize, before: i64) {
        if let Some(former) = self.former.get_mut(number) {
            *former = before;
        }
    }

    /// Puts the lines of a class that pass an element above its capacity back to what they carried.
    fn put_back(&mut self, arcs: &[Arc], amounts: &mut [Amount], class: u8) {
        for (number, arc) in arcs.iter().enumerate() {
            if arc.class == class && self.part(arc.from) != self.part(arc.to) {
                let former = self.former.get(number).copied().unwrap_or(0);
                if let Some(amount) = amounts.get_mut(number) {
                    self.carry(*arc, former.wrapping_sub(amount.now));
                    amount.now = former;
                }
            }
        }
    }

    /// The part in which a node lies.
    fn part(&self, node: u32) -> u32 {
        self.parts.get(node as usize).copied().unwrap_or(0)
    }

    /// What the element above a node carries.
    fn load(&self, node: u32, arc: Arc) -> i64 {
        let sum = self.sums.get(node as usize).copied().unwrap_or(0);
        if arc.from == node {
            sum
        } else {
            sum.wrapping_neg()
        }
    }

    /// Begins the sums with what the lines bring and take.
    fn begin_sums(&mut self) {
        for (sum, surplus) in self.sums.iter_mut().zip(self.surpluses.iter()) {
            *sum = *surplus;
        }
    }

    /// Sums from below.
    fn sum(&mut self) {
        self.begin_sums();
        for node in (1..short(self.tree.count())).rev() {
            let sum = self.sums.get(node as usize).copied().unwrap_or(0);
            add(&mut self.sums, self.tree.node(node).parent, sum);
        }
    }

    /// Takes the tree apart where an element carries more than its capacity.
    fn part_all(&mut self, arcs: &[Arc], amounts: &[Amount]) {
        for node in 1..short(self.tree.count()) {
            let above = self.tree.node(node);
            let number = above.link.arc as usize;
            let mut part = self.part(above.parent);
            if let (Some(arc), Some(amount)) = (arcs.get(number), amounts.get(number)) {
                if self.load(node, *arc) > amount.ceiling {
                    part = node;
                }
            }
            if let Some(place) = self.parts.get_mut(node as usize) {
                *place = part;
            }
        }
    }

    /// Notes what the elements carry in the end.
    fn end(&self, arcs: &[Arc], amounts: &mut [Amount]) {
        for node in 1..short(self.tree.count()) {
            let number = self.tree.node(node).link.arc as usize;
            if let (Some(arc), Some(amount)) = (arcs.get(number), amounts.get_mut(number)) {
                amount.now = self.load(node, *arc);
            }
        }
    }
}

/// Raises each line to its ceiling where no element on its way is above its capacity then, class by class: where the lines
/// of a class can't all be had whole, those that pass no element that is too small for them.
pub(crate) fn fill(
    alloc: Global,
    tree: &Tree,
    arcs: &[Arc],
    amounts: &mut [Amount],
) -> Result<(), AllocError> {
    let mut filling = Filling {
        tree,
        surpluses: vec![in alloc; 0i64; tree.count()]?,
        sums: vec![in alloc; 0i64; tree.count()]?,
        parts: vec![in alloc; 0u32; tree.count()]?,
        former: vec![in alloc; 0i64; arcs.len()]?,
    };
    filling.begin(arcs, amounts);
    for class in 1..=Class::MAX {
        filling.raise(arcs, amounts, class);
        filling.sum();
        filling.part_all(arcs, amounts);
        filling.put_back(arcs, amounts, class);
    }
    filling.sum();
    filling.end(arcs, amounts);
    Ok(())
}
