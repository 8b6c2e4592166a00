//! Schedules: a quantity for each line of a question, which of them are allowed, and which of two is better.
//!
//! Lines and elements are counted from 0, in the question's order. Quantities, loads and totals are dekatherms a gas day.
//! Only the calls that are handed an allocator take memory.
#![tactic(auto)]

ghost use Rattle.std.specs.Prelude.{◌≡◌, ℕ, ◌≤◌, ◌<◌, ◌↔◌, [], length, IfOk, IsTrue};
ghost use Rattle.gd_rules.specs.Schedule.{quantity};

mod allowed;
mod classes;
mod fault;
mod loads;
mod order;
mod weights;

pub use allowed::faults_are_broken;
pub use classes::Totals;
use gd_question::Element;
use gd_units::Dth;
pub use loads::load_table;
pub use order::compare;
use std::alloc::{AllocError, Global};
use std::marker::Model;
pub use weights::tenth_of;

/// What is wrong with a schedule: the first kind of fault in this order, at its least line or element, counted from 0.
/// It is printed by its name alone.
#[derive(Clone, Copy, Debug, PartialEq, Eq, Drop)]
pub enum Broken {
    /// There is not one quantity for each line.
    Shape,
    /// The line's quantity is below its floor.
    BelowFloor(usize),
    /// The line's quantity is above its ceiling.
    AboveCeiling(usize),
    /// The segment's or point's load is above its capacity.
    OverCapacity(Element),
    /// What enters the pool is more or less than what leaves it.
    Unbalanced(Element),
    /// There is no memory for the loads. Each quantity lies between its line's floor and ceiling.
    OutOfMemory,
}

/// A quantity for each line of a question, in the order of its lines, in dekatherms a gas day.
///
/// A contract sees the list of the quantities.
#[derive(Debug, Drop)]
pub struct Schedule {
    quantities: Vec<Dth>,
}

impl Model for Schedule {
    ghost use Rattle.std.specs.Prelude.{List, ℕ};

    ghost Value = { List ℕ };

    ghost use Rattle.gd_schedule.specs.Small.{AreSmall};

    ghost view = { λ s. s.quantities.items };

    ghost invariant = { λ s. AreSmall s.quantities.items };
}

/// Whether both lists have the same quantities in the same order.
fn same_quantities(a: &[Dth], b: &[Dth]) -> bool
    ensures { IsTrue result ↔ (a.now ≡ b.now) }
{
    a == b
}

impl Schedule {
    /// The schedule of these quantities, in the order of the lines.
    pub fn of(quantities: Vec<Dth>) -> Schedule
        ensures { result ≡ quantities.items }
    {
        // What a `Dth` is at most is known only of one that was read. Here each is read once, so that the bound stands in the type.
        for quantity in &quantities {
            let _number = quantity.get();
        }
        Schedule { quantities }
    }

    /// The quantities, in the order of the lines.
    pub fn quantities(&self) -> &[Dth]
        ensures { result.now ≡ self.now }
    {
        self.quantities.as_slice()
    }

    /// What holds of every schedule: no quantity is above the greatest, in dekatherms.
    pub fn known(&self)
        ensures { (i : ℕ) → i < length self.now → quantity self.now i ≤ Dth.MAX }
    {
        let _quantities = &self.quantities;
    }

    /// The number of quantities.
    pub fn len(&self) -> usize
        ensures { result ≡ length self.now }
    {
        self.quantities.len()
    }

    /// Whether there is no quantity.
    pub fn is_empty(&self) -> bool
        ensures { IsTrue result ↔ (self.now ≡ []) }
    {
        self.quantities.is_empty()
    }

    /// The quantity of the line of this number.
    pub fn quantity(&self, line: usize) -> Dth
        requires { line < length self.now }
        ensures { result ≡ quantity self.now line }
    {
        self.quantities[line]
    }

    /// Whether both have the same quantities in the same order. Takes no memory.
    pub fn same(&self, other: &Schedule) -> bool
        ensures { IsTrue result ↔ (self.now ≡ other.now) }
    {
        same_quantities(&self.quantities, &other.quantities)
    }

    /// Another schedule of the same quantities. The only error is want of memory.
    pub fn try_clone(&self, alloc: Global) -> Result<Schedule, AllocError>
        ensures { IfOk result (λ copy. copy ≡ self.now) }
    {
        let quantities = Vec::from_slice(alloc, &self.quantities)?;
        Ok(Schedule { quantities })
    }
}
