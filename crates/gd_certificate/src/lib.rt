//! Certificates: prices that show an allowed schedule best, and cuts that show that none is allowed.
//!
//! Lines and elements are counted from 0, in the question's order. Only the calls that are handed an allocator take memory.
#![tactic(auto)]

ghost use Rattle.std.specs.Prelude.{◌≡◌, ◌↔◌, IsTrue, IfOk};

mod best;
mod checked;
mod cut;
mod fault;
mod levels;
mod loads;
mod margin;
mod par;

pub use best::{check, check_classes, prices_show_worth};
pub use checked::{Checked, check_par};
pub use cut::{Cut, CutFault, check_cut};
use gd_cost::{Cost, Tariff};
use gd_question::Element;
use gd_schedule::Broken;
use std::alloc::{AllocError, Global};
use std::marker::Model;

/// The greatest size of a number in a price (own limit).
pub const MAX_PRICE_WORD: i128 = 1 << 40;

/// What is wrong with a certificate: the first kind of fault in this order, at its least line or element, counted from 0.
/// It is printed by its name alone, and a fault of the schedule by its own.
#[derive(Clone, Copy, Debug, PartialEq, Eq, Drop)]
pub enum CertFault {
    /// There is not one quantity for each line, or not one price for each element.
    Shape,
    /// The schedule is not allowed.
    Broken(Broken),
    /// A number of the element's price is above 2^40 in size (own limit).
    PriceTooLarge(Element),
    /// The segment's or point's price is above zero though its load is not its capacity, or below zero though its load is not 0.
    PriceOnSlack(Element),
    /// The line is below its ceiling, and its next dekatherm is worth more than the prices that it crosses.
    Underfilled(usize),
    /// The line is above its floor, and its last dekatherm is worth less than the prices that it crosses.
    Overfilled(usize),
    /// There is no memory for loads or levels. Each quantity lies between its line's floor and ceiling.
    OutOfMemory,
}

/// A price for each element of a question, in the order of its elements.
///
/// A contract sees the list of the prices.
#[derive(Debug, Drop)]
pub struct Prices<C: Cost> {
    values: Vec<C>,
}

impl<C: Cost> Model for Prices<C> {
    ghost use Rattle.std.specs.Prelude.{List};

    ghost Value = { List C };

    ghost view = { λ p. p.values.items };
}

impl<C: Cost> Prices<C> {
    /// These prices, in the order of the elements.
    pub fn of(values: Vec<C>) -> Prices<C>
        ensures { result ≡ values.items }
    {
        Prices { values }
    }

    /// The prices, in the order of the elements.
    pub fn values(&self) -> &[C]
        ensures { result.now ≡ self.now }
    {
        self.values.as_slice()
    }

    /// The same prices once more. The only error is want of memory.
    pub fn try_clone(&self, alloc: Global) -> Result<Prices<C>, AllocError>
        ensures { IfOk result (λ copy. copy ≡ self.now) }
    {
        let values = Vec::from_slice(alloc, &self.values)?;
        Ok(Prices { values })
    }
}

/// Whether both lists have the same prices in the same order.
fn same_prices(a: &[Tariff], b: &[Tariff]) -> bool
    ensures { IsTrue result ↔ (a.now ≡ b.now) }
{
    a == b
}

impl Prices<Tariff> {
    /// Whether both have the same prices in the same order. Takes no memory.
    pub fn same(&self, other: &Prices<Tariff>) -> bool
        ensures { IsTrue result ↔ (self.now ≡ other.now) }
    {
        same_prices(&self.values, &other.values)
    }
}
