//! The prices that a text offers.

ghost use Rattle.std.specs.Prelude.{◌≡◌, ◌≤◌, ◌<◌, ◌+◌, ◌*◌, pos, get_or, length, IfOk, FitsSigned};
ghost use Rattle.std.specs.Int.{w128};
ghost use Rattle.gd_rules.specs.Limits.{classes, most_elements};
ghost use Rattle.gd_cost.specs.Made.{list_of};
ghost use Rattle.gd_system.specs.Pipeline.{elements_of};
ghost use Rattle.gd_text.specs.Building.{Becomes, Builds};
ghost use Rattle.gd_text.specs.Prices as spec;

use gd_certificate::Prices;
use gd_cost::{Lex, Pair, Tariff};
use gd_system::{Element, System};
use gd_text_part::{Cause, Row, TextFault};
use gd_units::Class;
use std::alloc::{AllocError, Global};
use std::marker::Model;

/// The words of prices, one at each class for each element, and which of them were given.
#[derive(Drop)]
pub struct PriceTable {
    elements: usize,
    words: Vec<i64>,
    spreads: Vec<i64>,
    given: Vec<bool>,
}

impl Model for PriceTable {
    ghost use Rattle.std.specs.Prelude.{◌≡◌, ◌≤◌, ◌*◌, length};
    ghost use Rattle.gd_rules.specs.Limits.{classes, most_elements};
    ghost use Rattle.gd_text.specs.Prices.{Table};

    ghost Value = { Table };

    ghost view = { λ t. record {
      elements = t.elements;
      words = t.words.items;
      spreads = t.spreads.items;
      given = t.given.items;
    } };

    ghost invariant = { λ t. (length t.words.items ≡ classes * t.elements)
        × (length t.spreads.items ≡ classes * t.elements)
        × (length t.given.items ≡ classes * t.elements) × (t.elements ≤ most_elements) };
}

/// The word at a place, as costs keep it.
fn word(words: &[i64], at: usize) -> i128
    requires { at < length words.now }
    ensures is { result ≡ get_or words.now at (pos 0) }
    ensures fits { FitsSigned w128 result }
{
    i128::from(words[at])
}

/// The eight words of an element.
fn eight(words: &[i64], element: usize) -> Lex<8>
    requires { classes * element + classes ≤ length words.now }
    ensures { list_of result ≡ spec.eight words.now element }
{
    let from = Class::COUNT * element;
    Lex::of([
        word(words, from),
        word(words, from + 1),
        word(words, from + 2),
        word(words, from + 3),
        word(words, from + 4),
        word(words, from + 5),
        word(words, from + 6),
        word(words, from + 7),
    ])
}

impl PriceTable {
    /// No price is given yet.
    fn new(alloc: Global, elements: usize) -> Result<PriceTable, AllocError>
        requires { elements ≤ most_elements }
        ensures { IfOk result (λ table. table ≡ spec.no_prices elements) }
    {
        let count = Class::COUNT * elements;
        let words = vec![in alloc; 0i64; count]?;
        let spreads = vec![in alloc; 0i64; count]?;
        let given = vec![in alloc; false; count]?;
        Ok(PriceTable {
            elements,
            words,
            spreads,
            given,
        })
    }

    /// Gives the words of an element at a class.
    fn give(
        &mut self,
        number: u64,
        element: Element,
        class: Class,
        word: i64,
        spread: i64,
    ) -> Result<(), TextFault>
        requires { element.0 < self.old.elements }
        ensures given { Becomes self.new result
            (spec.given_at number self.old element.0 class word spread) }
        ensures sized { self.new.elements ≡ self.old.elements }
    {
        let given = &self.given;
        let at = Class::COUNT * element.0 + (usize::from(class.number()) - 1);
        if given[at] {
            return Err(TextFault::at(number, Cause::Duplicate));
        }
        self.words[at] = word;
        self.spreads[at] = spread;
        self.given[at] = true;
        Ok(())
    }

    /// The price of an element.
    fn price(&self, element: usize) -> Tariff
        requires { element < self.now.elements }
        ensures { spec.IsPrice self.now element result }
    {
        Pair::of(eight(&self.words, element), eight(&self.spreads, element))
    }

    /// The prices of all elements.
    pub fn prices(&self, alloc: Global) -> Result<Prices<Tariff>, AllocError>
        ensures { IfOk result (λ prices. spec.ArePrices self.now prices) }
    {
        let mut prices = Vec::with_capacity(alloc, self.elements)?;
        'elements: for element in 0..self.elements {
            prices.push(self.price(element))?;
        }
        Ok(Prices::of(prices))
    }
}

/// Gives the words of a row, if it is one of prices.
fn add_price(
    table: &mut PriceTable,
    system: &System,
    number: u64,
    row: &Row,
) -> Result<(), TextFault>
    requires { table.old.elements ≡ length (elements_of system.now) }
    ensures given { Becomes table.new result (spec.price_step system.now number table.old row.now) }
    ensures sized { table.new.elements ≡ table.old.elements }
{
    let Row::Price {
        element,
        class,
        word,
        spread,
    } = *row
    else {
        return Ok(());
    };
    match system.element(element) {
        Some(element) => table.give(number, element, class, word, spread),
        None => Err(TextFault::at(number, Cause::UnknownElement)),
    }
}

/// The prices that the rows give for the elements of a system: words that no row gives are 0. `UnknownElement` and
/// `Duplicate` (an element's words at one class are given twice) are told at their row.
pub fn prices_of(alloc: Global, rows: &[Row], system: &System) -> Result<PriceTable, TextFault>
    ensures { Builds (λ table. table) result (spec.prices_of rows.now system.now) }
{
    system.known();
    let mut table = PriceTable::new(alloc, system.element_count())?;
    'rows: for (index, row) in rows.iter().enumerate() {
        add_price(&mut table, system, index as u64 + 1, row)?;
    }
    Ok(table)
}
