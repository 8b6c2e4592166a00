//! The rows of a schedule, of the prices that show it best, and of the lines that it bumps.

ghost use Rattle.std.specs.Prelude.{◌≡◌, ◌<◌, ◌++◌, length, FitsSigned, OnOk, slice_get, Some, string_bytes};
ghost use Rattle.std.specs.Int.{w128};
ghost use Rattle.gd_rules.specs.Limits.{classes};
ghost use Rattle.gd_cost.specs.Parts.{words_of, class_words};
ghost use Rattle.gd_system.specs.Pipeline.{names_of};
ghost use Rattle.gd_body.specs.Rows as spec;

use crate::row::SpreadField;
use gd_board::{Bumped, Posting};
use gd_certificate::Prices;
use gd_cost::{Lex, Tariff};
use gd_schedule::Schedule;
use gd_system::{Element, System};
use gd_units::{Class, Name};
use std::alloc::AllocError;

/// Appends the row of each line's quantity. The only error is want of memory.
pub fn write_schedule(text: &mut String, schedule: &Schedule) -> Result<(), AllocError>
    ensures { OnOk result (string_bytes text.new
        ≡ string_bytes text.old ++ spec.lines_of (spec.sched_rows schedule.now)) }
{
    'lines: for (index, quantity) in schedule.quantities().iter().enumerate() {
        let line = index as u64 + 1;
        write!(text, "sched,{line},{quantity},,,,,\n")?;
    }
    Ok(())
}

/// The word at a class, the classes counted from 0.
fn word(words: Lex<8>, class: usize) -> i128
    requires { class < classes }
    ensures is { result ≡ words_of 8 words class }
    ensures fits { FitsSigned w128 result }
{
    words.word(class).unwrap_or(0)
}

/// Appends the row of an element's words at a level.
fn write_words(
    text: &mut String,
    element: Name,
    level: u64,
    word: i128,
    spread: i128,
) -> Result<(), AllocError>
    ensures { OnOk result (string_bytes text.new
        ≡ string_bytes text.old ++ spec.line (spec.words_row element level word spread)) }
{
    let spread = SpreadField(spread);
    write!(text, "price,{element},{level},{word},{spread},,,\n")
}

/// Appends the row of an element's words at a level, if one of them isn't 0.
fn write_level(
    text: &mut String,
    element: Name,
    level: u64,
    word: i128,
    spread: i128,
) -> Result<(), AllocError>
    ensures { OnOk result (string_bytes text.new
        ≡ string_bytes text.old ++ spec.lines_of (spec.level_row element level word spread)) }
{
    if word == 0 && spread == 0 {
        return Ok(());
    }
    write_words(text, element, level, word, spread)
}

/// Appends the rows of an element's price.
fn write_price(text: &mut String, element: Name, price: Tariff) -> Result<(), AllocError>
    ensures { OnOk result (string_bytes text.new
        ≡ string_bytes text.old ++ spec.lines_of (spec.element_rows element (class_words price))) }
{
    'classes: for class in 0..Class::COUNT {
        let first = word(price.first(), class);
        let second = word(price.second(), class);
        write_level(text, element, class as u64 + 1, first, second)?;
    }
    Ok(())
}

/// The price of an element, the elements counted from 0.
fn price(prices: &Prices<Tariff>, element: usize) -> Tariff
    requires { element < length prices.now }
    ensures { slice_get prices.now element ≡ Some result }
{
    prices.values()[element]
}

/// Appends the rows of all prices, by element and then by level, where one of the two words isn't 0. The only error is want of
/// memory.
pub fn write_prices(
    text: &mut String,
    system: &System,
    prices: &Prices<Tariff>,
) -> Result<(), AllocError>
    ensures { OnOk result (string_bytes text.new
        ≡ string_bytes text.old
        ++ spec.lines_of (spec.price_rows (names_of system.now) prices.now)) }
{
    system.known();
    let count = system.element_count().min(prices.values().len());
    'elements: for element in 0..count {
        let name = system.name(Element(element));
        write_price(text, name, price(prices, element))?;
    }
    Ok(())
}

/// Appends the row of each bumped line.
fn write_bumped(text: &mut String, bumped: &Bumped) -> Result<(), AllocError>
    ensures { OnOk result (string_bytes text.new
        ≡ string_bytes text.old ++ spec.lines_of (spec.bumped_rows bumped.now)) }
{
    'lines: for line in bumped.lines() {
        let (number, quantity) = (u64::from(line.0) + 1, line.1);
        write!(text, "bumped,{number},{quantity},,,,,\n")?;
    }
    Ok(())
}

/// Appends the rows of a posting's schedule, prices and bumped lines.
pub(crate) fn write_taken(text: &mut String, posting: &Posting) -> Result<(), AllocError>
    ensures { OnOk result (string_bytes text.new
        ≡ string_bytes text.old ++ spec.lines_of (spec.taken_rows posting.now)) }
{
    write_schedule(text, &posting.schedule)?;
    write_prices(text, posting.question.system(), &posting.prices)?;
    write_bumped(text, &posting.bumped)
}
