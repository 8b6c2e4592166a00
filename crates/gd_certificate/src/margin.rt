//! What lines pay, and what is left of a dekatherm's worth.

ghost use Rattle.std.specs.Prelude.{◌≡◌, ◌↔◌, pos, ◌<◌, ◌≤◌, ◌+◌, ◌^◌, length, map, IsTrue};
ghost use Rattle.gd_scale.specs.Scale.{AtMost};
ghost use Rattle.gd_rules.specs.Question.{line as asked_line, element as asked_element, place_of};
ghost use Rattle.gd_rules.specs.Tree.{CanSend};
ghost use Rattle.gd_rules.specs.Limits.{most_price_word};
ghost use Rattle.gd_rules.specs.Priced.{price, crossed, margin as margin_of};
ghost use Rattle.gd_system.specs.Parts.{element_of};
ghost use Rattle.gd_certificate.specs.Payments.{ClearsLimit, origin_price};
ghost use Rattle.gd_certificate.specs.Levels.{HasLevels, AreReady, level};

use gd_cost::{ByClass, Cost};
use gd_question::{Element, Part, Question};
use gd_schedule::tenth_of;
use gd_units::Dth;
use std::cmp::Ordering;

/// The price of an element.
pub fn price_of<C: Cost>(prices: &[C], at: usize) -> C
    requires { at < length prices.now }
    ensures { C.meaning result ≡ price C.scale (map C.meaning prices.now) at }
{
    prices[at]
}

/// The level of the place that an element hangs on.
fn level_at<C: Cost>(question: &Question, prices: &[C], levels: &[C], at: Element) -> C
    requires known { at.0 < length question.now.asked.elements }
    requires levels { HasLevels C.scale C.within question.now.asked.elements
        (length question.now.pipeline.tree + 1) (map C.meaning prices.now)
        (map C.meaning levels.now) }
    ensures is { C.meaning result
        ≡ level C.scale (map C.meaning levels.now)
        (place_of (asked_element question.now.asked at.0)) }
    ensures small { IsTrue (C.within (pos (2 ^ 52)) (C.meaning result)) }
{
    question.placed();
    levels[question.part(at).place().0]
}

/// What a line pays at its origin: the price, got back where it leaves a pool.
fn origin_price<C: Cost>(part: Part, price: C) -> C
    requires { IsTrue (C.within (pos most_price_word) (C.meaning price)) }
    ensures is { CanSend (element_of part)
        → C.meaning result ≡ origin_price C.scale (element_of part) (C.meaning price) }
    ensures small { IsTrue (C.within (pos most_price_word) (C.meaning result)) }
{
    match part {
        Part::Pool(_) => C::zero().sub(price),
        _ => price,
    }
}

/// What a line pays for a dekatherm: for its route the difference of two levels, and the prices of its ends, that of a pool got back where it leaves it.
fn paid<C: Cost>(question: &Question, prices: &[C], levels: &[C], line: usize) -> C
    requires known { line < length question.now.asked.lines }
    requires ready { AreReady C.scale C.within question.now (map C.meaning prices.now)
        (map C.meaning levels.now) }
    ensures is { C.meaning result
        ≡ crossed C.scale question.now.asked (map C.meaning prices.now) line }
    ensures small { IsTrue (C.within (pos (2 ^ 54)) (C.meaning result)) }
{
    question.known();
    let origin = question.origin(line);
    let dest = question.dest(line);
    let start = level_at(question, prices, levels, origin);
    let end = level_at(question, prices, levels, dest);
    let at_origin = origin_price(question.part(origin), price_of(prices, origin.0));
    let at_ends = at_origin.add(price_of(prices, dest.0));
    end.sub(start).add(at_ends)
}

/// What a dekatherm of a line is worth, less what the line pays for it. Dekatherms are counted from 1.
fn margin<C: ByClass>(
    question: &Question,
    prices: &[C],
    levels: &[C],
    line: usize,
    dekatherm: u64,
) -> C
    requires known { line < length question.now.asked.lines }
    requires ready { AreReady C.scale C.within question.now (map C.meaning prices.now)
        (map C.meaning levels.now) }
    requires counted { 1 ≤ dekatherm }
    ensures { C.meaning result ≡ margin_of C.scale
        (λ class tenth. C.meaning (C.at class tenth)) question.now.asked
        (map C.meaning prices.now) line dekatherm }
{
    let tenth = tenth_of(question.ceiling(line), dekatherm);
    C::unit_at(question.class(line), tenth).sub(paid(question, prices, levels, line))
}

/// Whether a line of this quantity is at its ceiling or gains nothing by its next dekatherm.
pub fn is_filled<C: ByClass>(
    question: &Question,
    prices: &[C],
    levels: &[C],
    line: usize,
    quantity: Dth,
) -> bool
    requires known { line < length question.now.asked.lines }
    requires ready { AreReady C.scale C.within question.now (map C.meaning prices.now)
        (map C.meaning levels.now) }
    ensures { IsTrue result
        ↔ (quantity < (asked_line question.now.asked line).ceiling
        → AtMost C.scale (margin_of C.scale
        (λ class tenth. C.meaning (C.at class tenth)) question.now.asked
        (map C.meaning prices.now) line (quantity + 1)) C.scale.none) }
{
    let next = quantity.get() + 1;
    if question.ceiling(line).get() < next {
        return true;
    }
    margin(question, prices, levels, line, next).cmp(C::zero()) != Ordering::Greater
}

/// Whether a line of this quantity is at its floor or loses nothing by its last dekatherm.
pub fn is_worthwhile<C: ByClass>(
    question: &Question,
    prices: &[C],
    levels: &[C],
    line: usize,
    quantity: Dth,
) -> bool
    requires known { line < length question.now.asked.lines }
    requires ready { AreReady C.scale C.within question.now (map C.meaning prices.now)
        (map C.meaning levels.now) }
    ensures { IsTrue result
        ↔ ((asked_line question.now.asked line).floor < quantity
        → AtMost C.scale C.scale.none
        (margin_of C.scale (λ class tenth. C.meaning (C.at class tenth)) question.now.asked
        (map C.meaning prices.now) line quantity)) }
{
    let last = quantity.get();
    if last <= question.floor(line).get() {
        return true;
    }
    C::zero().cmp(margin(question, prices, levels, line, last)) != Ordering::Greater
}

/// Whether a price is right at this load.
pub fn clears<C: Cost>(limit: Option<Dth>, load: i64, price: C) -> bool
    ensures { IsTrue result ↔ ClearsLimit C.scale limit load (C.meaning price) }
{
    let Some(capacity) = limit else {
        return true;
    };
    let capacity = capacity.get() as i64;
    if price.cmp(C::zero()) == Ordering::Greater && load != capacity {
        return false;
    }
    if C::zero().cmp(price) == Ordering::Greater && load != 0 {
        return false;
    }
    true
}
