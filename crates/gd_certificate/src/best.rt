//! The check of a certificate.

ghost use Rattle.std.specs.Prelude.{◌≡◌, ℕ, pos, ◌<◌, length, map, get_or, IsTrue, OnOk, IfErr, List};
ghost use Rattle.gd_scale.specs.Scale.{AtMost};
ghost use Rattle.gd_rules.specs.Question.{Question as Asked, element as asked_element};
ghost use Rattle.gd_rules.specs.Schedule.{IsAllowed, HasBetterTotals};
ghost use Rattle.gd_rules.specs.Spread.{IsBest};
ghost use Rattle.gd_rules.specs.Limits.{most_price_word};
ghost use Rattle.gd_rules.specs.Priced.{price, worth, Clears, IsPriced};
ghost use Rattle.gd_rules.specs.Tariff.{IsPricedByTariff, IsPricedByClasses};
ghost use Rattle.gd_cost.specs.Parts.{words_of, class_words};
ghost use Rattle.gd_schedule.specs.First.{FoundFirst};
ghost use Rattle.gd_certificate.specs.Exact.{Passes, Explains, FilledAt, WorthwhileAt};
ghost use Rattle.gd_certificate.specs.Levels.{AreReady};
ghost use Rattle.gd_certificate.specs.InForce.{ExplainsTariff, ExplainsClasses};

use crate::levels::levels;
use crate::loads::allowed_loads;
use crate::margin::{clears, is_filled, is_worthwhile, price_of};
use crate::{CertFault, MAX_PRICE_WORD, Prices};
use gd_cost::{ByClass, Cost, Lex, Tariff};
use gd_question::{Element, Question};
use gd_schedule::Schedule;
use std::alloc::Global;

/// The first price that is too large.
fn first_large<C: Cost>(prices: &[C]) -> Option<usize>
    ensures { FoundFirst (length prices.now)
        (λ e. IsTrue (C.within (pos most_price_word) (price C.scale (map C.meaning prices.now) e)))
        result }
{
    for at in 0..prices.len() {
        if !price_of(prices, at).fits(MAX_PRICE_WORD) {
            return Some(at);
        }
    }
    None
}

/// The first price that is wrong at its element's load.
fn first_slack<C: Cost>(question: &Question, loads: &[i64], prices: &[C]) -> Option<usize>
    requires loads { length loads.now ≡ length question.now.asked.elements }
    requires shape { length prices.now ≡ length question.now.asked.elements }
    ensures { FoundFirst (length question.now.asked.elements)
        (λ e. Clears C.scale (asked_element question.now.asked e) (get_or loads.now e (pos 0))
        (price C.scale (map C.meaning prices.now) e)) result }
{
    for at in 0..question.element_count() {
        if !clears(question.limit(Element(at)), loads[at], price_of(prices, at)) {
            return Some(at);
        }
    }
    None
}

/// The first line that would gain by its next dekatherm.
fn first_underfilled<C: ByClass>(
    question: &Question,
    schedule: &Schedule,
    prices: &[C],
    levels: &[C],
) -> Option<usize>
    requires lines { length schedule.now ≡ length question.now.asked.lines }
    requires ready { AreReady C.scale C.within question.now (map C.meaning prices.now)
        (map C.meaning levels.now) }
    ensures { FoundFirst (length question.now.asked.lines)
        (FilledAt C.scale C.within
        (λ class tenth. C.meaning (C.at class tenth)) question.now.asked schedule.now
        (map C.meaning prices.now)) result }
{
    for line in 0..question.line_count() {
        if !is_filled(question, prices, levels, line, schedule.quantity(line)) {
            return Some(line);
        }
    }
    None
}

/// The first line that loses by its last dekatherm.
fn first_overfilled<C: ByClass>(
    question: &Question,
    schedule: &Schedule,
    prices: &[C],
    levels: &[C],
) -> Option<usize>
    requires lines { length schedule.now ≡ length question.now.asked.lines }
    requires ready { AreReady C.scale C.within question.now (map C.meaning prices.now)
        (map C.meaning levels.now) }
    ensures { FoundFirst (length question.now.asked.lines)
        (WorthwhileAt C.scale C.within
        (λ class tenth. C.meaning (C.at class tenth)) question.now.asked schedule.now
        (map C.meaning prices.now)) result }
{
    for line in 0..question.line_count() {
        if !is_worthwhile(question, prices, levels, line, schedule.quantity(line)) {
            return Some(line);
        }
    }
    None
}

/// Passes exactly where the schedule is allowed and the prices clear it by this cost, else says what is first wrong.
fn check_by<C: ByClass>(
    alloc: Global,
    question: &Question,
    schedule: &Schedule,
    prices: &Prices<C>,
) -> Result<(), CertFault>
    ensures passes { OnOk result
        (Passes C.scale C.within
        (λ class tenth. C.meaning (C.at class tenth)) question.now.asked schedule.now
        (map C.meaning prices.now)) }
    ensures fault { IfErr result
        (Explains C.scale C.within
        (λ class tenth. C.meaning (C.at class tenth)) question.now.asked schedule.now
        (map C.meaning prices.now)) }
{
    let values = prices.values();
    let loads = allowed_loads(alloc, question, schedule, values.len())?;
    if let Some(at) = first_large(values) {
        return Err(CertFault::PriceTooLarge(Element(at)));
    }
    if let Some(at) = first_slack(question, &loads, values) {
        return Err(CertFault::PriceOnSlack(Element(at)));
    }
    let levels = levels(alloc, question, values)?;
    if let Some(line) = first_underfilled(question, schedule, values, &levels) {
        return Err(CertFault::Underfilled(line));
    }
    if let Some(line) = first_overfilled(question, schedule, values, &levels) {
        return Err(CertFault::Overfilled(line));
    }
    Ok(())
}

/// Checks that prices by the tariff in force show a schedule best.
///
/// It passes exactly where the schedule is allowed and the prices are right; then no allowed schedule is better, in class totals or in the spread. Else it says what is first wrong, or that memory was wanting before that was found.
pub fn check(
    alloc: Global,
    question: &Question,
    schedule: &Schedule,
    prices: &Prices<Tariff>,
) -> Result<(), CertFault>
    ensures passes { OnOk result
        (IsAllowed question.now.asked schedule.now
        × IsPricedByTariff question.now.asked schedule.now (map class_words prices.now)) }
    ensures best { OnOk result (IsBest question.now.asked schedule.now) }
    ensures fault { IfErr result
        (ExplainsTariff question.now.asked schedule.now (map class_words prices.now)) }
    // Where all is right nothing but want of memory is told.
    ensures exact { IsAllowed question.now.asked schedule.now
        → IsPricedByTariff question.now.asked schedule.now (map class_words prices.now)
        → IfErr result (λ told. told ≡ CertFault.OutOfMemory) }
{
    check_by(alloc, question, schedule, prices)
}

/// Checks that prices by classes alone show that no allowed schedule has better class totals. The spread has no part in it.
///
/// It passes exactly where the schedule is allowed and the prices are right, else says what is first wrong, or that memory was wanting before that was found.
pub fn check_classes(
    alloc: Global,
    question: &Question,
    schedule: &Schedule,
    prices: &Prices<Lex<8>>,
) -> Result<(), CertFault>
    ensures passes { OnOk result
        (IsAllowed question.now.asked schedule.now
        × IsPricedByClasses question.now.asked schedule.now (map (words_of 8) prices.now)) }
    ensures best { OnOk result ((other : List ℕ) → IsAllowed question.now.asked other
        → HasBetterTotals question.now.asked other schedule.now → ⊥) }
    ensures fault { IfErr result
        (ExplainsClasses question.now.asked schedule.now (map (words_of 8) prices.now)) }
    // Where all is right nothing but want of memory is told.
    ensures exact { IsAllowed question.now.asked schedule.now
        → IsPricedByClasses question.now.asked schedule.now (map (words_of 8) prices.now)
        → IfErr result (λ told. told ≡ CertFault.OutOfMemory) }
{
    check_by(alloc, question, schedule, prices)
}

/// Whatever lawful cost it is: prices at which an allowed schedule clears show that no allowed schedule is worth more by it.
pub fn prices_show_worth<C: ByClass>()
    ensures { (q : Asked) (schedule other : List ℕ) (prices : List C.Meaning)
        → IsAllowed q schedule
        → IsPriced C.scale (λ class tenth. C.meaning (C.at class tenth)) q schedule prices
        → IsAllowed q other
        → AtMost C.scale (worth C.scale (λ class tenth. C.meaning (C.at class tenth)) q other)
        (worth C.scale (λ class tenth. C.meaning (C.at class tenth)) q schedule) }
{}
