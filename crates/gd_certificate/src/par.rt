//! The check of a certificate in several threads, with the answer of one.

ghost use Rattle.std.specs.Prelude.{◌≡◌, ℕ, pos, ◌<◌, ◌↔◌, length, map, get_or, false, IsTrue, OnOk, IfErr};
ghost use Rattle.gd_rules.specs.Question.{element as asked_element};
ghost use Rattle.gd_rules.specs.Limits.{most_price_word};
ghost use Rattle.gd_rules.specs.Priced.{price, Clears};
ghost use Rattle.gd_schedule.specs.First.{FoundFirst};
ghost use Rattle.gd_certificate.specs.Exact.{Passes, Explains, FilledAt, WorthwhileAt};
ghost use Rattle.gd_certificate.specs.Levels.{AreReady};
ghost use Rattle.gd_certificate.specs.Search.{FindsFirst};

use crate::levels::levels;
use crate::loads::allowed_loads;
use crate::margin::{clears, is_filled, is_worthwhile, price_of};
use crate::{CertFault, MAX_PRICE_WORD, Prices};
use gd_cost::{ByClass, Cost};
use gd_question::{Element, Question};
use gd_schedule::Schedule;
use rayon::prelude::*;
use std::alloc::Global;
use std::thread::Threads;

/// The first number below a count at which a test is true, asked in as many threads as there are processors.
fn first_wrong<F: Fn(usize) -> bool + Sync>(
    rt: &(impl Threads + Sync),
    count: usize,
    is_wrong: F,
) -> Option<usize>
    requires { (i : ℕ) → i < count → F.pre is_wrong i }
    ensures { FindsFirst count (F.post is_wrong) result }
{
    (0..count).into_par_iter().position_first(rt, is_wrong)
}

/// The first price that is too large.
fn first_large<C: Cost + Sync>(rt: &(impl Threads + Sync), prices: &[C]) -> Option<usize>
    ensures { FoundFirst (length prices.now)
        (λ e. IsTrue (C.within (pos most_price_word) (price C.scale (map C.meaning prices.now) e)))
        result }
{
    first_wrong(
        rt,
        prices.len(),
        |at: usize| -> bool
            requires { at < length prices.now }
            ensures { (result ≡ false) ↔ IsTrue
                (C.within (pos most_price_word)
                (price C.scale (map C.meaning prices.entry.now) at)) }
        { !price_of(prices, at).fits(MAX_PRICE_WORD) },
    )
}

/// The first price that is wrong at its element's load.
fn first_slack<C: Cost + Sync>(
    rt: &(impl Threads + Sync),
    question: &Question,
    loads: &[i64],
    prices: &[C],
) -> Option<usize>
    requires loads { length loads.now ≡ length question.now.asked.elements }
    requires shape { length prices.now ≡ length question.now.asked.elements }
    ensures { FoundFirst (length question.now.asked.elements)
        (λ e. Clears C.scale (asked_element question.now.asked e) (get_or loads.now e (pos 0))
        (price C.scale (map C.meaning prices.now) e)) result }
{
    first_wrong(
        rt,
        question.element_count(),
        |at: usize| -> bool
            requires { (at < length question.now.asked.elements)
                × (length loads.now ≡ length question.now.asked.elements)
                × (length prices.now ≡ length question.now.asked.elements) }
            ensures { (result ≡ false) ↔ Clears C.scale (asked_element question.entry.now.asked at)
                (get_or loads.entry.now at (pos 0))
                (price C.scale (map C.meaning prices.entry.now) at) }
        { !clears(question.limit(Element(at)), loads[at], price_of(prices, at)) },
    )
}

/// The first line that would gain by its next dekatherm.
fn first_underfilled<C: ByClass + Sync>(
    rt: &(impl Threads + Sync),
    question: &Question,
    schedule: &Schedule,
    prices: &[C],
    levels: &[C],
) -> Option<usize>
    requires lines { length schedule.now ≡ length question.now.asked.lines }
    requires ready { AreReady C.scale C.within question.now (map C.meaning prices.now)
        (map C.meaning levels.now) }
    ensures { FoundFirst (length question.now.asked.lines)
        (FilledAt C.scale C.within
        (λ class tenth. C.meaning (C.at class tenth)) question.now.asked schedule.now
        (map C.meaning prices.now)) result }
{
    first_wrong(
        rt,
        question.line_count(),
        |line: usize| -> bool
            requires { (line < length question.now.asked.lines)
                × (length schedule.now ≡ length question.now.asked.lines)
                × AreReady C.scale C.within question.now (map C.meaning prices.now)
                (map C.meaning levels.now) }
            ensures { (result ≡ false) ↔ FilledAt C.scale C.within
                (λ class tenth. C.meaning (C.at class tenth)) question.entry.now.asked
                schedule.entry.now (map C.meaning prices.entry.now) line }
        { !is_filled(question, prices, levels, line, schedule.quantity(line)) },
    )
}

/// The first line that loses by its last dekatherm.
fn first_overfilled<C: ByClass + Sync>(
    rt: &(impl Threads + Sync),
    question: &Question,
    schedule: &Schedule,
    prices: &[C],
    levels: &[C],
) -> Option<usize>
    requires lines { length schedule.now ≡ length question.now.asked.lines }
    requires ready { AreReady C.scale C.within question.now (map C.meaning prices.now)
        (map C.meaning levels.now) }
    ensures { FoundFirst (length question.now.asked.lines)
        (WorthwhileAt C.scale C.within
        (λ class tenth. C.meaning (C.at class tenth)) question.now.asked schedule.now
        (map C.meaning prices.now)) result }
{
    first_wrong(
        rt,
        question.line_count(),
        |line: usize| -> bool
            requires { (line < length question.now.asked.lines)
                × (length schedule.now ≡ length question.now.asked.lines)
                × AreReady C.scale C.within question.now (map C.meaning prices.now)
                (map C.meaning levels.now) }
            ensures { (result ≡ false) ↔ WorthwhileAt C.scale C.within
                (λ class tenth. C.meaning (C.at class tenth)) question.entry.now.asked
                schedule.entry.now (map C.meaning prices.entry.now) line }
        { !is_worthwhile(question, prices, levels, line, schedule.quantity(line)) },
    )
}

/// Passes exactly where the schedule is allowed and the prices clear it by this cost, else says what is first wrong. Prices and margins are checked by several threads, loads by one.
pub fn check_together<C: ByClass + Sync>(
    rt: &(impl Threads + Sync),
    alloc: Global,
    question: &Question,
    schedule: &Schedule,
    prices: &Prices<C>,
) -> Result<(), CertFault>
    ensures passes { OnOk result
        (Passes C.scale C.within
        (λ class tenth. C.meaning (C.at class tenth)) question.now.asked schedule.now
        (map C.meaning prices.now)) }
    ensures fault { IfErr result
        (Explains C.scale C.within
        (λ class tenth. C.meaning (C.at class tenth)) question.now.asked schedule.now
        (map C.meaning prices.now)) }
{
    let values = prices.values();
    let loads = allowed_loads(alloc, question, schedule, values.len())?;
    if let Some(at) = first_large(rt, values) {
        return Err(CertFault::PriceTooLarge(Element(at)));
    }
    if let Some(at) = first_slack(rt, question, &loads, values) {
        return Err(CertFault::PriceOnSlack(Element(at)));
    }
    let levels = levels(alloc, question, values)?;
    if let Some(line) = first_underfilled(rt, question, schedule, values, &levels) {
        return Err(CertFault::Underfilled(line));
    }
    if let Some(line) = first_overfilled(rt, question, schedule, values, &levels) {
        return Err(CertFault::Overfilled(line));
    }
    Ok(())
}
