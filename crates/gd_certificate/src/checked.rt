//! Certificates that passed the check.

ghost use Rattle.std.specs.Prelude.{◌≡◌, ◌↔◌, IsTrue, map, OnOk, IfOk, IfErr};
ghost use Rattle.gd_rules.specs.Schedule.{IsAllowed};
ghost use Rattle.gd_rules.specs.Spread.{IsBest};
ghost use Rattle.gd_rules.specs.Tariff.{IsPricedByTariff};
ghost use Rattle.gd_cost.specs.Parts.{class_words};
ghost use Rattle.gd_certificate.specs.Checked.{IsRight};
ghost use Rattle.gd_certificate.specs.InForce.{ExplainsTariff};

use crate::par::check_together;
use crate::{CertFault, Prices};
use gd_cost::Tariff;
use gd_question::Question;
use gd_schedule::Schedule;
use std::alloc::{AllocError, Global};
use std::marker::Model;
use std::thread::Threads;

/// What a certificate is made of.
#[derive(Drop)]
struct Parts {
    question: Question,
    schedule: Schedule,
    prices: Prices<Tariff>,
}

/// A question with a schedule and prices that passed the check, by the tariff in force. [`check_par`] alone makes one, and
/// [`Checked::try_clone`] another of the same.
///
/// A contract sees the three.
#[derive(Drop)]
pub struct Checked {
    // in a box, so that events that have no certificate are small
    parts: Box<Parts>,
}

impl Model for Checked {
    ghost use Rattle.gd_certificate.specs.Checked.{Certificate, IsRight};
    ghost use Rattle.gd_certificate.specs.Inside.{certificate_of};

    ghost Value = { Certificate };

    ghost view = { λ c. certificate_of c.parts.value };

    ghost invariant = { λ c. IsRight (certificate_of c.parts.value) };
}

impl Checked {
    /// What holds of every value: the schedule is allowed, the prices are right, and so no allowed schedule is better.
    pub fn known(&self)
        ensures right { IsRight self.now }
        ensures best { IsBest self.now.question.asked self.now.schedule }
    {
        let _parts = &self.parts;
    }

    /// The question that the schedule answers.
    pub fn question(&self) -> &Question
        ensures { result.now ≡ self.now.question }
    {
        &self.parts.question
    }

    /// The schedule, which is best.
    pub fn schedule(&self) -> &Schedule
        ensures { result.now ≡ self.now.schedule }
    {
        &self.parts.schedule
    }

    /// The prices that show it.
    pub fn prices(&self) -> &Prices<Tariff>
        ensures { result.now ≡ self.now.prices }
    {
        &self.parts.prices
    }

    /// Whether both have the same question, schedule and prices. Takes no memory.
    pub fn same(&self, other: &Checked) -> bool
        ensures { IsTrue result ↔ (self.now ≡ other.now) }
    {
        self.question().same(other.question())
            && self.schedule().same(other.schedule())
            && self.prices().same(other.prices())
    }

    /// The same three once more, which passed with them. The only error is want of memory.
    pub fn try_clone(&self, alloc: Global) -> Result<Checked, AllocError>
        ensures { IfOk result (λ copy. copy ≡ self.now) }
    {
        self.known();
        let question = self.question().try_clone(alloc)?;
        let Ok(schedule) = self.schedule().try_clone(alloc) else {
            drop(question);
            return Err(AllocError);
        };
        let Ok(prices) = self.prices().try_clone(alloc) else {
            drop(question);
            drop(schedule);
            return Err(AllocError);
        };
        match keep(alloc, question, schedule, prices) {
            Ok(checked) => Ok(checked),
            Err(parts) => {
                drop(parts);
                Err(AllocError)
            }
        }
    }
}

/// The check by several threads at the tariff in force, with the contract of `check`.
fn check_in_force(
    rt: &(impl Threads + Sync),
    alloc: Global,
    question: &Question,
    schedule: &Schedule,
    prices: &Prices<Tariff>,
) -> Result<(), CertFault>
    ensures passes { OnOk result
        (IsAllowed question.now.asked schedule.now
        × IsPricedByTariff question.now.asked schedule.now (map class_words prices.now)) }
    ensures fault { IfErr result
        (ExplainsTariff question.now.asked schedule.now (map class_words prices.now)) }
    ensures exact { IsAllowed question.now.asked schedule.now
        → IsPricedByTariff question.now.asked schedule.now (map class_words prices.now)
        → IfErr result (λ told. told ≡ CertFault.OutOfMemory) }
{
    check_together(rt, alloc, question, schedule, prices)
}

/// Keeps what passed the check. What finds no memory is handed back.
fn keep(
    alloc: Global,
    question: Question,
    schedule: Schedule,
    prices: Prices<Tariff>,
) -> Result<Checked, Parts>
    requires { IsRight (record { question = question; schedule = schedule; prices = prices }) }
    ensures kept { IfOk result
        (λ checked. checked ≡ record {
          question = question;
          schedule = schedule;
          prices = prices;
        }) }
    ensures refused { IfErr result
        (λ parts. parts ≡ record { question = question; schedule = schedule; prices = prices }) }
{
    let parts = Parts {
        question,
        schedule,
        prices,
    };
    match Box::new(alloc, parts) {
        Ok(parts) => Ok(Checked { parts }),
        Err(refused) => Err(refused.value),
    }
}

/// Checks by several threads that prices by the tariff in force show a schedule best, as `check` does, and keeps what passed.
///
/// A certificate that does not pass is handed back with what is first wrong.
pub fn check_par(
    rt: &(impl Threads + Sync),
    alloc: Global,
    question: Question,
    schedule: Schedule,
    prices: Prices<Tariff>,
) -> Result<Checked, (CertFault, Question, Schedule, Prices<Tariff>)>
    ensures passes { IfOk result
        (λ checked. checked
        ≡ record { question = question; schedule = schedule; prices = prices }) }
    ensures right { IfOk result IsRight }
    ensures fault { IfErr result
        (λ refused. ExplainsTariff question.asked schedule (map class_words prices) refused.0) }
    ensures kept { IfErr result (λ refused. (refused.1 ≡ question) × (refused.2 ≡ schedule)
        × (refused.3 ≡ prices)) }
    // Where all is right nothing but want of memory is told.
    ensures exact { IsAllowed question.asked schedule
        → IsPricedByTariff question.asked schedule (map class_words prices)
        → IfErr result (λ refused. refused.0 ≡ CertFault.OutOfMemory) }
{
    match check_in_force(rt, alloc, &question, &schedule, &prices) {
        Ok(()) => match keep(alloc, question, schedule, prices) {
            Ok(checked) => Ok(checked),
            Err(parts) => Err((
                CertFault::OutOfMemory,
                parts.question,
                parts.schedule,
                parts.prices,
            )),
        },
        Err(fault) => Err((fault, question, schedule, prices)),
    }
}
