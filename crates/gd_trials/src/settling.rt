//! What settles a frozen question: a best schedule with its prices, checked, or a cut.

use crate::opening::Fault;
use gd_book::Book;
use gd_certificate::{Checked, Cut, Prices, check_par};
use gd_cost::Tariff;
use gd_question::Question;
use gd_schedule::Schedule;
use gd_solver::{Answer, solve};
use gd_units::Round;
use std::alloc::Global;
use std::thread::Threads;

fn best(alloc: Global, question: &Question) -> Result<(Schedule, Prices<Tariff>), Fault> {
    match solve(alloc, question)? {
        Answer::Best(schedule, prices) => Ok((schedule, prices)),
        Answer::Impossible(cut) => {
            drop(cut);
            Err(Fault::Unmade)
        }
    }
}

fn impossible(alloc: Global, question: &Question) -> Result<Cut, Fault> {
    match solve(alloc, question)? {
        Answer::Best(schedule, prices) => {
            drop(schedule);
            drop(prices);
            Err(Fault::Unmade)
        }
        Answer::Impossible(cut) => Ok(cut),
    }
}

/// A best schedule of a question, checked on threads.
fn checked(
    rt: &(impl Threads + Sync),
    alloc: Global,
    question: &Question,
) -> Result<Checked, Fault> {
    let (schedule, prices) = best(alloc, question)?;
    let Ok(question) = question.try_clone(alloc) else {
        drop(schedule);
        drop(prices);
        return Err(Fault::NoMemory);
    };
    match check_par(rt, alloc, question, schedule, prices) {
        Ok(checked) => Ok(checked),
        // What the solver answers passes the check, but for want of memory.
        Err(refused) => {
            drop(refused);
            Err(Fault::NoMemory)
        }
    }
}

/// A best schedule of the question that is frozen, checked.
pub(crate) fn certificate(
    rt: &(impl Threads + Sync),
    alloc: Global,
    book: &Book,
) -> Result<Checked, Fault> {
    let question = book.frozen().ok_or(Fault::Unmade)?;
    checked(rt, alloc, question)
}

/// A cut of the question that is frozen, which has no allowed schedule, and its round.
pub(crate) fn cut(alloc: Global, book: &Book) -> Result<(Round, Cut), Fault> {
    let question = book.frozen().ok_or(Fault::Unmade)?;
    let cut = impossible(alloc, question)?;
    Ok((question.round(), cut))
}
