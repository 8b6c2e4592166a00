//! What is told of prices and of cuts.

ghost use Rattle.std.specs.Prelude.{IfOk};
ghost use Rattle.gd_text.specs.Members.{members_of as set_of};
ghost use Rattle.gd_text.specs.Prices.{prices_of as table_of};
ghost use Rattle.gd_text.specs.Values.{asked_of as asked_by, question_of as question_by};
ghost use Rattle.gasday_part.specs.Answers as spec;
ghost use Rattle.gasday_part.specs.AnswerSeen.{answer_seen};

use crate::answer::{Answer, of_fault, of_one};
use gd_certificate::{Cut, Prices, check, check_cut};
use gd_cost::Tariff;
use gd_question::Question;
use gd_replies::{Reply, best_replies, cut_fault_reply, fault_reply};
use gd_text::{Asked, asked_of, members_of, prices_of, question_of};
use gd_text_part::{Row, TextFault};
use std::alloc::{AllocError, Global};

/// Whether prices show the schedule best.
fn check_prices(alloc: Global, asked: &Asked, prices: &Prices<Tariff>) -> Result<Answer, AllocError>
    ensures { IfOk result
        (λ a. spec.ChecksPrices asked.now.question asked.now.schedule prices.now (answer_seen a)) }
{
    match check(alloc, &asked.question, &asked.schedule, prices) {
        Ok(()) => {
            let replies = best_replies(alloc, &asked.question, &asked.schedule)?;
            Ok(Answer::whole(replies, 0))
        }
        Err(fault) => {
            let reply = fault_reply(&asked.question, &asked.schedule, prices, fault)?;
            of_one(alloc, reply, 1)
        }
    }
}

/// Whether the prices of the rows show a schedule best.
fn check_table(alloc: Global, asked: &Asked, rows: &[Row]) -> Result<Answer, AllocError>
    ensures { IfOk result (λ a. spec.ChecksTable asked.now.question asked.now.schedule
        (table_of rows.now asked.now.question.pipeline) (answer_seen a)) }
{
    match prices_of(alloc, rows, asked.question.system()) {
        Ok(table) => {
            let prices = table.prices(alloc)?;
            check_prices(alloc, asked, &prices)
        }
        Err(fault) => of_fault(alloc, fault),
    }
}

/// Whether the prices of the rows show their schedule best.
pub(crate) fn tell_best(alloc: Global, rows: &[Row]) -> Result<Answer, AllocError>
    ensures { IfOk result (λ a. spec.ChecksBest rows.now (asked_by rows.now) (answer_seen a)) }
{
    match asked_of(alloc, rows) {
        Ok(asked) => check_table(alloc, &asked, rows),
        Err(fault) => of_fault(alloc, fault),
    }
}

/// Whether a set shows that no schedule is allowed.
fn check_set(alloc: Global, question: &Question, cut: &Cut) -> Result<Answer, AllocError>
    ensures { IfOk result (λ a. spec.ChecksSet question.now cut.now (answer_seen a)) }
{
    match check_cut(question, cut) {
        Ok(excess) => of_one(alloc, Reply::Cut(excess), 0),
        Err(fault) => of_one(alloc, cut_fault_reply(fault), 1),
    }
}

/// Whether the set that the rows name shows that no schedule of a question is allowed.
fn check_members(alloc: Global, question: &Question, rows: &[Row]) -> Result<Answer, AllocError>
    ensures { IfOk result
        (λ a. spec.ChecksMembers question.now (set_of rows.now question.now.pipeline)
        (answer_seen a)) }
{
    match members_of(alloc, rows, question.system()) {
        Ok(table) => check_set(alloc, question, &table.cut()),
        Err(fault) => of_fault(alloc, fault),
    }
}

/// Whether the set that the rows name shows that no schedule of their question is allowed.
pub(crate) fn tell_cut(alloc: Global, rows: &[Row]) -> Result<Answer, AllocError>
    ensures { IfOk result (λ a. spec.ChecksCut rows.now (question_by rows.now) (answer_seen a)) }
{
    match question_of(alloc, rows) {
        Ok(question) => check_members(alloc, &question, rows),
        Err(fault) => of_fault(alloc, fault),
    }
}
