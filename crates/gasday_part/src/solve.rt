//! What is told of a question that is solved.

ghost use Rattle.std.specs.Prelude.{map, IfOk};
ghost use Rattle.gd_rules.specs.Schedule.{IsAllowed};
ghost use Rattle.gd_rules.specs.Spread.{IsBest};
ghost use Rattle.gd_rules.specs.Tariff.{IsPricedByTariff};
ghost use Rattle.gd_cost.specs.Parts.{class_words};
ghost use Rattle.gd_certificate.specs.Explained.{IsShaped, Cuts};
ghost use Rattle.gd_text.specs.Values.{question_of as question_by};
ghost use Rattle.gasday_part.specs.Answers as spec;
ghost use Rattle.gasday_part.specs.AnswerSeen.{answer_seen};

use crate::answer::{Answer, of_fault};
use gd_certificate::{Cut, CutFault, Prices, check_cut};
use gd_cost::Tariff;
use gd_question::Question;
use gd_replies::{cut_replies, solved_replies};
use gd_schedule::Schedule;
use gd_solver::{Answer as Solution, solve};
use gd_text::question_of;
use gd_text_part::{Row, TextFault};
use std::alloc::{AllocError, Global};

/// A best schedule, with the prices that show it best.
fn tell_schedule(
    alloc: Global,
    question: &Question,
    schedule: &Schedule,
    prices: &Prices<Tariff>,
) -> Result<Answer, AllocError>
    requires allowed { IsAllowed question.now.asked schedule.now }
    requires priced { IsPricedByTariff question.now.asked schedule.now
        (map class_words prices.now) }
    requires best { IsBest question.now.asked schedule.now }
    ensures { IfOk result (λ a. spec.Solves question.now (answer_seen a)) }
{
    let replies = solved_replies(alloc, question, schedule, prices)?;
    Ok(Answer::whole(replies, 0))
}

/// A cut, which shows that no schedule is allowed.
fn tell_impossible(alloc: Global, question: &Question, cut: &Cut) -> Result<Answer, AllocError>
    requires shaped { IsShaped question.now.pipeline cut.now }
    requires cuts { Cuts question.now cut.now }
    ensures { IfOk result (λ a. spec.Solves question.now (answer_seen a)) }
{
    match check_cut(question, cut) {
        Ok(excess) => {
            let replies = cut_replies(alloc, question, cut, excess)?;
            Ok(Answer::whole(replies, 1))
        }
        Err(CutFault::Shape) => unreachable!(),
        Err(CutFault::NotCut) => unreachable!(),
    }
}

/// A best schedule of a question with its prices, or a cut where no schedule is allowed.
fn tell_solution(alloc: Global, question: &Question) -> Result<Answer, AllocError>
    ensures { IfOk result (λ a. spec.Solves question.now (answer_seen a)) }
{
    match solve(alloc, question)? {
        Solution::Best(schedule, prices) => tell_schedule(alloc, question, &schedule, &prices),
        Solution::Impossible(cut) => tell_impossible(alloc, question, &cut),
    }
}

/// What `tell_solution` tells of the question that the rows ask.
pub(crate) fn tell_solved(alloc: Global, rows: &[Row]) -> Result<Answer, AllocError>
    ensures { IfOk result (λ a. spec.SolvesAsked (question_by rows.now) (answer_seen a)) }
{
    match question_of(alloc, rows) {
        Ok(question) => tell_solution(alloc, &question),
        Err(fault) => of_fault(alloc, fault),
    }
}
