//! Which of two schedules is better.

ghost use Rattle.std.specs.Prelude.{◌≡◌, ◌≢◌, length, MatchOption, ◌⊎◌};
ghost use Rattle.gd_rules.specs.Schedule.{class_total};
ghost use Rattle.gd_rules.specs.Spread.{class_weight};
ghost use Rattle.gd_schedule.specs.Order.{IsOrderOf, Compares};

use crate::Schedule;
use crate::classes::{class_totals, class_weights};
use gd_question::Question;
use std::cmp::Ordering;

/// The class totals, compared from class 1 on.
fn compare_totals(question: &Question, a: &Schedule, b: &Schedule) -> Ordering
    requires left { length a.now ≡ length question.now.asked.lines }
    requires right { length b.now ≡ length question.now.asked.lines }
    ensures { IsOrderOf (class_total question.now.asked a.now)
        (class_total question.now.asked b.now) result }
{
    class_totals(question, a).cmp(&class_totals(question, b))
}

/// The sums of weights, compared from class 1 on.
fn compare_weights(question: &Question, a: &Schedule, b: &Schedule) -> Ordering
    requires left { length a.now ≡ length question.now.asked.lines }
    requires right { length b.now ≡ length question.now.asked.lines }
    ensures { IsOrderOf (class_weight question.now.asked a.now)
        (class_weight question.now.asked b.now) result }
{
    class_weights(question, a).cmp(&class_weights(question, b))
}

/// Which of two schedules is better: `Greater` where `a` is, `Less` where `b` is, `Equal` where neither is.
///
/// The first class whose totals differ decides: the greater total is better (the tariff's order of classes).
/// Where all totals are equal, the first class whose sums of weights differ does: the lesser sum is better (own).
/// `None` where one of the two has not one quantity for each line.
pub fn compare(question: &Question, a: &Schedule, b: &Schedule) -> Option<Ordering>
    ensures { MatchOption result
        ((length a.now ≢ length question.now.asked.lines) ⊎
        (length b.now ≢ length question.now.asked.lines))
        (λ order. (length a.now ≡ length question.now.asked.lines)
        × (length b.now ≡ length question.now.asked.lines)
        × Compares question.now.asked a.now b.now order) }
{
    if a.len() != question.line_count() || b.len() != question.line_count() {
        return None;
    }
    let order = match compare_totals(question, a, b) {
        Ordering::Equal => compare_weights(question, b, a),
        other => other,
    };
    Some(order)
}
