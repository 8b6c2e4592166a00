//! What the lines of each class come to together.

ghost use Rattle.std.specs.Prelude.{◌≡◌, ◌≢◌, ℕ, ◌≤◌, ◌<◌, ◌-◌, ◌+◌, ◌^◌, ◌==◌, if◌then◌else◌, length, get_or, MatchOption};
ghost use Rattle.gd_rules.specs.Question.{line as asked_line};
ghost use Rattle.gd_rules.specs.Schedule.{quantity, class_total};
ghost use Rattle.gd_rules.specs.Spread.{line_weight as weight_by_tenths, class_weight};
ghost use Rattle.gd_schedule.specs.Order.{IsByClass, HasTotals};

use crate::Schedule;
use crate::weights::line_weight;
use gd_question::Question;
use gd_units::Class;
use std::marker::Model;

/// What the lines of each class are scheduled together, in dekatherms a gas day.
///
/// A contract sees the list of the eight totals, class 1 first.
#[derive(Clone, Copy, Debug, PartialEq, Eq)]
pub struct Totals {
    by_class: [u64; Class::COUNT],
}

impl Model for Totals {
    ghost use Rattle.std.specs.Prelude.{List, ℕ};

    ghost Value = { List ℕ };

    ghost view = { λ t. t.by_class };

    ghost inverse = { λ totals. record { by_class = totals } };
}

impl Totals {
    /// The total of this class, in dekatherms a gas day.
    pub fn of(&self, class: Class) -> u64
        ensures { result ≡ get_or self.now (class - 1) 0 }
    {
        self.by_class[class.number() as usize - 1]
    }
}

/// Adds to the sum of one class.
fn add_to_class(sums: &mut [u64; Class::COUNT], class: Class, amount: u64)
    requires { get_or sums.old (class - 1) 0 + amount < 2 ^ 64 }
    ensures { (c : ℕ) → 1 ≤ c → c ≤ Class.MAX
        → get_or sums.new (c - 1) 0
        ≡ get_or sums.old (c - 1) 0 + (if class == c then amount else 0) }
{
    sums[class.number() as usize - 1] += amount;
}

/// The sum of the quantities of each class's lines.
pub(crate) fn class_totals(question: &Question, schedule: &Schedule) -> [u64; Class::COUNT]
    requires { length schedule.now ≡ length question.now.asked.lines }
    ensures { IsByClass (class_total question.now.asked schedule.now) result }
{
    question.known();
    let mut totals = [0; 8];
    for line in 0..question.line_count() {
        add_to_class(
            &mut totals,
            question.class(line),
            schedule.quantity(line).get(),
        );
    }
    totals
}

/// What a line's quantity weighs.
fn weight_of(question: &Question, schedule: &Schedule, line: usize) -> u64
    requires shape { length schedule.now ≡ length question.now.asked.lines }
    requires known { line < length question.now.asked.lines }
    ensures is { result ≡ weight_by_tenths (asked_line question.now.asked line)
        (quantity schedule.now line) }
    ensures high { result ≤ 10_000_000_000 }
{
    line_weight(question.ceiling(line), schedule.quantity(line))
}

/// The sum of the weights of each class's lines.
pub(crate) fn class_weights(question: &Question, schedule: &Schedule) -> [u64; Class::COUNT]
    requires { length schedule.now ≡ length question.now.asked.lines }
    ensures { IsByClass (class_weight question.now.asked schedule.now) result }
{
    question.known();
    let mut weights = [0; 8];
    for line in 0..question.line_count() {
        add_to_class(
            &mut weights,
            question.class(line),
            weight_of(question, schedule, line),
        );
    }
    weights
}

impl Schedule {
    /// The total of each class, or `None` where there is not one quantity for each line.
    pub fn totals(&self, question: &Question) -> Option<Totals>
        ensures { MatchOption result
            (length self.now ≢ length question.now.asked.lines)
            (λ totals. (length self.now ≡ length question.now.asked.lines)
            × HasTotals question.now.asked self.now totals) }
    {
        if self.len() != question.line_count() {
            return None;
        }
        Some(Totals {
            by_class: class_totals(question, self),
        })
    }
}
