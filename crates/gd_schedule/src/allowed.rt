//! Which schedules are allowed.

ghost use Rattle.std.specs.Prelude.{◌≡◌, ◌≢◌, ◌<◌, pos, length, get_or, OnOk, IfErr};
ghost use Rattle.gd_rules.specs.Question.{element as asked_element};
ghost use Rattle.gd_rules.specs.Schedule.{IsAllowed};
ghost use Rattle.gd_question.specs.Known.{limit_of};
ghost use Rattle.gd_schedule.specs.First.{FoundFirst};
ghost use Rattle.gd_schedule.specs.Exact.{KeepsFloor, KeepsCeiling, Bounded, Explains, WithinLimit, IsBalanced, FaultsAreBroken};
ghost use Rattle.gd_schedule.specs.Table.{IsTable};

use crate::loads::load_table;
use crate::{Broken, Schedule};
use gd_question::{Element, Question};
use std::alloc::Global;

/// The first line below its floor.
fn first_below(question: &Question, schedule: &Schedule) -> Option<usize>
    requires { length schedule.now ≡ length question.now.asked.lines }
    ensures { FoundFirst (length question.now.asked.lines)
        (KeepsFloor question.now.asked schedule.now) result }
{
    for line in 0..question.line_count() {
        if schedule.quantity(line) < question.floor(line) {
            return Some(line);
        }
    }
    None
}

/// The first line above its ceiling.
fn first_above(question: &Question, schedule: &Schedule) -> Option<usize>
    requires { length schedule.now ≡ length question.now.asked.lines }
    ensures { FoundFirst (length question.now.asked.lines)
        (KeepsCeiling question.now.asked schedule.now) result }
{
    for line in 0..question.line_count() {
        if schedule.quantity(line) > question.ceiling(line) {
            return Some(line);
        }
    }
    None
}

/// The first segment or point with more load than capacity.
fn first_over(question: &Question, loads: &[i64]) -> Option<usize>
    requires { length loads.now ≡ length question.now.asked.elements }
    ensures { FoundFirst (length question.now.asked.elements)
        (λ e. WithinLimit (limit_of (asked_element question.now.asked e))
        (get_or loads.now e (pos 0))) result }
{
    for element in 0..question.element_count() {
        if let Some(capacity) = question.limit(Element(element))
            && loads[element] > capacity.get() as i64
        {
            return Some(element);
        }
    }
    None
}

/// The first pool from which more or less is taken than is brought.
fn first_unbalanced(question: &Question, loads: &[i64]) -> Option<usize>
    requires { length loads.now ≡ length question.now.asked.elements }
    ensures { FoundFirst (length question.now.asked.elements)
        (λ e. IsBalanced (limit_of (asked_element question.now.asked e))
        (get_or loads.now e (pos 0))) result }
{
    for element in 0..question.element_count() {
        if question.limit(Element(element)).is_none() && loads[element] != 0 {
            return Some(element);
        }
    }
    None
}

impl Schedule {
    /// Checks that there is one quantity for each line, between its floor and its ceiling. It tells the first fault of these kinds, and takes no memory.
    pub fn bounded(&self, question: &Question) -> Result<(), Broken>
        ensures passes { OnOk result (Bounded question.now.asked self.now) }
        ensures fault { IfErr result
            (λ broken. (broken ≢ Broken.OutOfMemory)
            × Explains question.now.asked self.now broken) }
    {
        if self.len() != question.line_count() {
            return Err(Broken::Shape);
        }
        if let Some(line) = first_below(question, self) {
            return Err(Broken::BelowFloor(line));
        }
        if let Some(line) = first_above(question, self) {
            return Err(Broken::AboveCeiling(line));
        }
        Ok(())
    }

    /// Checks the loads of a schedule whose quantities are right: none is above a capacity, and each pool is balanced. It is handed the table that [`load_table`] gives, and takes no memory.
    pub fn carried(&self, question: &Question, loads: &[i64]) -> Result<(), Broken>
        requires bounded { Bounded question.now.asked self.now }
        requires table { IsTable question.now.asked self.now loads.now }
        ensures passes { OnOk result (IsAllowed question.now.asked self.now) }
        ensures fault { IfErr result
            (λ broken. (broken ≢ Broken.OutOfMemory)
            × Explains question.now.asked self.now broken) }
    {
        if let Some(element) = first_over(question, loads) {
            return Err(Broken::OverCapacity(Element(element)));
        }
        if let Some(element) = first_unbalanced(question, loads) {
            return Err(Broken::Unbalanced(Element(element)));
        }
        Ok(())
    }

    /// Passes exactly where the schedule is allowed, else says what is wrong first.
    ///
    /// Allowed means: there is one quantity for each line, between its floor and its ceiling; no segment or point is loaded above its capacity; and from each pool as much is taken as is brought.
    pub fn allowed(&self, alloc: Global, question: &Question) -> Result<(), Broken>
        ensures passes { OnOk result (IsAllowed question.now.asked self.now) }
        ensures fault { IfErr result (Explains question.now.asked self.now) }
        // Where the schedule is allowed nothing but want of memory is told.
        ensures exact { IsAllowed question.now.asked self.now → IfErr result (λ told. told ≡ Broken.OutOfMemory) }
    {
        self.bounded(question)?;
        let loads = load_table(alloc, question, self)?;
        self.carried(question, &loads)
    }
}

/// A fault that [`Schedule::allowed`] tells, want of memory aside, is one that no allowed schedule has: `Ok` comes exactly where the schedule is allowed.
pub fn faults_are_broken()
    ensures { FaultsAreBroken }
{}
