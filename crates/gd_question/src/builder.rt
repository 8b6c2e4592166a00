//! Questions in the making.

ghost use Rattle.std.specs.Prelude.{◌≡◌, Ok, Err, IfOk, IfErr, OnOk, OnErr, ◌⊎◌};
ghost use Rattle.gd_question.specs.Filling.{after_capacity, after_line, posed};

use crate::question::Question;
use crate::{CapacityFault, LineFault};
use gd_system::{Element, System};
use gd_units::{CycleNo, Dth, Name, Round};
use std::alloc::{AllocError, Global};
use std::marker::Model;

/// A question in the making. A refused call leaves it as it was.
#[derive(Drop)]
pub struct QuestionBuilder {
    question: Question,
}

impl Model for QuestionBuilder {
    ghost use Rattle.gd_question.specs.Posing.{Posed};

    ghost Value = { Posed };

    ghost view = { λ b. b.question };
}

impl QuestionBuilder {
    /// A question of a book, a cycle and a round, without lines, with the system's own capacities in force.
    pub fn new(
        alloc: Global,
        system: System,
        book: Name,
        cycle: CycleNo,
        round: Round,
    ) -> Result<QuestionBuilder, AllocError>
        ensures { IfOk result (λ builder. builder ≡ posed system book cycle round) }
    {
        let question = Question::empty(alloc, system, book, cycle, round)?;
        Ok(QuestionBuilder { question })
    }

    /// Sets the capacity in force of a segment or a point, in dekatherms a gas day. Of two calls for one element the later one holds.
    pub fn capacity(&mut self, element: Element, capacity: Dth) -> Result<(), CapacityFault>
        ensures done { OnOk result (after_capacity self.old element.0 capacity ≡ Ok self.new) }
        ensures refused { IfErr result
            (λ fault. after_capacity self.old element.0 capacity ≡ Err fault) }
        ensures kept { OnErr result (self.new ≡ self.old) }
    {
        self.question.set_capacity(element, capacity)
    }

    /// Adds a line from one point or pool to another, of a class from 1 to 8, with its floor and its ceiling.
    pub fn line(
        &mut self,
        origin: Name,
        dest: Name,
        class: u8,
        floor: Dth,
        ceiling: Dth,
    ) -> Result<(), LineFault>
        ensures done { OnOk result
            (after_line self.old origin dest class floor ceiling ≡ Ok self.new) }
        ensures refused { (fault : LineFault)
            → after_line self.old origin dest class floor ceiling ≡ Err fault → result ≡ Err fault }
        ensures memory { IfErr result
            (λ fault. (after_line self.old origin dest class floor ceiling ≡ Err fault)
            ⊎ (fault ≡ LineFault.OutOfMemory)) }
        ensures kept { OnErr result (self.new ≡ self.old) }
    {
        let row = self
            .question
            .check_line(origin, dest, class, floor, ceiling)?;
        self.question.push_row(row)?;
        Ok(())
    }

    /// The pipeline, with its own capacities.
    pub fn system(&self) -> &System
        ensures { result.now ≡ self.now.pipeline }
    {
        self.question.system()
    }

    /// The question.
    pub fn finish(self) -> Question
        ensures { result ≡ self }
    {
        let QuestionBuilder { question } = self;
        question
    }
}
