//! Any event: its refusal, its reply, and what it does to the tables.

ghost use Rattle.std.specs.Prelude.{◌≡◌, ◌++◌, ◌∷◌, [], None, IfOk, OnOk, OnErr, IfErr};
ghost use Rattle.gd_machine.specs.Known.{IsSound};
ghost use Rattle.gd_machine.specs.Machine.{refusal_of, reply_of};
ghost use Rattle.gd_machine.specs.declared.refusal.Refusal.TheVariants as refusal;
ghost use Rattle.gd_book_part.specs.Kept.{AreTablesOf};

use crate::opening::Opening;
use crate::tables::Tables;
use gd_machine::{Event, Refusal, Reply};
use std::alloc::{AllocError, Global};

impl Tables {
    /// The first refusal of an event that applies, if there is one. It needs no memory.
    pub fn refusal(
        &self,
        opening: &Opening,
        history: &[(Event, Reply)],
        event: &Event,
    ) -> Option<Refusal>
        requires kept { AreTablesOf opening.now self.now history.now }
        requires sound { IsSound opening.now history.now }
        ensures { result ≡ refusal_of opening.now history.now event.now }
    {
        match event {
            Event::Nominate {
                moment,
                party,
                key,
                quantity,
            } => self.refuse_nominate(opening, history, *moment, *party, key, *quantity),
            Event::Respond {
                moment,
                party,
                line,
                end,
                quantity,
            } => self.refuse_respond(opening, history, *moment, *party, *line, *end, *quantity),
            Event::PostCapacity {
                moment,
                element,
                capacity,
            } => self.refuse_post(opening, history, *moment, *element, *capacity),
            Event::Freeze { moment } => self.refuse_freeze(opening, history, *moment),
            Event::Publish {
                moment,
                certificate,
            } => self.refuse_publish(opening, history, *moment, certificate),
            Event::Declare { moment, round, cut } => {
                self.refuse_declare(opening, history, *moment, *round, cut)
            }
            Event::Waive { moment, line } => self.refuse_waive(opening, history, *moment, *line),
            Event::Skip { moment } => self.refuse_skip(opening, history, *moment),
        }
    }

    /// What is answered to an accepted event. Only the lines that a publish bumps take memory.
    pub fn reply(
        &self,
        alloc: Global,
        opening: &Opening,
        history: &[(Event, Reply)],
        event: &Event,
    ) -> Result<Reply, AllocError>
        requires kept { AreTablesOf opening.now self.now history.now }
        requires sound { IsSound opening.now history.now }
        requires accepted { refusal_of opening.now history.now event.now ≡ None }
        ensures { IfOk result (λ reply. reply ≡ reply_of opening.now history.now event.now) }
    {
        match event {
            Event::Nominate {
                moment,
                party,
                key,
                quantity,
            } => Ok(self.answer_nominate(opening, history, *moment, *party, key, *quantity)),
            Event::Freeze { moment } => Ok(self.answer_freeze(opening, history, *moment)),
            Event::Publish {
                moment,
                certificate,
            } => self.answer_publish(alloc, opening, history, *moment, certificate),
            Event::Declare { moment, round, cut } => {
                Ok(self.answer_declare(opening, history, *moment, *round, cut))
            }
            Event::Respond { .. }
            | Event::PostCapacity { .. }
            | Event::Waive { .. }
            | Event::Skip { .. } => Ok(self.answer_done(opening, history)),
        }
    }

    /// Enters an accepted event into the tables. The only refusal is want of memory, which leaves them as they were.
    pub fn apply(
        &mut self,
        alloc: Global,
        opening: &Opening,
        history: &[(Event, Reply)],
        event: &Event,
    ) -> Result<(), Refusal>
        requires kept { AreTablesOf opening.now self.old history.now }
        requires sound { IsSound opening.now history.now }
        requires accepted { refusal_of opening.now history.now event.now ≡ None }
        ensures done { OnOk result (AreTablesOf opening.now self.new
            (history.now ++ (event.now, reply_of opening.now history.now event.now) ∷ [])) }
        ensures same { OnErr result (AreTablesOf opening.now self.new history.now) }
        ensures memory { IfErr result (λ r. r ≡ refusal.OutOfMemory) }
    {
        match event {
            Event::Nominate {
                moment,
                party,
                key,
                quantity,
            } => self.nominate(opening, history, *moment, *party, key, *quantity),
            Event::Respond {
                moment,
                party,
                line,
                end,
                quantity,
            } => {
                self.respond(opening, history, *moment, *party, *line, *end, *quantity);
                Ok(())
            }
            Event::PostCapacity {
                moment,
                element,
                capacity,
            } => {
                self.post(opening, history, *moment, *element, *capacity);
                Ok(())
            }
            Event::Freeze { moment } => {
                self.freeze(alloc, opening, history, *moment)?;
                Ok(())
            }
            Event::Publish {
                moment,
                certificate,
            } => {
                self.close_cycle(opening, history, *moment, certificate);
                Ok(())
            }
            Event::Declare { moment, round, cut } => {
                self.declare(opening, history, *moment, *round, cut);
                Ok(())
            }
            Event::Waive { moment, line } => {
                self.waive(opening, history, *moment, *line);
                Ok(())
            }
            Event::Skip { moment } => {
                self.skip(opening, history, *moment);
                Ok(())
            }
        }
    }
}
