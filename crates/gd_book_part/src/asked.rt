//! The question of the current cycle, and how it is frozen.

ghost use Rattle.std.specs.Prelude.{◌≡◌, ◌+◌, ◌<◌, ◌≤◌, ◌++◌, ◌∷◌, [], None, length, IsOk, IfOk, OnOk, OnErr};
ghost use Rattle.gd_units.specs.declared.service.End.TheVariants.{Origin, Dest};
ghost use Rattle.gd_rules.specs.Bounds as bounds;
ghost use Rattle.gd_system.specs.Pipeline.{elements_of};
ghost use Rattle.gd_system.specs.Route.{ends_of};
ghost use Rattle.gd_system.specs.Known.{IsSystem};
ghost use Rattle.gd_machine.specs.History.{cycle_of, response_of, is_waived};
ghost use Rattle.gd_machine.specs.Asking.{line_count, key_of, class_of, line_over, former_of, elapsed_of, nominated_of, confirmed_of, floor_of, class_in, question};
ghost use Rattle.gd_machine.specs.Known.{IsSound, IsClassed, flowed_until};
ghost use Rattle.gd_machine.specs.Machine.{refusal_of};
ghost use Rattle.gd_machine.specs.declared.event.Event.TheVariants as event;
ghost use Rattle.gd_machine.specs.declared.reply.Reply.{Reply as AReply};
ghost use Rattle.gd_book_part.specs.Kept.{AreTablesOf};
ghost use Rattle.gd_book_part.specs.Asking.{with_line, with_capacities, asked_until};

use crate::apply::later_of;
use crate::confirmations::Confirmation;
use crate::opening::Opening;
use crate::tables::Tables;
use gd_bounds::{confirmed, elapsed_step, floor, protected};
use gd_lines::LineKey;
use gd_machine::{Event, Reply};
use gd_question::{LineFault, MAX_LINES, Question, QuestionBuilder};
use gd_system::Element;
use gd_units::{Class, CycleNo, Dth, Moment, Round};
use std::alloc::{AllocError, Global};

/// Whether a line is protected from being bumped.
fn is_protected(cycle: CycleNo, class: Class, waived: bool) -> bool
    ensures { result ≡ bounds.protected cycle class waived }
{
    if waived {
        return false;
    }
    protected(cycle, class)
}

/// The class of a line under its contract.
fn class_of(opening: &Opening, key: &LineKey) -> Class
    requires { IsClassed opening.now key.now }
    ensures { result ≡ class_in opening.now key.now }
{
    match opening
        .contracts()
        .class_of(key.contract, key.origin, key.dest)
    {
        Ok(class) => class,
        Err(_) => unreachable!(),
    }
}

/// A line as it is asked: its ends stand for its route.
#[derive(Clone, Copy)]
pub(crate) struct Terms {
    key: LineKey,
    class: Class,
    floor: Dth,
    pub(crate) ceiling: Dth,
}

impl Tables {
    /// The schedule of a line in effect before the current cycle, at Timely the quantity carried over.
    pub(crate) fn former_of(
        &self,
        opening: &Opening,
        history: &[(Event, Reply)],
        cycle: CycleNo,
        line: u32,
    ) -> Dth
        requires kept { AreTablesOf opening.now self.now history.now }
        requires current { cycle ≡ cycle_of history.now }
        requires known { line < line_count opening.now history.now }
        ensures { result ≡ former_of opening.now history.now line }
    {
        match CycleNo::new(cycle.number() - 1) {
            Some(former) => self.scheduled(opening, history, line, former),
            None => opening.carried(&self.key_of(opening, history, cycle, line)),
        }
    }

    /// What has flowed of a line when the next cycle takes effect, from what had flowed at a cycle that is over.
    fn flowed_next(
        &self,
        opening: &Opening,
        history: &[(Event, Reply)],
        line: u32,
        cycle: CycleNo,
        elapsed: Dth,
    ) -> Dth
        requires kept { AreTablesOf opening.now self.now history.now }
        requires sound { IsSound opening.now history.now }
        requires later { 2 ≤ cycle }
        requires over { cycle < cycle_of history.now }
        requires early { cycle < 5 }
        requires elapsed { elapsed ≡ flowed_until opening.now history.now line cycle }
        ensures { result ≡ flowed_until opening.now history.now line (cycle + 1) }
    {
        opening.known();
        match cycle.next() {
            Some(next) => {
                let calendar = opening.calendar();
                let over = calendar.elapsed(cycle);
                let scheduled = self.scheduled(opening, history, line, cycle);
                let hours = calendar.elapsed(next) - over;
                elapsed_step(elapsed, scheduled, hours, calendar.hours() - over)
            }
            None => unreachable!(),
        }
    }

    /// What has flowed of a line when the current cycle takes effect.
    fn elapsed_of(
        &self,
        opening: &Opening,
        history: &[(Event, Reply)],
        cycle: CycleNo,
        line: u32,
    ) -> Dth
        requires kept { AreTablesOf opening.now self.now history.now }
        requires sound { IsSound opening.now history.now }
        requires current { cycle ≡ cycle_of history.now }
        ensures { result ≡ elapsed_of opening.now history.now line }
    {
        let mut elapsed = Dth::ZERO;
        if cycle.number() < 2 {
            return elapsed;
        }
        for at in 2..cycle.number() {
            match CycleNo::new(at) {
                Some(former) => {
                    elapsed = self.flowed_next(opening, history, line, former, elapsed);
                }
                None => unreachable!(),
            }
        }
        elapsed
    }

    /// What is nominated on a line for the current cycle.
    fn nominated_of(
        &self,
        opening: &Opening,
        history: &[(Event, Reply)],
        cycle: CycleNo,
        line: u32,
    ) -> Dth
        requires kept { AreTablesOf opening.now self.now history.now }
        requires current { cycle ≡ cycle_of history.now }
        requires known { line < line_count opening.now history.now }
        ensures { result ≡ nominated_of opening.now history.now line }
    {
        let _ = opening;
        let _ = history;
        let _count = self.lines.lines_until(cycle);
        self.lines.nominated(line, cycle)
    }

    /// What operators told of a line in the current cycle, and its waiver.
    fn confirmation(
        &self,
        opening: &Opening,
        history: &[(Event, Reply)],
        cycle: CycleNo,
        line: u32,
    ) -> Confirmation
        requires kept { AreTablesOf opening.now self.now history.now }
        requires current { cycle ≡ cycle_of history.now }
        requires known { line < line_count opening.now history.now }
        ensures origin { result.origin ≡ response_of history.now line Origin }
        ensures dest { result.dest ≡ response_of history.now line Dest }
        ensures waived { result.waived ≡ is_waived history.now line }
    {
        let _ = opening;
        let _ = history;
        let _count = self.lines.lines_until(cycle);
        self.confirmations[line as usize].in_cycle(cycle.number())
    }

    /// A line as it is asked in the current cycle.
    pub(crate) fn terms_of(
        &self,
        opening: &Opening,
        history: &[(Event, Reply)],
        cycle: CycleNo,
        line: u32,
    ) -> Terms
        requires kept { AreTablesOf opening.now self.now history.now }
        requires sound { IsSound opening.now history.now }
        requires current { cycle ≡ cycle_of history.now }
        requires known { line < line_count opening.now history.now }
        ensures key { result.key ≡ key_of opening.now history.now line }
        ensures class { result.class ≡ class_of opening.now history.now line }
        ensures floor { result.floor ≡ floor_of opening.now history.now line }
        ensures ceiling { result.ceiling ≡ confirmed_of opening.now history.now line }
    {
        let key = self.key_of(opening, history, cycle, line);
        let class = class_of(opening, &key);
        let former = self.former_of(opening, history, cycle, line);
        let elapsed = self.elapsed_of(opening, history, cycle, line);
        let nominated = self.nominated_of(opening, history, cycle, line);
        let told = self.confirmation(opening, history, cycle, line);
        let ceiling = confirmed(cycle, nominated, told.origin, told.dest, former, elapsed);
        let protected = is_protected(cycle, class, told.waived);
        Terms {
            key,
            class,
            floor: floor(protected, elapsed, former, ceiling),
            ceiling,
        }
    }
}

/// Sets the capacities in force of the first elements.
fn put_capacities(builder: &mut QuestionBuilder, capacities: &[Dth])
    requires system { IsSystem builder.old.pipeline }
    requires own { builder.old.asked.elements ≡ elements_of builder.old.pipeline }
    requires limited { length capacities.now
        ≡ length builder.old.pipeline.tree + length builder.old.pipeline.points }
    ensures { builder.new ≡ with_capacities builder.old capacities.now }
{
    for at in 0..capacities.len() {
        match builder.capacity(Element(at), capacities[at]) {
            Ok(()) => {}
            Err(_) => unreachable!(),
        }
    }
}

/// Adds a line, last. Nothing but memory can be wanting.
fn put_line(builder: &mut QuestionBuilder, terms: Terms) -> Result<(), AllocError>
    requires routed { IsOk (ends_of builder.old.pipeline terms.key.origin terms.key.dest) }
    requires bounds { terms.floor ≤ terms.ceiling }
    requires few { length builder.old.asked.lines < MAX_LINES }
    ensures { OnOk result (builder.new ≡ with_line builder.old (line_over builder.old.pipeline
        (ends_of builder.old.pipeline terms.key.origin terms.key.dest) terms.class terms.floor
        terms.ceiling)) }
{
    let Terms {
        key,
        class,
        floor,
        ceiling,
    } = terms;
    match builder.line(key.origin, key.dest, class.number(), floor, ceiling) {
        Ok(()) => Ok(()),
        Err(fault) => match fault {
            LineFault::OutOfMemory => Err(AllocError),
            _ => unreachable!(),
        },
    }
}

impl Tables {
    /// How many lines are asked in a cycle.
    pub(crate) fn asked_lines(
        &self,
        opening: &Opening,
        history: &[(Event, Reply)],
        cycle: CycleNo,
    ) -> u32
        requires kept { AreTablesOf opening.now self.now history.now }
        requires current { cycle ≡ cycle_of history.now }
        ensures is { result ≡ line_count opening.now history.now }
        ensures few { result ≤ MAX_LINES }
    {
        let _ = opening;
        let _ = history;
        self.lines.known();
        self.lines.lines_until(cycle) as u32
    }

    /// The question of a cycle and a round, without lines, with the capacities in force.
    fn blank(
        &self,
        alloc: Global,
        opening: &Opening,
        history: &[(Event, Reply)],
        cycle: CycleNo,
        round: Round,
    ) -> Result<QuestionBuilder, AllocError>
        requires kept { AreTablesOf opening.now self.now history.now }
        requires current { cycle ≡ cycle_of history.now }
        ensures { IfOk result (λ builder. builder ≡ asked_until opening.now history.now round 0) }
    {
        let _ = history;
        let own = opening.contracts().system();
        own.known();
        let system = own.try_clone(alloc)?;
        let mut builder = QuestionBuilder::new(alloc, system, opening.name(), cycle, round)?;
        put_capacities(&mut builder, &self.capacities);
        Ok(builder)
    }

    /// The question of the current cycle, as it is asked in a round.
    pub(crate) fn ask(
        &self,
        alloc: Global,
        opening: &Opening,
        history: &[(Event, Reply)],
        cycle: CycleNo,
        round: Round,
    ) -> Result<Question, AllocError>
        requires kept { AreTablesOf opening.now self.now history.now }
        requires sound { IsSound opening.now history.now }
        requires current { cycle ≡ cycle_of history.now }
        ensures { IfOk result (λ asked. asked
            ≡ record (question opening.now history.now) { round = round }) }
    {
        let count = self.asked_lines(opening, history, cycle);
        let mut builder = self.blank(alloc, opening, history, cycle, round)?;
        for line in 0..count {
            let terms = self.terms_of(opening, history, cycle, line);
            match put_line(&mut builder, terms) {
                Ok(()) => {}
                Err(fault) => {
                    drop(builder);
                    return Err(fault);
                }
            }
        }
        Ok(builder.finish())
    }

    /// A freeze: the question of the current cycle is asked and kept. An error changes nothing.
    pub(crate) fn freeze(
        &mut self,
        alloc: Global,
        opening: &Opening,
        history: &[(Event, Reply)],
        moment: Moment,
    ) -> Result<(), AllocError>
        requires kept { AreTablesOf opening.now self.old history.now }
        requires sound { IsSound opening.now history.now }
        requires accepted { refusal_of opening.now history.now (event.Freeze moment) ≡ None }
        ensures done { OnOk result ((reply : AReply) → AreTablesOf opening.now self.new
            (history.now ++ (event.Freeze moment, reply) ∷ [])) }
        ensures same { OnErr result (AreTablesOf opening.now self.new history.now) }
    {
        match (CycleNo::new(self.cycle), Round::new(self.round + 1)) {
            (Some(cycle), Some(round)) => {
                let question = self.ask(alloc, opening, history, cycle, round)?;
                self.frozen = Some(question);
                self.round += 1;
                self.stamp = later_of(self.stamp, moment);
                Ok(())
            }
            _ => unreachable!(),
        }
    }
}
