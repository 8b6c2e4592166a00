//! What a book answers to an accepted event.

ghost use Rattle.std.specs.Prelude.{◌≡◌, ◌+◌, ◌-◌, ◌<◌, ◌≤◌, None, IfOk, length};
ghost use Rattle.gd_rules.specs.Schedule.{quantity};
ghost use Rattle.gd_machine.specs.History.{cycle_of, round_of, scheduled};
ghost use Rattle.gd_machine.specs.Asking.{line_count, former_of, bumped_lines};
ghost use Rattle.gd_machine.specs.Known.{IsSound};
ghost use Rattle.gd_machine.specs.Machine.{refusal_of, reply_of, number_of, line_number};
ghost use Rattle.gd_machine.specs.declared.event.Event.TheVariants as event;
ghost use Rattle.gd_machine.specs.declared.reply.Reply.TheVariants as machine;
ghost use Rattle.gd_book_part.specs.Kept.{AreTablesOf};

use crate::opening::Opening;
use crate::tables::Tables;
use gd_certificate::Cut;
use gd_lines::LineKey;
use gd_machine::{Event, Reply};
use gd_schedule::Schedule;
use gd_units::{CycleNo, Dth, Moment, Name, Round};

/// The number of the next accepted event.
pub(crate) fn number_of(history: &[(Event, Reply)]) -> usize
    requires { length history.now ≤ 1_000_000 }
    ensures { result ≡ number_of history.now }
{
    history.len() + 1
}

/// What a schedule has of a line, 0 where it is older than the line.
pub(crate) fn quantity_of(schedule: &Schedule, line: u32) -> Dth
    ensures { result ≡ quantity schedule.now line }
{
    let at = line as usize;
    if at < schedule.len() {
        schedule.quantity(at)
    } else {
        Dth::ZERO
    }
}

impl Tables {
    /// The number that the line of a key has or gets.
    fn line_number(&self, opening: &Opening, history: &[(Event, Reply)], key: &LineKey) -> u32
        requires { AreTablesOf opening.now self.now history.now }
        ensures { result ≡ line_number opening.now history.now key.now }
    {
        let _ = opening;
        let _ = history;
        self.lines.known();
        match self.lines.find(key) {
            Some(line) => line,
            None => self.lines.len() as u32,
        }
    }

    /// What is answered to an accepted nomination.
    pub(crate) fn answer_nominate(
        &self,
        opening: &Opening,
        history: &[(Event, Reply)],
        moment: Moment,
        party: Name,
        key: &LineKey,
        quantity: Dth,
    ) -> Reply
        requires kept { AreTablesOf opening.now self.now history.now }
        requires accepted { refusal_of opening.now history.now
            (event.Nominate moment party key.now quantity) ≡ None }
        ensures { result
            ≡ reply_of opening.now history.now (event.Nominate moment party key.now quantity) }
    {
        let _ = party;
        let _ = quantity;
        match opening.calendar().cycle_of(self.stamp.max(moment)) {
            Some(cycle) => Reply::Accepted {
                number: number_of(history),
                cycle,
                line: self.line_number(opening, history, key),
            },
            None => unreachable!(),
        }
    }

    /// What is answered to an accepted freeze.
    pub(crate) fn answer_freeze(
        &self,
        opening: &Opening,
        history: &[(Event, Reply)],
        moment: Moment,
    ) -> Reply
        requires kept { AreTablesOf opening.now self.now history.now }
        requires accepted { refusal_of opening.now history.now (event.Freeze moment) ≡ None }
        ensures { result ≡ reply_of opening.now history.now (event.Freeze moment) }
    {
        let _ = moment;
        match (CycleNo::new(self.cycle), Round::new(self.round + 1)) {
            (Some(cycle), Some(round)) => Reply::Frozen {
                number: number_of(history),
                cycle,
                round,
                lines: self.line_count(opening, history, cycle),
            },
            _ => unreachable!(),
        }
    }

    /// What is answered where nothing but the number is told.
    pub(crate) fn answer_done(&self, opening: &Opening, history: &[(Event, Reply)]) -> Reply
        requires { AreTablesOf opening.now self.now history.now }
        ensures { result ≡ machine.Done (number_of history.now) }
    {
        let _ = opening;
        Reply::Done {
            number: number_of(history),
        }
    }

    /// What is answered to an accepted declare.
    pub(crate) fn answer_declare(
        &self,
        opening: &Opening,
        history: &[(Event, Reply)],
        moment: Moment,
        round: Round,
        cut: &Cut,
    ) -> Reply
        requires kept { AreTablesOf opening.now self.now history.now }
        requires accepted { refusal_of opening.now history.now
            (event.Declare moment round cut.now) ≡ None }
        ensures { result ≡ reply_of opening.now history.now (event.Declare moment round cut.now) }
    {
        let _ = moment;
        let _ = round;
        let _ = cut;
        match &self.frozen {
            Some(question) => Reply::Declared {
                number: number_of(history),
                cycle: question.cycle(),
                round: question.round(),
            },
            None => unreachable!(),
        }
    }

    /// The schedule in effect after a cycle that is over, of one line.
    pub(crate) fn scheduled(
        &self,
        opening: &Opening,
        history: &[(Event, Reply)],
        line: u32,
        cycle: CycleNo,
    ) -> Dth
        requires kept { AreTablesOf opening.now self.now history.now }
        requires over { cycle < cycle_of history.now }
        ensures { result ≡ scheduled history.now line cycle }
    {
        let _ = opening;
        let place = self.published[usize::from(cycle.number()) - 1];
        if place == 0 {
            return Dth::ZERO;
        }
        match history.get(place - 1) {
            Some((Event::Publish { certificate, .. }, _)) => quantity_of(
                certificate.schedule(),
                line,
            ),
            _ => unreachable!(),
        }
    }
}
