//! What an accepted event does to the tables.

ghost use Rattle.std.specs.Prelude.{◌≡◌, ℕ, ◌+◌, ◌-◌, get_or, ◌<◌, ◌≤◌, max, ◌++◌, ◌∷◌, [], None, length, OnOk, OnErr};
ghost use Rattle.gd_machine.specs.History.{cycle_of, schedules};
ghost use Rattle.gd_machine.specs.Asking.{line_count};
ghost use Rattle.gd_machine.specs.Known.{IsSound};
ghost use Rattle.gd_machine.specs.Machine.{refusal_of, reply_of};
ghost use Rattle.gd_machine.specs.declared.event.Event.TheVariants as event;
ghost use Rattle.gd_machine.specs.declared.reply.Reply.{Reply as AReply};
ghost use Rattle.gd_book_part.specs.Kept.{AreTablesOf, Brings};

use crate::opening::Opening;
use crate::tables::Tables;
use gd_certificate::{Checked, Cut};
use gd_machine::{Event, Reply};
use gd_system::Element;
use gd_units::{CycleNo, Dth, End, Moment, Name, Round};

/// The later of two moments.
pub(crate) fn later_of(a: Moment, b: Moment) -> Moment
    ensures { result ≡ max a b }
{
    if a < b { b } else { a }
}

impl Tables {
    /// The place of a line that counts among the confirmations.
    fn place(
        &self,
        opening: &Opening,
        history: &[(Event, Reply)],
        cycle: CycleNo,
        line: u32,
    ) -> usize
        requires kept { AreTablesOf opening.now self.now history.now }
        requires current { cycle ≡ cycle_of history.now }
        requires known { line < line_count opening.now history.now }
        ensures is { result ≡ line }
        ensures within { result < length self.now.confirmations.items }
    {
        let _ = opening;
        let _ = history;
        let _count = self.lines.lines_until(cycle);
        line as usize
    }

    /// The place behind the publish whose schedule is in effect before the current cycle.
    fn former_place(&self, opening: &Opening, history: &[(Event, Reply)]) -> usize
        requires kept { AreTablesOf opening.now self.now history.now }
        requires current { cycle_of history.now ≤ CycleNo.MAX }
        ensures { Brings history.now result (get_or (schedules history.now)
            (cycle_of history.now - 1) []) }
    {
        let _ = opening;
        let _ = history;
        if self.cycle == 1 {
            return 0;
        }
        self.published[usize::from(self.cycle) - 2]
    }

    /// A response.
    pub(crate) fn respond(
        &mut self,
        opening: &Opening,
        history: &[(Event, Reply)],
        moment: Moment,
        party: Name,
        line: u32,
        end: End,
        quantity: Dth,
    )
        requires kept { AreTablesOf opening.now self.old history.now }
        requires accepted { refusal_of opening.now history.now
            (event.Respond moment party line end quantity) ≡ None }
        ensures { (reply : AReply) → AreTablesOf opening.now self.new
            (history.now ++ (event.Respond moment party line end quantity, reply) ∷ []) }
    {
        let _ = party;
        let Some(cycle) = CycleNo::new(self.cycle) else {
            unreachable!();
        };
        let at = self.place(opening, history, cycle, line);
        let entry = self.confirmations[at].in_cycle(self.cycle);
        self.confirmations[at] = entry.responded(end, quantity);
        self.stamp = later_of(self.stamp, moment);
        self.calls += 1;
    }

    /// A capacity in force.
    pub(crate) fn post(
        &mut self,
        opening: &Opening,
        history: &[(Event, Reply)],
        moment: Moment,
        element: Element,
        capacity: Dth,
    )
        requires kept { AreTablesOf opening.now self.old history.now }
        requires accepted { refusal_of opening.now history.now
            (event.PostCapacity moment element capacity) ≡ None }
        ensures { (reply : AReply) → AreTablesOf opening.now self.new
            (history.now ++ (event.PostCapacity moment element capacity, reply) ∷ []) }
    {
        let _ = history;
        opening.known();
        self.capacities[element.0] = capacity;
        self.stamp = later_of(self.stamp, moment);
        self.calls += 1;
    }

    /// A declared cut.
    pub(crate) fn declare(
        &mut self,
        opening: &Opening,
        history: &[(Event, Reply)],
        moment: Moment,
        round: Round,
        cut: &Cut,
    )
        requires kept { AreTablesOf opening.now self.old history.now }
        requires accepted { refusal_of opening.now history.now
            (event.Declare moment round cut.now) ≡ None }
        ensures { (reply : AReply) → AreTablesOf opening.now self.new
            (history.now ++ (event.Declare moment round cut.now, reply) ∷ []) }
    {
        let _ = opening;
        let _ = history;
        let _ = round;
        let _ = cut;
        self.frozen = None;
        self.has_cut = true;
        self.stamp = later_of(self.stamp, moment);
    }

    /// A waiver.
    pub(crate) fn waive(
        &mut self,
        opening: &Opening,
        history: &[(Event, Reply)],
        moment: Moment,
        line: u32,
    )
        requires kept { AreTablesOf opening.now self.old history.now }
        requires accepted { refusal_of opening.now history.now (event.Waive moment line) ≡ None }
        ensures { (reply : AReply) → AreTablesOf opening.now self.new
            (history.now ++ (event.Waive moment line, reply) ∷ []) }
    {
        let Some(cycle) = CycleNo::new(self.cycle) else {
            unreachable!();
        };
        let at = self.place(opening, history, cycle, line);
        let entry = self.confirmations[at].in_cycle(self.cycle);
        self.confirmations[at] = entry.waived();
        self.stamp = later_of(self.stamp, moment);
    }

    /// A skip: the former schedule stays in effect.
    pub(crate) fn skip(&mut self, opening: &Opening, history: &[(Event, Reply)], moment: Moment)
        requires kept { AreTablesOf opening.now self.old history.now }
        requires accepted { refusal_of opening.now history.now (event.Skip moment) ≡ None }
        ensures { (reply : AReply) → AreTablesOf opening.now self.new
            (history.now ++ (event.Skip moment, reply) ∷ []) }
    {
        let place = self.former_place(opening, history);
        let over = usize::from(self.cycle) - 1;
        self.published[over] = place;
        self.cycle += 1;
        self.has_cut = false;
        self.stamp = later_of(self.stamp, moment);
    }

    /// A published schedule, which is in effect from now on. It can't fail.
    pub fn close_cycle(
        &mut self,
        opening: &Opening,
        history: &[(Event, Reply)],
        moment: Moment,
        certificate: &Checked,
    )
        requires kept { AreTablesOf opening.now self.old history.now }
        requires accepted { refusal_of opening.now history.now
            (event.Publish moment certificate.now) ≡ None }
        ensures { (reply : AReply) → AreTablesOf opening.now self.new
            (history.now ++ (event.Publish moment certificate.now, reply) ∷ []) }
    {
        let _ = opening;
        let _ = certificate;
        let over = usize::from(self.cycle) - 1;
        self.published[over] = history.len() + 1;
        self.cycle += 1;
        self.frozen = None;
        self.has_cut = false;
        self.stamp = later_of(self.stamp, moment);
    }
}
