//! The lines that a schedule bumps.

ghost use Rattle.std.specs.Prelude.{◌≡◌, ◌<◌, None, IfOk};
ghost use Rattle.gd_machine.specs.History.{cycle_of};
ghost use Rattle.gd_machine.specs.Asking.{line_count, bumped_by, bumped_lines};
ghost use Rattle.gd_machine.specs.Known.{IsSound};
ghost use Rattle.gd_machine.specs.Machine.{refusal_of, reply_of};
ghost use Rattle.gd_machine.specs.declared.event.Event.TheVariants as event;
ghost use Rattle.gd_book_part.specs.Kept.{AreTablesOf};

use crate::answer::{number_of, quantity_of};
use crate::opening::Opening;
use crate::tables::Tables;
use gd_board::Bumped;
use gd_bounds::bumped;
use gd_certificate::Checked;
use gd_machine::{Event, Reply};
use gd_schedule::Schedule;
use gd_units::{CycleNo, Dth, Moment};
use std::alloc::{AllocError, Global};

impl Tables {
    /// By how much a schedule bumps a line.
    fn bumped_by(
        &self,
        opening: &Opening,
        history: &[(Event, Reply)],
        cycle: CycleNo,
        schedule: &Schedule,
        line: u32,
    ) -> Dth
        requires kept { AreTablesOf opening.now self.now history.now }
        requires sound { IsSound opening.now history.now }
        requires current { cycle ≡ cycle_of history.now }
        requires known { line < line_count opening.now history.now }
        ensures { result ≡ bumped_by opening.now history.now schedule.now line }
    {
        let former = self.former_of(opening, history, cycle, line);
        let terms = self.terms_of(opening, history, cycle, line);
        bumped(cycle, former, terms.ceiling, quantity_of(schedule, line))
    }

    /// The lines that a schedule bumps, in order.
    fn bumped_lines(
        &self,
        alloc: Global,
        opening: &Opening,
        history: &[(Event, Reply)],
        cycle: CycleNo,
        schedule: &Schedule,
    ) -> Result<Bumped, AllocError>
        requires kept { AreTablesOf opening.now self.now history.now }
        requires sound { IsSound opening.now history.now }
        requires current { cycle ≡ cycle_of history.now }
        ensures { IfOk result (λ bumped. bumped
            ≡ bumped_lines opening.now history.now schedule.now) }
    {
        let count = self.asked_lines(opening, history, cycle);
        let mut lines = Bumped::of(alloc, Vec::new(alloc))?;
        for line in 0..count {
            let by = self.bumped_by(opening, history, cycle, schedule, line);
            lines.push(line, by)?;
        }
        Ok(lines)
    }

    /// What is answered to an accepted publish.
    pub(crate) fn answer_publish(
        &self,
        alloc: Global,
        opening: &Opening,
        history: &[(Event, Reply)],
        moment: Moment,
        certificate: &Checked,
    ) -> Result<Reply, AllocError>
        requires kept { AreTablesOf opening.now self.now history.now }
        requires sound { IsSound opening.now history.now }
        requires accepted { refusal_of opening.now history.now
            (event.Publish moment certificate.now) ≡ None }
        ensures { IfOk result (λ reply. reply
            ≡ reply_of opening.now history.now (event.Publish moment certificate.now)) }
    {
        let _ = moment;
        match &self.frozen {
            Some(question) => {
                let cycle = question.cycle();
                let schedule = certificate.schedule();
                let bumped = self.bumped_lines(alloc, opening, history, cycle, schedule)?;
                Ok(Reply::Published {
                    number: number_of(history),
                    cycle,
                    round: question.round(),
                    bumped,
                })
            }
            None => unreachable!(),
        }
    }
}
