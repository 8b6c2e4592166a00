//! What an accepted nomination does to the tables.

ghost use Rattle.std.specs.Result.{is_err};
ghost use Rattle.std.specs.Prelude.{◌≡◌, ◌==◌, false, ◌<◌, ◌≤◌, Ok, IfOk, if◌then◌else◌, ◌++◌, ◌∷◌, [], None, All, OnOk, OnErr, IfErr, length};
ghost use Rattle.std.specs.Vec.{vec_len, vec_capacity};
ghost use Rattle.gd_rules.specs.Lines.{lines_of};
ghost use Rattle.gd_lines.specs.Numbering.{nomination, numbered};
ghost use Rattle.gd_machine.specs.Asking.{nominations, class_in};
ghost use Rattle.gd_machine.specs.Day.{cycle_at};
ghost use Rattle.gd_machine.specs.History.{stamp_of};
ghost use Rattle.gd_machine.specs.Known.{IsSound, IsClassed};
ghost use Rattle.gd_machine.specs.Machine.{refusal_of, reply_of};
ghost use Rattle.gd_machine.specs.declared.event.Event.TheVariants as event;
ghost use Rattle.gd_machine.specs.declared.refusal.Refusal.TheVariants as refusal;
ghost use Rattle.gd_book_part.specs.Kept.{AreTablesOf};

use crate::apply::later_of;
use crate::confirmations::Confirmation;
use crate::opening::Opening;
use crate::tables::Tables;
use gd_lines::{LineKey, Lines};
use gd_machine::{Event, Refusal, Reply};
use gd_units::{Class, CycleNo, Dth, Moment, Name};

/// The class of a line that is accepted.
fn class_of(opening: &Opening, key: &LineKey) -> Class
    requires { IsClassed opening.now key.now }
    ensures { result ≡ class_in opening.now key.now }
{
    match opening
        .contracts()
        .class_of(key.contract, key.origin, key.dest)
    {
        Ok(class) => class,
        Err(_) => unreachable!(),
    }
}

/// Accepts a nomination that the lines don't refuse.
fn accept(
    lines: &mut Lines,
    key: &LineKey,
    cycle: CycleNo,
    class: Class,
    quantity: Dth,
) -> Result<u32, Refusal>
    requires rising { All (λ former. former.cycle ≤ cycle) lines.old }
    requires few { is_err (numbered lines.old key.now) ≡ false }
    ensures done { OnOk result (lines.new
        ≡ lines.old ++ nomination key.now cycle class quantity ∷ []) }
    ensures number { IfOk result (λ line. numbered lines.old key.now ≡ Ok line) }
    ensures same { OnErr result (lines.new ≡ lines.old) }
    ensures memory { IfErr result (λ r. r ≡ refusal.OutOfMemory) }
{
    match lines.accept(*key, cycle, class, quantity) {
        Ok(line) => Ok(line),
        Err(_) => Err(Refusal::OutOfMemory),
    }
}

/// Makes room for one entry more.
fn make_room(entries: &mut Vec<Confirmation>) -> Result<(), Refusal>
    ensures same { entries.new.items ≡ entries.old.items }
    ensures room { OnOk result (vec_len entries.new < vec_capacity entries.new) }
    ensures memory { IfErr result (λ r. r ≡ refusal.OutOfMemory) }
{
    entries.reserve(1)?;
    Ok(())
}

/// Adds a last entry where this is its place, in room that is there.
fn enter<T: Copy>(entries: &mut Vec<T>, at: usize, last: T)
    requires { vec_len entries.old < vec_capacity entries.old }
    ensures { entries.new.items
        ≡ (if at == length entries.old.items then entries.old.items
        ++ last ∷ [] else entries.old.items) }
{
    if at == entries.len() {
        entries.push_reserved(last);
    }
}

impl Tables {
    /// A nomination. The only refusal is want of memory, which leaves all as it was.
    pub(crate) fn nominate(
        &mut self,
        opening: &Opening,
        history: &[(Event, Reply)],
        moment: Moment,
        party: Name,
        key: &LineKey,
        quantity: Dth,
    ) -> Result<(), Refusal>
        requires kept { AreTablesOf opening.now self.old history.now }
        requires sound { IsSound opening.now history.now }
        requires accepted { refusal_of opening.now history.now
            (event.Nominate moment party key.now quantity) ≡ None }
        ensures done { OnOk result (AreTablesOf opening.now self.new
            (history.now ++ (
              event.Nominate moment party key.now quantity,
              reply_of opening.now
                  history.now (event.Nominate moment party key.now quantity),
            ) ∷ [])) }
        ensures same { OnErr result (AreTablesOf opening.now self.new history.now) }
        ensures memory { IfErr result (λ r. r ≡ refusal.OutOfMemory) }
    {
        let _ = party;
        opening.known();
        let stamp = later_of(self.stamp, moment);
        let Some(cycle) = opening.calendar().cycle_of(stamp) else {
            unreachable!();
        };
        let class = class_of(opening, key);
        make_room(&mut self.confirmations)?;
        let line = accept(&mut self.lines, key, cycle, class, quantity)?;
        enter(
            &mut self.confirmations,
            line as usize,
            Confirmation::nothing(),
        );
        self.stamp = stamp;
        self.nominations += 1;
        self.dekatherms += quantity.get();
        self.calls += 1;
        Ok(())
    }
}
