//! What a gas day carries over to the next.

ghost use Rattle.std.specs.Prelude.{◌≡◌, ◌++◌, ◌∷◌, [], ℕ, List, IfOk, OnOk};
ghost use Rattle.gd_rules.specs.Lines.{lines_of};
ghost use Rattle.gd_rules.specs.Schedule.{quantity};
ghost use Rattle.gd_machine.specs.Asking.{nominations};
ghost use Rattle.gd_machine.specs.Day.{Day};
ghost use Rattle.gd_machine.specs.History.{History, schedules, schedules_after};
ghost use Rattle.gd_machine.specs.Machine.{IsAccepted, IsLegal};
ghost use Rattle.gd_rounds.specs.Carried as spec;

use gd_book::{Event, Reply as BookReply};
use gd_lines::LineKey;
use gd_replies::{Boxed, CarriedLine, Reply};
use gd_units::Dth;
use std::alloc::{AllocError, Global};

/// Enters the line of an accepted nomination, if it is new.
fn enter(keys: &mut Vec<LineKey>, event: &Event, reply: &BookReply) -> Result<(), AllocError>
    ensures { OnOk result ((day : Day) (h : History)
        → keys.old.items ≡ lines_of (nominations day h) → IsAccepted day h (event.now, reply.now)
        → keys.new.items ≡ lines_of (nominations day (h ++ (event.now, reply.now) ∷ []))) }
{
    let Event::Nominate { key, .. } = event else {
        return Ok(());
    };
    let BookReply::Accepted { line, .. } = reply else {
        return Ok(());
    };
    if *line as usize == keys.len() {
        keys.push(*key)?;
    }
    Ok(())
}

/// The lines of a history, by number.
fn lines_in(alloc: Global, history: &[(Event, BookReply)]) -> Result<Vec<LineKey>, AllocError>
    ensures { IfOk result (λ keys. (day : Day) → IsLegal day history.now
        → keys.items ≡ lines_of (nominations day history.now)) }
{
    let mut keys = Vec::new(alloc);
    'events: for event in history {
        enter(&mut keys, &event.0, &event.1)?;
    }
    Ok(keys)
}

/// The quantities in effect behind an event: those that it publishes, or else the former ones.
fn published_after<'h>(event: &'h Event, former: &'h [Dth]) -> &'h [Dth]
    ensures { (before : List (List ℕ)) → former.now ≡ spec.latest before
        → result.now ≡ spec.latest (schedules_after before event.now) }
{
    match event {
        Event::Publish { certificate, .. } => certificate.schedule().quantities(),
        _ => former,
    }
}

/// The quantities that were published last, none where no schedule was.
fn last_published(history: &[(Event, BookReply)]) -> &[Dth]
    ensures { result.now ≡ spec.latest (schedules history.now) }
{
    let mut quantities: &[Dth] = &[];
    'events: for event in history {
        quantities = published_after(&event.0, quantities);
    }
    quantities
}

/// The quantity of a line, 0 where there is none.
fn quantity_of(quantities: &[Dth], line: usize) -> Dth
    ensures { result ≡ quantity quantities.now line }
{
    quantities.get(line).copied().unwrap_or(Dth::ZERO)
}

/// The row of a line. The only error is want of memory.
fn carry_row(alloc: Global, key: &LineKey, quantity: Dth) -> Result<Reply, AllocError>
    ensures { IfOk result (λ row. row ≡ spec.carry_row key.now quantity) }
{
    let line = CarriedLine {
        contract: key.contract,
        package: key.package,
        origin: key.origin,
        dest: key.dest,
        quantity: quantity.get(),
    };
    Ok(Reply::Carry(Boxed::of(alloc, line)?))
}

/// Of each line of a legal history, in the order of their numbers, what it is carried over with to the next gas day: what it is
/// scheduled by what was published last, and 0 where nothing was. The only error is want of memory.
pub fn carry_replies(
    alloc: Global,
    history: &[(Event, BookReply)],
) -> Result<Vec<Reply>, AllocError>
    ensures { IfOk result (λ rows. (day : Day) → IsLegal day history.now
        → rows.items ≡ spec.carry_rows day history.now) }
{
    let keys = lines_in(alloc, history)?;
    let quantities = last_published(history);
    let mut rows = Vec::with_capacity(alloc, keys.len())?;
    'lines: for (line, key) in keys.iter().enumerate() {
        let row = carry_row(alloc, key, quantity_of(quantities, line))?;
        rows.push(row)?;
    }
    Ok(rows)
}
