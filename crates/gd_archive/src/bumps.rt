//! Whether the bumped lines that a posting tells are what its schedule takes from the schedule before it.

ghost use Rattle.std.specs.Prelude.{◌≡◌, ◌<◌, length, option_map, Some, IfOk};
ghost use Rattle.gd_rules.specs.Schedule.{quantity};
ghost use Rattle.gd_archive.specs.Bumps as spec;

use crate::fault::NO_MEMORY;
use crate::row::Label;
use crate::sound::posting_at;
use gd_board::{Bumped, Posting};
use gd_body::BodyFault;
use gd_bounds::bumped;
use gd_schedule::Schedule;
use gd_units::Dth;
use sqlite::{Error, Row};
use std::alloc::{AllocError, Global};

/// What is found of the bumped lines that a posting tells.
#[derive(Clone, Copy, Debug, PartialEq, Eq)]
pub enum Bumps {
    /// They are what its schedule takes from that of the former cycle's posting; in Timely there are none.
    Right,
    /// They are not.
    Wrong,
    /// The archive has no posting of the former cycle that they could be compared with.
    Unchecked,
}

/// What a schedule gives a line, which is nothing where the schedule is older than the line.
fn quantity_at(schedule: &Schedule, line: usize) -> Dth
    ensures { result ≡ quantity schedule.now line }
{
    match schedule.quantities().get(line) {
        Some(quantity) => *quantity,
        None => Dth::ZERO,
    }
}

/// By how much a posting bumps a line of the one before.
fn taken(former: &Posting, posting: &Posting, line: usize) -> Dth
    requires { line < length posting.now.question.asked.lines }
    ensures { result ≡ spec.taken former.now posting.now line }
{
    bumped(
        posting.cycle,
        quantity_at(&former.schedule, line),
        posting.question.ceiling(line),
        quantity_at(&posting.schedule, line),
    )
}

/// The lines that a posting bumps of the one before, in order. The only error is want of memory.
fn taken_lines(alloc: Global, former: &Posting, posting: &Posting) -> Result<Bumped, AllocError>
    ensures { IfOk result (λ lines. lines ≡ spec.taken_lines former.now posting.now) }
{
    posting.question.known();
    let mut lines = Bumped::of(alloc, Vec::new(alloc))?;
    for line in 0..posting.question.line_count() as u32 {
        lines.push(line, taken(former, posting, line as usize))?;
    }
    Ok(lines)
}

/// What is found of the bumped lines of a posting beside the one before. The only error is want of memory.
fn bumps_beside(alloc: Global, former: &Posting, posting: &Posting) -> Result<Bumps, AllocError>
    ensures { IfOk result (spec.HasBumps (Some former.now) posting.now) }
{
    let taken = taken_lines(alloc, former, posting)?;
    let is_right = posting.bumped.same(&taken);
    drop(taken);
    if is_right {
        Ok(Bumps::Right)
    } else {
        Ok(Bumps::Wrong)
    }
}

/// The posting that a row keeps, where it is of the same book as another one and of the cycle before.
///
/// # Errors
///
/// Where the row is none of an archive, or memory is wanting.
fn former_in(alloc: Global, row: &Row, posting: &Posting) -> Result<Option<Posting>, Error>
    ensures { IfOk result (λ former. former ≡ spec.former_of (Some row.now) posting.now) }
{
    let label = Label::of(row)?;
    if label.book != posting.book || label.cycle.number() + 1 != posting.cycle.number() {
        return Ok(None);
    }
    let (round, body) = (row.get_ref(2)?, row.get_ref(3)?);
    match posting_at(alloc, label.book, label.cycle, round, body) {
        Ok(former) => Ok(Some(former)),
        Err(BodyFault::Damaged) => Ok(None),
        Err(BodyFault::OutOfMemory) => Err(NO_MEMORY),
    }
}

/// What is found of the bumped lines of a posting, which stands in an archive behind this row.
///
/// # Errors
///
/// Where the row before is none of an archive, or memory is wanting.
pub(crate) fn bumps_of(
    alloc: Global,
    before: Option<&Row>,
    posting: &Posting,
) -> Result<Bumps, Error>
    ensures { IfOk result (spec.HasBumps
        (spec.compared_with (option_map (λ row. row.now) before.entry) posting.now) posting.now) }
{
    if posting.cycle.number() == 1 {
        return Ok(bumps_beside(alloc, posting, posting)?);
    }
    let Some(row) = before else {
        return Ok(Bumps::Unchecked);
    };
    let Some(former) = former_in(alloc, row, posting)? else {
        return Ok(Bumps::Unchecked);
    };
    let found = bumps_beside(alloc, &former, posting);
    drop(former);
    Ok(found?)
}
