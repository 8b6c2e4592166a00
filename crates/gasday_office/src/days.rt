//! What the blocks of an office's text build.

ghost use Rattle.std.specs.Prelude.{◌≡◌, ◌⊎◌, ◌≤◌, ◌-◌, Err, IfOk, length, map, take, drop};
ghost use Rattle.std.specs.List.{IsDistinct, All};
ghost use Rattle.gd_rules.specs.Lines.{same_key};
ghost use Rattle.gd_text.specs.Building.{Builds};
ghost use Rattle.gd_day.specs.Carrying.{keys};
ghost use Rattle.gd_text_part.specs.declared.fault.TextFault.TheVariants.{OutOfMemory};
ghost use Rattle.gasday_office.specs.Blocks.{Block};
ghost use Rattle.gasday_office.specs.Days as spec;

use crate::begins::{begins_next, head_at, headed_by};
use crate::fault::block_fault;
use gd_day::{DayText, day_text_of};
use gd_text_part::{Cause, Row, TextFault};
use gd_units::Name;
use std::alloc::Global;

/// Whether one of these days has a book of this name.
fn is_taken(days: &[DayText], book: Name) -> bool
    ensures { result ≡ spec.is_taken (map spec.opened days.now) book }
{
    'days: for day in days {
        if day.book == book {
            return true;
        }
    }
    false
}

/// Why a block is refused whose book, named by its `day` row of this number, is taken: a refusal of a row up to that one, or
/// `Duplicate` there.
fn repeated(alloc: Global, number: usize, rows: &[Row]) -> TextFault
    requires { number ≤ length rows.now }
    ensures { (result ≡ OutOfMemory) ⊎ (spec.repeated number rows.now ≡ Err result) }
{
    match day_text_of(alloc, &rows[..number]) {
        Ok(day) => {
            drop(day);
            TextFault::at(number as u64, Cause::Duplicate)
        }
        Err(fault) => fault,
    }
}

/// What a block says of its gas day, or its first fault, by its own rows. A book that one of the days before has is
/// `Duplicate` at the `day` row, where no row up to there is refused.
fn own_day(alloc: Global, days: &[DayText], rows: &[Row]) -> Result<DayText, TextFault>
    ensures values { Builds spec.opened result
        (spec.opened_beside (map spec.opened days.now) rows.now) }
    ensures distinct { IfOk result (λ d. IsDistinct same_key (keys d.carry.items)) }
{
    let Some((number, book)) = head_at(rows) else {
        return day_text_of(alloc, rows);
    };
    if is_taken(days, book) {
        return Err(repeated(alloc, number, rows));
    }
    day_text_of(alloc, rows)
}

/// What the block from row `start` to row `end`, counted from 0, says of its gas day beside the days before it.
fn day_at(
    alloc: Global,
    days: &[DayText],
    rows: &[Row],
    start: usize,
    end: usize,
) -> Result<DayText, TextFault>
    requires ordered { start ≤ end }
    requires within { end ≤ length rows.now }
    ensures values { Builds spec.opened result
        (spec.opened_in (length rows.now) (map spec.opened days.now)
        (record { before = start; rows = take (end - start) (drop start rows.now) })) }
    ensures distinct { IfOk result (λ d. IsDistinct same_key (keys d.carry.items)) }
{
    match own_day(alloc, days, &rows[start..end]) {
        Ok(day) => Ok(day),
        Err(fault) => Err(block_fault(rows.len() as u64, start as u64, fault)),
    }
}

/// What each block of an office's text says of its gas day, in order.
///
/// # Errors
///
/// The first of these, block by block: what `day_text_of` refuses of the block, told at its row of the whole text; and
/// `Duplicate` for a book that an earlier block has, at its `day` row, before any fault of a row behind that. `NoSegment`
/// and `Missing` are told at one row past the last of the whole text. Else `OutOfMemory`.
pub fn days_of(alloc: Global, rows: &[Row]) -> Result<Vec<DayText>, TextFault>
    ensures values { Builds (λ days. map spec.opened days.items) result (spec.days_of rows.now) }
    ensures distinct { IfOk result
        (λ days. All (λ d. IsDistinct same_key (keys d.carry.items)) days.items) }
{
    let mut days = Vec::new(alloc);
    let mut start = 0;
    let mut headed = false;
    'rows: for (at, row) in rows.iter().enumerate() {
        if !begins_next(headed, row) {
            headed = headed_by(headed, row);
            continue;
        }
        let day = day_at(alloc, &days, rows, start, at)?;
        days.push(day)?;
        start = at;
        headed = false;
    }
    let day = day_at(alloc, &days, rows, start, rows.len())?;
    days.push(day)?;
    Ok(days)
}
