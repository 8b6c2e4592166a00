//! Rows that come line by line, behind the opening of a gas day.

ghost use Rattle.std.specs.Prelude.{◌≡◌, [], IfOk, option_map};
ghost use Rattle.csv.specs.Records.{fields_of};
ghost use Rattle.gd_text_part.specs.Findings.{Finds};
ghost use Rattle.gd_text_part.specs.Lines as spec;
ghost use Rattle.gd_text_part.specs.Rows.{field};

use crate::blocks::Blocks;
use crate::fault::{Cause, TextFault};
use crate::kind::{Form, RowKind};
use crate::order::{Place, row_of};
use crate::row::{FIELD_COUNT, Row};
use crate::waiting::Waiting;
use csv::ByteRecord;
use std::alloc::{AllocError, Global};
use std::marker::Model;

/// A line without the one carriage return at its end, if it has one. An empty line is no row.
pub fn bare(line: &[u8]) -> &[u8]
    ensures { result.now ≡ spec.bare line.now }
{
    if line.is_empty() || line[line.len() - 1] != b'\r' {
        return line;
    }
    &line[..line.len() - 1]
}

/// Whether a byte ends a line or is a quotation mark.
fn is_mark(byte: u8) -> bool
    ensures { result ≡ spec.is_mark byte }
{
    matches!(byte, b'"' | b'\r' | b'\n')
}

/// The fields of a line, cut at its commas, or `None` where it has a quotation mark, a carriage return or a line feed.
fn fields_in(alloc: Global, line: &[u8]) -> Result<Option<ByteRecord>, AllocError>
    ensures { IfOk result (λ found. option_map fields_of found ≡ spec.fields_in line.now) }
{
    let mut record = ByteRecord::with_capacity(alloc, line.len(), FIELD_COUNT)?;
    let mut begin = 0;
    'bytes: for at in 0..line.len() {
        if is_mark(line[at]) {
            return Ok(None);
        }
        if line[at] == b',' {
            record.push_field(&line[begin..at])?;
            begin = at + 1;
            continue;
        }
    }
    record.push_field(&line[begin..])?;
    Ok(Some(record))
}

/// The first field of a line: its bytes before its first comma, or all where it has none.
fn first_field(line: &[u8]) -> &[u8]
    ensures { result.now ≡ field (spec.cut_at_commas [] line.now) 1 }
{
    'bytes: for end in 0..line.len() {
        if line[end] == b',' {
            return &line[..end];
        }
    }
    line
}

/// Whether the first field of a line, which may have a carriage return at its end, names a kind of rows that stand behind
/// the opening of a gas day: calls, and the rows of their groups. The line may be no row all the same.
pub fn is_of_calls(line: &[u8]) -> bool
    ensures { result ≡ spec.is_of_calls line.now }
{
    match Form::Day.kind_of(first_field(bare(line))) {
        Some(kind) => kind.stage() >= RowKind::Sched.stage(),
        None => false,
    }
}

/// Where the rows of a gas day stand that come line by line: behind its opening, or behind a row of the calls that follow it.
///
/// A contract sees what the rows so far leave of the order.
#[derive(Clone, Copy)]
pub struct LinePlace {
    place: Place,
}

impl Model for LinePlace {
    ghost use Rattle.std.specs.Prelude.{◌<◌, ◌+◌, ◌^◌};
    ghost use Rattle.gd_text_part.specs.declared.order.Place.{Place};

    ghost Value = { Place };

    ghost view = { λ p. p.place };

    ghost invariant = { λ p. p.place.scheds + 1 < 2 ^ 32 };

    ghost inverse = { λ v. record { place = v } };
}

impl LinePlace {
    /// Behind the opening of a gas day, and behind each of its calls. Here a run goes on behind a faulty row too, without
    /// the rows that wait.
    pub fn behind_opening() -> LinePlace
        ensures { result ≡ spec.behind_opening }
    {
        LinePlace {
            place: Place {
                stage: RowKind::Sched.stage(),
                headed: true,
                scheds: 0,
                waiting: Waiting::Nothing,
                blocks: Blocks::none(),
            },
        }
    }

    /// The row that a bare line (`bare`) is as row `number`, and where the rows stand behind it; or its first fault, told at
    /// its own number, or at that of the first row that it leaves over. The only other error is want of memory, which may come
    /// in place of any of them, and comes at the 4,294,967,295th `sched` row of a group.
    ///
    /// Its fields stand between its commas: there are no quoted fields, and a line with a quotation mark, a carriage return or
    /// a line feed has a `FieldCount`. What comes next is as `rows_in` tells it.
    pub fn line_row(
        &self,
        alloc: Global,
        number: u64,
        line: &[u8],
    ) -> Result<(Row, LinePlace), TextFault>
        ensures { Finds result (spec.line_of self.now number line.now) }
    {
        let Some(record) = fields_in(alloc, line)? else {
            return Err(TextFault::at(number, Cause::FieldCount));
        };
        let mut place = self.place;
        let row = row_of(alloc, Form::Day, &mut place, number, &record)?;
        // The next `sched` row must still be counted.
        if place.scheds == u32::MAX {
            return Err(TextFault::OutOfMemory);
        }
        Ok((row, LinePlace { place }))
    }
}
