//! The order of rows, and the first fault of a record.

ghost use Rattle.std.specs.Prelude.{◌≡◌, ◌<◌, ◌≤◌, ◌+◌, ◌^◌, MatchResult, Ok, Err, OnOk};
ghost use Rattle.csv.specs.Records.{fields_of};
ghost use Rattle.gd_text_part.specs.Findings.{Finds, at_row, behind};

use crate::blocks::Blocks;
use crate::body::{
    bumped_row, capacity_row, carry_row, contract_row, day_row, inside_row, line_row, point_row,
    pool_row, price_row, question_row, sched_row, segment_row,
};
use crate::event::{desk_row, event_row, session_row};
use crate::fault::{Cause, RowFault, TextFault};
use crate::fields::field;
use crate::kind::{Form, RowKind};
use crate::row::{FIELD_COUNT, OfficeRow, Row};
use crate::waiting::Waiting;
use csv::ByteRecord;
use std::alloc::Global;

/// What the rows so far leave of the order of a text.
#[derive(Clone, Copy)]
pub(crate) struct Place {
    /// The least stage that the next row may have.
    pub(crate) stage: u8,
    /// Whether the head of the text or of the last block, its `question` or `day` row, was there.
    pub(crate) headed: bool,
    /// How many `sched` rows stand directly before.
    pub(crate) scheds: u32,
    /// The rows that wait for the row which takes them.
    pub(crate) waiting: Waiting,
    /// The blocks of an office.
    pub(crate) blocks: Blocks,
}

ghost use Rattle.gd_text_part.specs.Offices as offices;
ghost use Rattle.gd_text_part.specs.Places as spec;

impl Place {
    /// Where a text begins.
    pub(crate) fn start() -> Place
        ensures { result ≡ spec.start }
    {
        Place {
            stage: 0,
            headed: false,
            scheds: 0,
            waiting: Waiting::Nothing,
            blocks: Blocks::none(),
        }
    }

    /// Whether a row of this kind begins a block of an office.
    fn begins(&self, form: Form, kind: RowKind) -> bool
        ensures { result ≡ offices.begins form self.now.stage kind }
    {
        if !matches!(form, Form::Office) {
            return false;
        }
        if self.stage == 0 {
            return kind.is_of_block();
        }
        let behind_head = RowKind::Day.stage() <= self.stage
            && self.stage <= RowKind::Carry.stage();
        matches!(kind, RowKind::Segment) && behind_head
    }
}

fn is_head(kind: RowKind) -> bool
    ensures { result ≡ spec.is_head kind }
{
    matches!(kind, RowKind::Question | RowKind::Day)
}

fn may_stand(form: Form, place: &Place, kind: RowKind) -> bool
    ensures { result ≡ spec.may_stand form place.now kind }
{
    let goes_on = place.stage <= kind.stage() && !(is_head(kind) && place.headed);
    place.begins(form, kind) || (goes_on && !place.waiting.lacks_session(form, kind))
}

/// This row is out of order.
fn misplaced(row: u64) -> RowFault
    ensures { result ≡ spec.misplaced row }
{
    RowFault {
        row,
        cause: Cause::Order,
    }
}

/// Finds that a row of this kind may stand here as row `number`. Rows that it leaves over are told at the first one.
fn stands(form: Form, place: &Place, number: u64, kind: RowKind) -> Result<(), RowFault>
    ensures { result ≡ spec.stands form place.now number kind }
{
    if form.takes(kind) {
        if let Some(began) = place.waiting.left_over(kind) {
            return Err(misplaced(began));
        }
        if may_stand(form, place, kind) {
            return Ok(());
        }
    }
    Err(misplaced(number))
}

/// Takes the place to where the rows stand after row `number`, or tells the limit that it passes. The blocks, which are much
/// to copy, are written only where the row begins one of them or a session.
fn advance(
    form: Form,
    place: &mut Place,
    number: u64,
    kind: RowKind,
    row: &Row,
) -> Result<(), Cause>
    requires { place.old.scheds + 1 < 2 ^ 32 }
    ensures next { MatchResult result
        (λ _. spec.after form place.old number kind row.now ≡ Ok place.new)
        (λ cause. spec.after form place.old number kind row.now ≡ Err cause) }
    ensures scheds { OnOk result (place.new.scheds ≤ place.old.scheds + 1) }
{
    let begins = place.begins(form, kind);
    if begins {
        place.blocks = place.blocks.with_block(place.headed)?;
    } else if let Row::Office(OfficeRow::Session { slot, .. }) = *row {
        place.blocks = place.blocks.with_session(slot)?;
    }
    place.waiting = place.waiting.after(form, number, kind, row)?;
    place.headed = is_head(kind) || (place.headed && !begins);
    place.scheds = if matches!(kind, RowKind::Sched) {
        place.scheds + 1
    } else {
        0
    };
    place.stage = kind.stage_behind();
    Ok(())
}

/// The row of this kind that record `number` is.
fn body(
    alloc: Global,
    form: Form,
    kind: RowKind,
    place: &Place,
    number: u64,
    row: &ByteRecord,
) -> Result<Row, TextFault>
    requires { place.now.scheds + 1 < 2 ^ 32 }
    ensures { Finds result (at_row number (spec.body form kind place.now (fields_of row.now))) }
{
    let read = match kind {
        RowKind::Segment => segment_row(row),
        RowKind::Point => point_row(row),
        RowKind::Pool => pool_row(row),
        RowKind::Contract => contract_row(row),
        RowKind::Question => question_row(row),
        RowKind::Day => return day_row(alloc, form.needs_book(), number, row),
        RowKind::Capacity => capacity_row(row),
        RowKind::Carry => carry_row(row),
        RowKind::Line => line_row(row),
        RowKind::Sched => sched_row(place.scheds + 1, row),
        RowKind::Price => price_row(row),
        RowKind::Inside => inside_row(row),
        RowKind::Session => session_row(place.blocks.begun, row),
        RowKind::Desk => desk_row(row),
        RowKind::Bumped => bumped_row(row),
        _ => event_row(kind, place.waiting.party(), row),
    };
    match read {
        Ok(row) => Ok(row),
        Err(cause) => Err(TextFault::at(number, cause)),
    }
}

/// The kind of a record, or its first fault up to there.
fn kind_at(form: Form, row: &ByteRecord) -> Result<RowKind, Cause>
    ensures { result ≡ spec.kind_at form (fields_of row.now) }
{
    if row.len() != FIELD_COUNT {
        return Err(Cause::FieldCount);
    }
    match form.kind_of(field(row, 1)) {
        Some(kind) => Ok(kind),
        None => Err(Cause::UnknownKind),
    }
}

/// The row that record `number` is, behind which the rows stand then, or the first fault.
pub(crate) fn row_of(
    alloc: Global,
    form: Form,
    place: &mut Place,
    number: u64,
    row: &ByteRecord,
) -> Result<Row, TextFault>
    requires { place.old.scheds + 1 < 2 ^ 32 }
    ensures row { Finds (behind result place.new) (spec.row_of form place.old number (fields_of row.now)) }
    ensures scheds { OnOk result (place.new.scheds ≤ place.old.scheds + 1) }
{
    let kind = match kind_at(form, row) {
        Ok(kind) => kind,
        Err(cause) => return Err(TextFault::at(number, cause)),
    };
    stands(form, place, number, kind)?;
    let row = body(alloc, form, kind, place, number, row)?;
    match advance(form, place, number, kind, &row) {
        Ok(()) => Ok(row),
        Err(cause) => Err(TextFault::at(number, cause)),
    }
}

/// The head of a text of so many rows is missing, which is told at one row past the last.
pub fn missing_head(rows: u64) -> RowFault
    requires { rows + 1 < 2 ^ 64 }
    ensures { result ≡ spec.missing_head rows }
{
    RowFault {
        row: rows + 1,
        cause: Cause::Missing,
    }
}

/// The fault that the end of a text of so many rows shows.
pub(crate) fn at_end(place: &Place, rows: u64) -> Result<(), RowFault>
    requires { rows + 1 < 2 ^ 64 }
    ensures { result ≡ spec.at_end place.now rows }
{
    match place.waiting {
        Waiting::Certificate { began } | Waiting::Cut { began } | Waiting::Phase { began, .. } => {
            Err(misplaced(began))
        }
        Waiting::Nothing if place.headed && !place.blocks.headless => Ok(()),
        Waiting::Nothing => Err(missing_head(rows)),
    }
}
