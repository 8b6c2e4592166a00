//! What the fields of each kind of row are, from the second on.

ghost use Rattle.std.specs.Prelude.{◌≡◌, ◌<◌, MatchResult, Ok, Err};
ghost use Rattle.csv.specs.Records.{fields_of};
ghost use Rattle.gd_text_part.specs.declared.row.Row.TheVariants as rows;
ghost use Rattle.gd_text_part.specs.Findings.{Finds, at_row};
ghost use Rattle.gd_text_part.specs.Rows as spec;

use crate::date::CivilDate;
use crate::fault::{Cause, TextFault};
use crate::fields::{
    band_at, class_at, cycle_at, date_at, empty_from, is_firm_at, key_at, line_at, member_at,
    name_at, name_or_none_at, number_at, point_kind_at, quantity_at, round_at, signed_at,
    signed_or_zero_at, text_at,
};
use crate::row::{PipelineRow, QuestionRow, Row};
use crate::zone::ZoneText;
use csv::ByteRecord;
use gd_contracts::{Contract, Service};
use gd_units::Name;
use std::alloc::Global;

/// The greatest number that may stand for a class of a line. Whether it is a class is found with the line.
const MAX_WRITTEN_CLASS: u64 = 255;

#[tactic(auto, unfolding(crate::specs::Rows::segment_row))]
pub(crate) fn segment_row(row: &ByteRecord) -> Result<Row, Cause>
    ensures { result ≡ spec.segment_row (fields_of row.now) }
{
    let name = name_at(row, 2)?;
    let from = name_at(row, 3)?;
    let to = name_at(row, 4)?;
    let capacity = quantity_at(row, 5)?;
    empty_from(row, 6)?;
    Ok(Row::Pipeline(PipelineRow::Segment {
        name,
        from,
        to,
        capacity,
    }))
}

#[tactic(auto, unfolding(crate::specs::Rows::point_row))]
pub(crate) fn point_row(row: &ByteRecord) -> Result<Row, Cause>
    ensures { result ≡ spec.point_row (fields_of row.now) }
{
    let name = name_at(row, 2)?;
    let kind = point_kind_at(row, 3)?;
    let place = name_at(row, 4)?;
    let operator = name_at(row, 5)?;
    let capacity = quantity_at(row, 6)?;
    empty_from(row, 7)?;
    Ok(Row::Pipeline(PipelineRow::Point {
        name,
        kind,
        place,
        operator,
        capacity,
    }))
}

#[tactic(auto, unfolding(crate::specs::Rows::pool_row))]
pub(crate) fn pool_row(row: &ByteRecord) -> Result<Row, Cause>
    ensures { result ≡ spec.pool_row (fields_of row.now) }
{
    let name = name_at(row, 2)?;
    let place = name_at(row, 3)?;
    let operator = name_at(row, 4)?;
    empty_from(row, 5)?;
    Ok(Row::Pipeline(PipelineRow::Pool {
        name,
        place,
        operator,
    }))
}

/// Firm service between two ends, or interruptible service at a band.
#[tactic(auto, unfolding(crate::specs::Rows::service_of))]
fn service_of(firm: bool, row: &ByteRecord) -> Result<Service, Cause>
    ensures { result ≡ spec.service_of firm (fields_of row.now) }
{
    if firm {
        let origin = name_at(row, 6)?;
        let dest = name_at(row, 7)?;
        empty_from(row, 8)?;
        Ok(Service::Firm { origin, dest })
    } else {
        let band = band_at(row, 6)?;
        empty_from(row, 7)?;
        Ok(Service::Interruptible { band })
    }
}

#[tactic(auto, unfolding(crate::specs::Rows::contract_row))]
pub(crate) fn contract_row(row: &ByteRecord) -> Result<Row, Cause>
    ensures { result ≡ spec.contract_row (fields_of row.now) }
{
    let name = name_at(row, 2)?;
    let shipper = name_at(row, 3)?;
    let firm = is_firm_at(row, 4)?;
    let quantity = quantity_at(row, 5)?;
    let service = service_of(firm, row)?;
    Ok(Row::Contract(Contract {
        name,
        shipper,
        quantity,
        service,
    }))
}

#[tactic(auto, unfolding(crate::specs::Rows::carry_row))]
pub(crate) fn carry_row(row: &ByteRecord) -> Result<Row, Cause>
    ensures { result ≡ spec.carry_row (fields_of row.now) }
{
    let key = key_at(row, 2)?;
    let quantity = quantity_at(row, 6)?;
    empty_from(row, 7)?;
    Ok(Row::Carry { key, quantity })
}

#[tactic(auto, unfolding(crate::specs::Rows::question_row))]
pub(crate) fn question_row(row: &ByteRecord) -> Result<Row, Cause>
    ensures { result ≡ spec.question_row (fields_of row.now) }
{
    let book = name_at(row, 2)?;
    let cycle = cycle_at(row, 3)?;
    let round = round_at(row, 4)?;
    empty_from(row, 5)?;
    Ok(Row::Question(QuestionRow::Head { book, cycle, round }))
}

#[tactic(auto, unfolding(crate::specs::Rows::capacity_row))]
pub(crate) fn capacity_row(row: &ByteRecord) -> Result<Row, Cause>
    ensures { result ≡ spec.capacity_row (fields_of row.now) }
{
    let element = name_at(row, 2)?;
    let capacity = quantity_at(row, 3)?;
    empty_from(row, 4)?;
    Ok(Row::Question(QuestionRow::Capacity { element, capacity }))
}

#[tactic(auto, unfolding(crate::specs::Rows::line_row))]
pub(crate) fn line_row(row: &ByteRecord) -> Result<Row, Cause>
    ensures { result ≡ spec.line_row (fields_of row.now) }
{
    let origin = name_at(row, 2)?;
    let dest = name_at(row, 3)?;
    let class = number_at(row, 4, 0, MAX_WRITTEN_CLASS)?;
    let floor = quantity_at(row, 5)?;
    let ceiling = quantity_at(row, 6)?;
    empty_from(row, 7)?;
    Ok(Row::Question(QuestionRow::Line {
        origin,
        dest,
        class: class as u8,
        floor,
        ceiling,
    }))
}

/// A `sched` row of the line that comes next.
#[tactic(auto, unfolding(crate::specs::Rows::sched_row))]
pub(crate) fn sched_row(next: u32, row: &ByteRecord) -> Result<Row, Cause>
    ensures { result ≡ spec.sched_row next (fields_of row.now) }
{
    number_at(row, 2, u64::from(next), u64::from(next))?;
    let quantity = quantity_at(row, 3)?;
    empty_from(row, 4)?;
    Ok(Row::Sched {
        line: next,
        quantity,
    })
}

/// The book of a gas day, which may be left out where it isn't needed.
fn book_at(needed: bool, row: &ByteRecord, k: usize) -> Result<Option<Name>, Cause>
    requires { 0 < k }
    ensures { result ≡ spec.book_at needed (fields_of row.now) k }
{
    if needed {
        Ok(Some(name_at(row, k)?))
    } else {
        name_or_none_at(row, k)
    }
}

/// The fields of a `day` row, with the zone's text as it stands in the record.
#[tactic(auto, unfolding(crate::specs::Rows::day_row))]
fn day_fields(needed: bool, row: &ByteRecord) -> Result<(CivilDate, &str, Option<Name>), Cause>
    ensures { MatchResult result (λ d. spec.day_row needed (fields_of row.now)
        ≡ Ok (rows.Day d.0 d.1.now d.2))
        (λ c. spec.day_row needed (fields_of row.now) ≡ Err c) }
{
    let date = date_at(row, 2)?;
    let zone = text_at(row, 3)?;
    let book = book_at(needed, row, 4)?;
    empty_from(row, 5)?;
    Ok((date, zone, book))
}

/// Record `number` as a `day` row, which names a book where one is needed.
pub(crate) fn day_row(
    alloc: Global,
    needed: bool,
    number: u64,
    row: &ByteRecord,
) -> Result<Row, TextFault>
    ensures { Finds result (at_row number (spec.day_row needed (fields_of row.now))) }
{
    match day_fields(needed, row) {
        Ok((date, zone, book)) => {
            let zone = ZoneText::of(alloc, zone)?;
            Ok(Row::Day { date, zone, book })
        }
        Err(cause) => Err(TextFault::at(number, cause)),
    }
}

#[tactic(auto, unfolding(crate::specs::Rows::price_row))]
pub(crate) fn price_row(row: &ByteRecord) -> Result<Row, Cause>
    ensures { result ≡ spec.price_row (fields_of row.now) }
{
    let element = name_at(row, 2)?;
    let class = class_at(row, 3)?;
    let word = signed_at(row, 4)?;
    let spread = signed_or_zero_at(row, 5)?;
    empty_from(row, 6)?;
    Ok(Row::Price {
        element,
        class,
        word,
        spread,
    })
}

#[tactic(auto, unfolding(crate::specs::Rows::inside_row))]
pub(crate) fn inside_row(row: &ByteRecord) -> Result<Row, Cause>
    ensures { result ≡ spec.inside_row (fields_of row.now) }
{
    let member = member_at(row, 2)?;
    let name = name_at(row, 3)?;
    empty_from(row, 4)?;
    Ok(Row::Inside { member, name })
}

#[tactic(auto, unfolding(crate::specs::Rows::bumped_row))]
pub(crate) fn bumped_row(row: &ByteRecord) -> Result<Row, Cause>
    ensures { result ≡ spec.bumped_row (fields_of row.now) }
{
    let line = line_at(row, 2)?;
    let quantity = quantity_at(row, 3)?;
    empty_from(row, 4)?;
    Ok(Row::Bumped { line, quantity })
}
