//! What is told of the faults of a text, and of gas days without a calendar.

use crate::order::{told_of_limit, told_of_missing, told_of_order};
use crate::records::{Records, first_day, record_at};
use crate::refusal::told_of_refusal;
use crate::shown::Shown;
use crate::text::{Source, Spot};
use crate::written::{told_of_count, told_of_field, told_of_kind};
use gd_replies::Reply;
use gd_system::BuildFault;
use gd_text_part::{Cause, TextFault};
use std::alloc::AllocError;

/// What is told of the fault of a row.
fn told_at(spot: Spot, cause: Cause) -> Result<String, AllocError> {
    match cause {
        Cause::FieldCount => told_of_count(spot),
        Cause::UnknownKind => told_of_kind(spot),
        Cause::Order => told_of_order(spot),
        Cause::BadField(k) => told_of_field(spot, k),
        Cause::Missing => told_of_missing(spot, true),
        Cause::Build(BuildFault::NoSegment) => told_of_missing(spot, false),
        Cause::Limit => told_of_limit(spot),
        Cause::Build(_)
        | Cause::Contract(_)
        | Cause::Capacity(_)
        | Cause::Line(_)
        | Cause::UnknownElement
        | Cause::Duplicate => told_of_refusal(spot, cause),
    }
}

/// What is told of the fault of the row with this number.
fn told_of_row(source: Source<'_>, number: u64, cause: Cause) -> Result<String, AllocError> {
    let record = record_at(source.alloc, source.bytes, number)?;
    let spot = Spot {
        source,
        number,
        record: &record,
        place: source.line(record.line()),
    };
    let told = told_at(spot, cause);
    drop(record);
    told
}

/// What is told of the fault of a text.
pub(crate) fn told_of_fault(source: Source<'_>, fault: TextFault) -> Result<String, AllocError> {
    let words = match fault {
        TextFault::Row { row, cause } => return told_of_row(source, row, cause),
        TextFault::ReadFailed => "the text could not be read to its end",
        TextFault::TooLong => {
            "the text is too long: at most 268435456 bytes, 1100000 rows and 4194304 reads are taken"
        }
        TextFault::OutOfMemory => "memory ran out; behind the rows so far nothing is told",
    };
    String::from_str(source.alloc, words)
}

/// Why the gas day of this row has no calendar: its date, or its zone.
fn told_of_day(source: Source, day: &Records<'_>, reply: &Reply) -> Result<String, AllocError> {
    let place = source.line(day.line());
    if matches!(reply, Reply::OutOfRange) {
        let date = Shown(day.field(2));
        return format!(in source.alloc;
            "{place}: the date is {date}; gas days are those from 2016-04-02 to 2099-12-31"
        );
    }
    let zone = Shown(day.field(3));
    format!(in source.alloc;
        "{place}: the zone {zone} gives the gas day no calendar; a POSIX rule is wanted, as CST6 or \"CST6CDT,M3.2.0,M11.1.0\", whose clock shows each time of the gas day's cycles once"
    )
}

/// Why a gas day has no calendar.
pub(crate) fn told_of_no_calendar(source: Source, reply: &Reply) -> Result<String, AllocError> {
    let day = first_day(source.alloc, source.bytes)?;
    let told = told_of_day(source, &day, reply);
    drop(day);
    told
}
