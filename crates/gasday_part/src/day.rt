//! The calendar of a gas day, and what is told of one.

ghost use Rattle.std.specs.Prelude.{◌≡◌, ◌≢◌, pos, IfOk, IfErr};
ghost use Rattle.jiff.specs.Words.{IsYmd};
ghost use Rattle.gd_text.specs.Days.{day_of as day_by};
ghost use Rattle.gasday_part.specs.Answers as spec;
ghost use Rattle.gasday_part.specs.AnswerSeen.{answer_seen};

use crate::answer::{Answer, of_fault, of_one};
use gd_calendar::Calendar;
use gd_replies::{Reply, calendar_replies};
use gd_text::day_of;
use gd_text_part::{CivilDate, Row, ZoneText};
use gd_zone::{CalendarFault, GasDay};
use jiff::civil::Date;
use jiff::tz::TimeZone;
use std::alloc::{AllocError, Global};

/// Why a date has no calendar in a zone.
#[derive(Clone, Copy, Debug, PartialEq, Eq, Drop)]
pub enum DayFault {
    /// The date is none of the gas days that there are.
    OutOfRange,
    /// The zone is no POSIX rule, or it gives the gas day no calendar.
    BadZone,
    /// Memory was refused.
    OutOfMemory,
}

impl From<AllocError> for DayFault {
    fn from(_e: AllocError) -> DayFault
        ensures { result ≡ DayFault.OutOfMemory }
    {
        DayFault::OutOfMemory
    }
}

/// The same day as `jiff`'s zones take it.
fn day_in_zones(date: CivilDate) -> Date
    ensures { IsYmd (pos date.year) (pos date.month) (pos date.day) result }
{
    let day = date.date();
    match Date::new(day.year, day.month as i8, day.day as i8) {
        Ok(date) => date,
        Err(_) => unreachable!(),
    }
}

/// The calendar of the gas day of a date, in the zone that a text gives.
///
/// # Errors
///
/// `OutOfRange` for a date that is no gas day, `BadZone` for a zone that is no POSIX rule or gives the day no calendar, and else
/// `OutOfMemory`.
pub fn calendar_of(alloc: Global, date: CivilDate, zone: &ZoneText) -> Result<Calendar, DayFault>
    ensures ok { IfOk result (λ calendar. spec.IsCalendarIn date zone.now calendar) }
    ensures err { IfErr result (spec.ExplainsDay date zone.now) }
{
    let Ok(day) = GasDay::new(day_in_zones(date)) else {
        return Err(DayFault::OutOfRange);
    };
    let Ok(zone) = TimeZone::posix(zone.as_str()) else {
        return Err(DayFault::BadZone);
    };
    match day.calendar(alloc, &zone) {
        Ok(calendar) => Ok(calendar),
        Err(CalendarFault::BadZone) => Err(DayFault::BadZone),
        Err(CalendarFault::OutOfMemory) => Err(DayFault::OutOfMemory),
    }
}

/// The answer to a date that has no calendar. Want of memory is handed on as such.
pub fn of_no_calendar(alloc: Global, fault: DayFault) -> Result<Answer, AllocError>
    ensures { IfOk result (λ a. (fault ≢ DayFault.OutOfMemory)
        × (answer_seen a ≡ spec.refused (spec.no_calendar fault))) }
{
    match fault {
        DayFault::OutOfRange => of_one(alloc, Reply::OutOfRange, 1),
        DayFault::BadZone => of_one(alloc, Reply::BadZone, 1),
        DayFault::OutOfMemory => Err(AllocError),
    }
}

/// The calendar of the gas day of a date, in the zone that a text gives.
fn tell_date(alloc: Global, date: CivilDate, zone: &ZoneText) -> Result<Answer, AllocError>
    ensures { IfOk result (λ a. spec.TellsDate spec.TellsMoments date zone.now (answer_seen a)) }
{
    match calendar_of(alloc, date, zone) {
        Ok(calendar) => {
            let replies = calendar_replies(alloc, &calendar)?;
            Ok(Answer::whole(replies, 0))
        }
        Err(fault) => of_no_calendar(alloc, fault),
    }
}

/// The calendar of the gas day that the rows ask about.
pub(crate) fn tell_calendar(alloc: Global, rows: &[Row]) -> Result<Answer, AllocError>
    ensures { IfOk result (λ a. spec.TellsCalendar (day_by rows.now) (answer_seen a)) }
{
    match day_of(rows) {
        Ok((date, zone)) => tell_date(alloc, date, zone),
        Err(fault) => of_fault(alloc, fault),
    }
}
