//! The clock of a time zone: the moments of civil times.

ghost use Rattle.std.specs.Prelude.{ℕ, List, pos, MatchOption};
ghost use Rattle.jiff.specs.Words.{plain_zone, IsHms};
ghost use Rattle.gd_zone.specs.Zone.{IsBeside, IsCivil, IsMomentOf, AreMoments};
ghost use Rattle.gd_rules.specs.GasDay.{civil_times};
ghost use Rattle.gd_zone.specs.Clock.{day_of, time_of};

use Day::{After, Before, Same};
use gd_units::Moment;
use jiff::civil::{Date, DateTime, Time};
use jiff::tz::TimeZone;

/// The gas day and the days beside it.
#[derive(Clone, Copy, Debug, PartialEq, Eq)]
pub(crate) enum Day {
    Before,
    Same,
    After,
}

/// An hour and a minute that the clock shows on one of these days.
#[derive(Clone, Copy, Debug, PartialEq, Eq)]
pub(crate) struct CivilTime(Day, u8, u8);

/// The times of the cycles and the end of the gas day, in order of the clock (NAESB WGQ 1.3.1 and 1.3.2).
pub(crate) const CIVIL_TIMES: [CivilTime; 29] = [
    CivilTime(Before, 13, 0),
    CivilTime(Before, 13, 15),
    CivilTime(Before, 13, 30),
    CivilTime(Before, 16, 30),
    CivilTime(Before, 17, 0),
    CivilTime(Before, 18, 0),
    CivilTime(Before, 18, 15),
    CivilTime(Before, 18, 30),
    CivilTime(Before, 20, 30),
    CivilTime(Before, 21, 0),
    CivilTime(Same, 9, 0),
    CivilTime(Same, 10, 0),
    CivilTime(Same, 10, 15),
    CivilTime(Same, 10, 30),
    CivilTime(Same, 12, 30),
    CivilTime(Same, 13, 0),
    CivilTime(Same, 14, 0),
    CivilTime(Same, 14, 30),
    CivilTime(Same, 14, 45),
    CivilTime(Same, 15, 0),
    CivilTime(Same, 17, 0),
    CivilTime(Same, 17, 30),
    CivilTime(Same, 18, 0),
    CivilTime(Same, 19, 0),
    CivilTime(Same, 19, 15),
    CivilTime(Same, 19, 30),
    CivilTime(Same, 21, 30),
    CivilTime(Same, 22, 0),
    CivilTime(After, 9, 0),
];

/// The moment at which the zone's clock shows this, where it does so exactly once.
fn moment_at(zone: &TimeZone<'_>, civil: DateTime) -> Option<Moment>
    ensures { MatchOption result ((m : ℕ) → IsMomentOf (plain_zone zone.now) civil m → ⊥)
        (IsMomentOf (plain_zone zone.now) civil) }
{
    match zone.to_ambiguous_timestamp(civil).unambiguous() {
        Ok(instant) => Moment::new(instant.as_second()),
        Err(_) => None,
    }
}

/// The time of day with this hour and minute.
fn time_at(hour: u8, minute: u8) -> Option<Time>
    ensures { MatchOption result
        ((time : Time) → IsHms (pos hour) (pos minute) (pos 0) (pos 0) time → ⊥)
        (IsHms (pos hour) (pos minute) (pos 0) (pos 0)) }
{
    let hour = i8::try_from(hour).ok()?;
    let minute = i8::try_from(minute).ok()?;
    Time::new(hour, minute, 0, 0).ok()
}

/// The date, or the one beside it.
fn date_at(date: Date, day: Day) -> Option<Date>
    ensures { MatchOption result ((other : Date) → IsBeside date (day_of day) other → ⊥)
        (IsBeside date (day_of day)) }
{
    match day {
        Before => date.yesterday().ok(),
        Same => Some(date),
        After => date.tomorrow().ok(),
    }
}

/// The date and time of the clock.
fn civil_at(date: Date, at: CivilTime) -> Option<DateTime>
    ensures { MatchOption result ((civil : DateTime) → IsCivil date (time_of at) civil → ⊥)
        (IsCivil date (time_of at)) }
{
    let CivilTime(day, hour, minute) = at;
    let time = time_at(hour, minute)?;
    let date = date_at(date, day)?;
    Some(date.to_datetime(time))
}

/// The moments of the civil times of a gas day, where each of them is there exactly once.
pub(crate) fn moments_of(date: Date, zone: &TimeZone<'_>) -> Option<[Moment; 29]>
    ensures { MatchOption result
        ((moments : List ℕ) → AreMoments (plain_zone zone.now) date civil_times moments → ⊥)
        (AreMoments (plain_zone zone.now) date civil_times) }
{
    let Some(first) = Moment::new(0) else {
        unreachable!();
    };
    let mut moments = [first; 29];
    'times: for i in 0..29 {
        let Some(civil) = civil_at(date, CIVIL_TIMES[i]) else {
            return None;
        };
        let Some(moment) = moment_at(zone, civil) else {
            return None;
        };
        moments[i] = moment;
    }
    Some(moments)
}
