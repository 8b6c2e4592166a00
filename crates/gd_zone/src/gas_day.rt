//! Gas days, by the date on which they start, and the calendar that a zone gives one.

ghost use Rattle.std.specs.Prelude.{◌≡◌, ◌↔◌, MatchResult, Err, IfOk, Some};
ghost use Rattle.jiff.specs.Words.{plain_zone};
ghost use Rattle.gd_zone.specs.Range.{IsGasDay};
ghost use Rattle.gd_zone.specs.Zone.{IsCalendarOf, IsBadZone};
ghost use Rattle.gd_zone.specs.Names.{gas_day_fault_name, calendar_fault_name};
ghost use Rattle.gd_zone.specs.declared.gas_day.CalendarFault.TheVariants.{OutOfMemory};

use crate::clock::moments_of;
use gd_calendar::Calendar;
use jiff::civil::{self, Date};
use jiff::tz::TimeZone;
use std::alloc::{AllocError, Global};
use std::fmt;
use std::marker::Model;

/// Why a date is no gas day. It is printed by its name.
#[derive(Clone, Copy, Debug, PartialEq, Eq)]
pub enum GasDayFault {
    /// The date lies before 2016-04-02 or after 2099-12-31.
    OutOfRange,
}

impl fmt::Display for GasDayFault {
    ghost output = { λ f. Some (gas_day_fault_name f) };

    fn fmt<W: fmt::Write>(&self, f: &mut fmt::Formatter<W>) -> fmt::Result {
        match self {
            GasDayFault::OutOfRange => f.write_str("OutOfRange"),
        }
    }
}

/// Why a zone gives a gas day no calendar. It is printed by its name.
#[derive(Clone, Copy, Debug, PartialEq, Eq, Drop)]
pub enum CalendarFault {
    /// A civil time of the gas day is ambiguous or missing in the zone or lies outside what a `Moment` holds, or the
    /// moments do not rise in the order of the clock, or the Intraday cycles do not take effect 5, 9 and 13 whole hours
    /// after the start of the gas day, or it has not 23, 24 or 25 whole hours.
    BadZone,
    /// Memory was refused.
    OutOfMemory,
}

impl From<AllocError> for CalendarFault {
    ghost from_gives = { λ _ e. e ≡ OutOfMemory };

    fn from(_e: AllocError) -> CalendarFault {
        CalendarFault::OutOfMemory
    }
}

impl fmt::Display for CalendarFault {
    ghost output = { λ f. Some (calendar_fault_name f) };

    fn fmt<W: fmt::Write>(&self, f: &mut fmt::Formatter<W>) -> fmt::Result {
        match self {
            CalendarFault::BadZone => f.write_str("BadZone"),
            CalendarFault::OutOfMemory => f.write_str("OutOfMemory"),
        }
    }
}

/// A gas day, by the date on which it starts: 2016-04-02 to 2099-12-31 (own limit).
///
/// A contract sees the date.
#[derive(Clone, Copy, Debug, PartialEq, Eq)]
pub struct GasDay {
    date: Date,
}

impl Model for GasDay {
    ghost use Rattle.jiff.specs.Types.{Date as Plain};

    ghost Value = { Plain };

    ghost use Rattle.gd_zone.specs.Range.{IsGasDay};

    ghost view = { λ g. g.date };

    ghost invariant = { λ g. IsGasDay g.date };

    ghost inverse = { λ d. record { date = d } };
}

impl GasDay {
    /// The gas day that starts on this date.
    pub fn new(date: Date) -> Result<GasDay, GasDayFault>
        ensures { MatchResult result (λ day. (day ≡ date) × IsGasDay date)
            (λ _. IsGasDay date → ⊥) }
    {
        if date < civil::date(2016, 4, 2) || civil::date(2099, 12, 31) < date {
            return Err(GasDayFault::OutOfRange);
        }
        Ok(GasDay { date })
    }

    /// The date on which it starts.
    pub fn date(self) -> Date
        ensures is { result ≡ self }
        ensures range { IsGasDay result }
    {
        self.date
    }
    /// The calendar that the zone gives the gas day.
    pub fn calendar(self, alloc: Global, zone: &TimeZone<'_>) -> Result<Calendar, CalendarFault>
        ensures ok { IfOk result (IsCalendarOf (plain_zone zone.now) self) }
        ensures bad_zone { (result ≡ Err CalendarFault.BadZone)
            ↔ IsBadZone (plain_zone zone.now) self }
    {
        let Some(moments) = moments_of(self.date(), zone) else {
            return Err(CalendarFault::BadZone);
        };
        if !Calendar::is_of(&moments) {
            return Err(CalendarFault::BadZone);
        }
        Ok(Calendar::of(alloc, &moments)?)
    }
}
