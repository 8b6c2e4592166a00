//! Civil dates as texts spell them.

ghost use Rattle.std.specs.Prelude.{◌≡◌, pos};
ghost use Rattle.jiff_core.specs.Date.{IsYmd};
ghost use Rattle.gd_text_part.specs.Dates as spec;

use jiff_core::civil::Date;
use std::marker::Model;

/// A day of the civil calendar, from 0000-01-01 to 9999-12-31.
///
/// A contract sees its year, month and day.
#[derive(Clone, Copy)]
pub struct CivilDate {
    year: u16,
    month: u8,
    day: u8,
}

impl Model for CivilDate {
    ghost use Rattle.std.specs.Prelude.{pos};
    ghost use Rattle.jiff_core.specs.Calendar.{IsDate};
    ghost use Rattle.gd_text_part.specs.Dates.{YearMonthDay};

    ghost Value = { YearMonthDay };

    ghost view = { λ d. record { year = d.year; month = d.month; day = d.day } };

    ghost invariant = { λ d. IsDate (pos d.year) (pos d.month) (pos d.day) };

    ghost inverse = { λ v. record { year = v.year; month = v.month; day = v.day } };
}

impl CivilDate {
    /// The date of these numbers, or `None` where the calendar has none.
    pub fn new(year: u64, month: u64, day: u64) -> Option<CivilDate>
        ensures { result ≡ spec.civil_date year month day }
    {
        if year > 9999 || month > 12 || day > 31 {
            return None;
        }
        match Date::new(year as i16, month as i8, day as i8) {
            Ok(_) => Some(CivilDate {
                year: year as u16,
                month: month as u8,
                day: day as u8,
            }),
            Err(_) => None,
        }
    }

    /// The same day as the calendar of `jiff_core` has it.
    pub fn date(self) -> Date
        ensures { IsYmd (pos self.year) (pos self.month) (pos self.day) result }
    {
        match Date::new(self.year as i16, self.month as i8, self.day as i8) {
            Ok(date) => date,
            Err(_) => unreachable!(),
        }
    }
}
