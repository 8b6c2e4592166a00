//! The gas day that a text asks about.

ghost use Rattle.std.specs.Prelude.{◌≡◌, Some, None, Option, Ok, Err, option_map, MatchResult};
ghost use Rattle.gd_text.specs.Days as spec;

use gd_text_part::{CivilDate, Row, TextFault, ZoneText, missing_head};

/// The date and the zone of the first `day` row.
fn first_day(rows: &[Row]) -> Option<(CivilDate, &ZoneText)>
    ensures { option_map (λ d. (d.0, d.1.now)) result ≡ spec.first_day rows.now }
{
    'rows: for row in rows {
        if let Row::Day { date, zone, .. } = row {
            return Some((*date, zone));
        }
    }
    None
}

/// The date and the zone of a text's gas day; `Missing` where it has none, at one row past the last.
pub fn day_of(rows: &[Row]) -> Result<(CivilDate, &ZoneText), TextFault>
    ensures { MatchResult result (λ d. spec.day_of rows.now
        ≡ Ok (d.0, d.1.now)) (λ e. spec.day_of rows.now ≡ Err e) }
{
    match first_day(rows) {
        Some(day) => Ok(day),
        None => Err(missing_head(rows.len() as u64).into()),
    }
}
