//! The head of a gas day's text.

ghost use Rattle.std.specs.Prelude.{◌≡◌, Some, None, Option, option_map};
ghost use Rattle.gd_text.specs.Building.{Builds};
ghost use Rattle.gd_day.specs.Heads as spec;

use gd_text_part::{CivilDate, Row, TextFault, ZoneText, missing_head};
use gd_units::Name;
use std::alloc::Global;

/// The date, the zone and the book of the first `day` row, where it names a book.
fn first_head(rows: &[Row]) -> Option<(CivilDate, &ZoneText, Name)>
    ensures { option_map (λ d. (d.0, d.1.now, d.2)) result ≡ spec.first_head rows.now }
{
    'rows: for row in rows {
        if let Row::Day { date, zone, book } = row {
            return match *book {
                Some(book) => Some((*date, zone, book)),
                None => None,
            };
        }
    }
    None
}

/// The head of a gas day's text, with a copy of its zone.
#[derive(Drop)]
pub(crate) struct Head {
    pub date: CivilDate,
    pub zone: ZoneText,
    pub book: Name,
}

/// The head of a text; `Missing` where it has none, at one row past the last.
pub(crate) fn head_of(alloc: Global, rows: &[Row]) -> Result<Head, TextFault>
    ensures { Builds (λ h. (h.date, h.zone, h.book)) result (spec.head_of rows.now) }
{
    let Some((date, zone, book)) = first_head(rows) else {
        return Err(missing_head(rows.len() as u64).into());
    };
    let zone = ZoneText::of(alloc, zone.as_str())?;
    Ok(Head { date, zone, book })
}
