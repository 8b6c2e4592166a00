//! Where blocks begin, and where their heads stand.

ghost use Rattle.std.specs.Prelude.{◌≡◌, ◌≤◌, ◌||◌, ◌&&◌, IfSome, length};
ghost use Rattle.gasday_office.specs.Blocks as blocks;
ghost use Rattle.gasday_office.specs.Days as spec;

use gd_text_part::{PipelineRow, Row};
use gd_units::Name;

/// Whether a row begins the next block, where a `day` or `carry` row stands in this one or not.
pub(crate) fn begins_next(headed: bool, row: &Row) -> bool
    ensures { result ≡ (headed && blocks.is_segment row.now) }
{
    headed && matches!(row, Row::Pipeline(PipelineRow::Segment { .. }))
}

/// Whether a `day` or `carry` row stands in a block behind one more of its rows.
pub(crate) fn headed_by(headed: bool, row: &Row) -> bool
    ensures { result ≡ (headed || blocks.is_head row.now) }
{
    headed || matches!(row, Row::Day { .. } | Row::Carry { .. })
}

/// The number of the first `day` row, counted from 1, and the name of its book, where it names one.
pub(crate) fn head_at(rows: &[Row]) -> Option<(usize, Name)>
    ensures at { result ≡ spec.head_at 1 rows.now }
    ensures within { IfSome result (λ head. head.0 ≤ length rows.now) }
{
    'rows: for (index, row) in rows.iter().enumerate() {
        if let Row::Day { book, .. } = row {
            return match *book {
                Some(book) => Some((index + 1, book)),
                None => None,
            };
        }
    }
    None
}
