//! Texts as rows.

ghost use Rattle.std.specs.Prelude.{◌≤◌, length, IfSome};
ghost use Rattle.gd_text_part.specs.Texts.{Reads, Tells};

use crate::fault::TextFault;
use crate::input::{MAX_BYTES, read_bytes};
use crate::kind::Form;
use crate::order::{Place, at_end, row_of};
use crate::records::{MAX_ROWS, Records};
use crate::row::Row;
use std::alloc::Global;
use std::io::Read;

/// The fewest bytes of a row: a kind of four letters, seven commas and a line's end.
const SHORTEST_ROW: usize = 12;

/// The rows of a text that has no more bytes than it may have. Room for all the rows that there may be is taken at once, so
/// that no growth copies them. Behind a faulty row records are only counted.
fn rows_of(alloc: Global, form: Form, text: &[u8]) -> Result<Vec<Row>, TextFault>
    requires { length text.now ≤ MAX_BYTES }
    ensures { Tells (λ v. v.items) form text.now result }
{
    let room = (text.len() / SHORTEST_ROW + 1).min(MAX_ROWS as usize);
    let mut rows = Vec::with_capacity(alloc, room)?;
    let mut records = Records::of(alloc, text);
    let mut place = Place::start();
    'rows: while records.advance()? {
        match row_of(alloc, form, &mut place, records.taken, &records.current) {
            Ok(row) => rows.push(row)?,
            Err(fault) => {
                records.skip_rest()?;
                return Err(fault);
            }
        }
    }
    at_end(&place, records.taken)?;
    Ok(rows)
}

/// The rows of a text in memory, or its first fault: `TooLong`, or a row's. The only other error is want of memory, which may
/// come in place of any of them.
///
/// Rows are records of csv with no header row, counted from 1; empty lines are no records, and a byte order mark at the start
/// is dropped. `TooLong` comes before a row's fault.
pub fn rows_in(alloc: Global, form: Form, text: &[u8]) -> Result<Vec<Row>, TextFault>
    ensures { Tells (λ v. v.items) form text.now result }
{
    if text.len() > MAX_BYTES {
        return Err(TextFault::TooLong);
    }
    rows_of(alloc, form, text)
}

/// The rows of all that a reader has left, or the first fault of that text.
///
/// `ReadFailed` comes before `TooLong`, which comes for a text that takes too many reads too; the rest is as `rows_in` tells
/// it. At `ReadFailed` and `TooLong` some of the bytes were read, and which is left open.
pub fn read_all<R: Read>(alloc: Global, form: Form, reader: &mut R) -> Result<Vec<Row>, TextFault>
    ensures { IfSome (R.remaining reader.old) (λ text. Reads (λ v. v.items) form text result) }
{
    let text = read_bytes(alloc, reader)?;
    rows_of(alloc, form, text.as_slice())
}
