//! Where a text may be cut.

ghost use Rattle.std.specs.Prelude.{◌≡◌, ◌↔◌, [], IsTrue};
ghost use Rattle.csv.specs.Machine as machine;
ghost use Rattle.csv.specs.Reading.{default_config, strip_bom};
ghost use Rattle.csv.specs.declared.parser.State.TheVariants.{StartRecord};
ghost use Rattle.gd_live.specs.TextLines.{IsClosed, left_by};
ghost use Rattle.gd_live.specs.CsvStands.{state_of};

use crate::whole_lines::state_tells_closed;

/// The byte order mark: U+FEFF in UTF-8.
const MARK: [u8; 3] = [0xEF, 0xBB, 0xBF];

/// Where bytes of a text stand among its records, by the rules of csv.
#[derive(Clone, Copy)]
enum Stand {
    RecordBegins,
    FieldBegins,
    WithinField,
    WithinQuotes,
    BehindQuote,
    BehindReturn,
}

/// Behind a byte of a field, or of what ends one.
fn within_field(byte: u8) -> Stand
    ensures { state_of result ≡ (machine.in_field default_config byte).0 }
{
    match byte {
        b',' => Stand::FieldBegins,
        b'\r' => Stand::BehindReturn,
        b'\n' => Stand::RecordBegins,
        _ => Stand::WithinField,
    }
}

/// Behind the first byte of a field.
fn field_begun(byte: u8) -> Stand
    ensures { state_of result ≡ (machine.start_field default_config byte).0 }
{
    if byte == b'"' {
        return Stand::WithinQuotes;
    }
    within_field(byte)
}

/// Behind the first byte of a record: line ends there are none's.
fn record_begun(byte: u8) -> Stand
    ensures { state_of result ≡ (machine.start_record default_config byte).0 }
{
    if byte == b'\r' || byte == b'\n' {
        return Stand::RecordBegins;
    }
    field_begun(byte)
}

impl Stand {
    /// Behind one byte more.
    fn next(self, byte: u8) -> Stand
        ensures { state_of result ≡ (machine.step default_config (state_of self) byte).0 }
    {
        match self {
            Stand::RecordBegins => record_begun(byte),
            Stand::FieldBegins => field_begun(byte),
            Stand::WithinField => within_field(byte),
            Stand::WithinQuotes if byte == b'"' => Stand::BehindQuote,
            Stand::WithinQuotes => Stand::WithinQuotes,
            Stand::BehindQuote if byte == b'"' => Stand::WithinQuotes,
            Stand::BehindQuote => within_field(byte),
            Stand::BehindReturn if byte == b'\n' => Stand::RecordBegins,
            Stand::BehindReturn => record_begun(byte),
        }
    }

    /// Whether a record begins here, whatever comes next.
    fn begins_record(self) -> bool
        ensures { IsTrue result ↔ (state_of self ≡ StartRecord) }
    {
        matches!(self, Stand::RecordBegins)
    }
}

/// Where the bytes of a whole text stand.
fn stand_behind(text: &[u8]) -> Stand
    ensures { state_of result ≡ (left_by StartRecord [] [] text.now).0 }
{
    let mut stand = Stand::RecordBegins;
    'bytes: for byte in text {
        stand = stand.next(*byte);
    }
    stand
}

/// A text without the byte order mark at its start, if it has one.
fn without_mark(text: &[u8]) -> &[u8]
    ensures { result.now ≡ strip_bom text.now }
{
    match text.strip_prefix(&MARK) {
        Some(rest) => rest,
        None => text,
    }
}

/// Whether a record begins behind these bytes, by the rules of csv, a byte order mark at their start left out: lines that are
/// put behind them are then read as lines of their own. So it is of no bytes at all.
pub fn is_closed(text: &[u8]) -> bool
    ensures { IsTrue result ↔ IsClosed (strip_bom text.now) }
{
    state_tells_closed();
    stand_behind(without_mark(text)).begins_record()
}
