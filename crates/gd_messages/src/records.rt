//! The records of a text as they were written, and the lines of an editor in which they begin.

use csv::{ByteRecord, Error, Reader, ReaderBuilder};
use gd_text_part::MAX_ROWS;
use std::alloc::{AllocError, Global};

/// What may stand at the start of a text, and is no part of its first field.
const BYTE_ORDER_MARK: &[u8] = b"\xef\xbb\xbf";

/// The records of a text in memory, taken one after the other.
#[derive(Drop)]
pub(crate) struct Records<'t> {
    reader: Reader<&'t [u8]>,
    /// The text behind its byte order mark.
    text: &'t [u8],
    current: ByteRecord,
    /// Where the reader stood before the record that was taken last.
    before: u64,
}

/// Whether a byte ends a line.
fn ends_line(byte: u8) -> bool {
    matches!(byte, b'\n' | b'\r')
}

/// How many lines end in these bytes: by LF, CR LF or CR, the last one too.
pub(crate) fn line_ends(bytes: &[u8]) -> u64 {
    let mut count = 0u64;
    let mut after_return = false;
    for byte in bytes {
        if ends_line(*byte) && !(after_return && *byte == b'\n') {
            count = count.saturating_add(1);
        }
        after_return = *byte == b'\r';
    }
    count
}

/// How many bytes at the front end lines: those of blank lines, and of the line before.
fn blanks(bytes: &[u8]) -> usize {
    bytes.iter().take_while(|b| ends_line(**b)).count()
}

/// Of csv's errors only want of memory comes from a text in memory with records of any length.
fn no_memory(_error: Error) -> AllocError {
    AllocError
}

impl<'t> Records<'t> {
    /// All the records of a text.
    pub(crate) fn of(alloc: Global, text: &'t [u8]) -> Records<'t> {
        let text = text.strip_prefix(BYTE_ORDER_MARK).unwrap_or(text);
        let reader = ReaderBuilder::new()
            .has_headers(false)
            .flexible(true)
            .from_reader(alloc, text);
        Records {
            reader,
            text,
            current: ByteRecord::new(alloc),
            before: 0,
        }
    }

    /// Takes the next record, or finds that none is left.
    pub(crate) fn advance(&mut self) -> Result<bool, AllocError> {
        self.before = self.reader.position().byte();
        let found = self
            .reader
            .read_byte_record(&mut self.current)
            .map_err(no_memory)?;
        Ok(found)
    }

    /// How many fields it has.
    pub(crate) fn len(&self) -> usize {
        self.current.len()
    }

    /// Its field `k`, where the kind is field 1. A field past the last is empty.
    pub(crate) fn field(&self, k: usize) -> &[u8] {
        match self.current.get(k.saturating_sub(1)) {
            Some(field) => field,
            None => &[],
        }
    }

    /// The line in which it begins, counted from 1 as an editor does.
    pub(crate) fn line(&self) -> u64 {
        let before = self.before.min(self.text.len() as u64) as usize;
        let (front, rest) = self.text.split_at(before);
        let start = front.len().saturating_add(blanks(rest));
        line_ends(self.text.get(..start).unwrap_or(self.text)).saturating_add(1)
    }
}

/// The records of a text up to the one with this number, which was taken last; where there are fewer, none is left.
pub(crate) fn record_at(
    alloc: Global,
    text: &[u8],
    number: u64,
) -> Result<Records<'_>, AllocError> {
    let mut records = Records::of(alloc, text);
    for _ in 0..number.min(MAX_ROWS) {
        match records.advance() {
            Ok(true) => {}
            Ok(false) => break,
            Err(fault) => {
                drop(records);
                return Err(fault);
            }
        }
    }
    Ok(records)
}

/// The records of a text up to its first `day` row, which was taken last; where there is none, none is left.
pub(crate) fn first_day(alloc: Global, text: &[u8]) -> Result<Records<'_>, AllocError> {
    let mut records = Records::of(alloc, text);
    for _ in 0..MAX_ROWS {
        match records.advance() {
            Ok(true) => {}
            Ok(false) => break,
            Err(fault) => {
                drop(records);
                return Err(fault);
            }
        }
        if records.field(1) == b"day".as_slice() {
            break;
        }
    }
    Ok(records)
}
