//! The text that a row of an answer speaks of, and a row of it.

use crate::records::{Records, line_ends, record_at};
use crate::shown::Place;
use gd_text_part::{Form, Row, TextFault, rows_in};
use std::alloc::{AllocError, Global};

/// A file of a text: its name, and where it begins among the bytes of the text.
#[derive(Clone, Copy)]
pub struct Part<'t> {
    pub name: &'t str,
    pub begin: usize,
}

/// What was read, and where messages about it are made.
#[derive(Clone, Copy)]
pub struct Source<'t> {
    pub alloc: Global,
    /// The words of the command whose text it is, behind `gasday`; nothing where it reads none.
    pub command: &'t str,
    /// By which form it was read; `None` where the command reads no text.
    pub form: Option<Form>,
    /// The bytes, none where they could not be read.
    pub bytes: &'t [u8],
    /// The files that make it up, in order, each with a line end behind it; none where it came from standard input.
    pub parts: &'t [Part<'t>],
}

/// A row of a text by its number from 1, its record, and where it stands. It may be past the last, and has no fields then.
#[derive(Clone, Copy)]
pub(crate) struct Spot<'r, 't> {
    pub(crate) source: Source<'t>,
    pub(crate) number: u64,
    pub(crate) record: &'r Records<'t>,
    pub(crate) place: Place<'t>,
}

impl<'t> Source<'t> {
    /// The rows, or none where the text is faulty. The only error is want of memory.
    pub(crate) fn rows(&self) -> Result<Vec<Row>, AllocError> {
        let Some(form) = self.form else {
            return Ok(Vec::new(self.alloc));
        };
        match rows_in(self.alloc, form, self.bytes) {
            Ok(rows) => Ok(rows),
            Err(TextFault::OutOfMemory) => Err(AllocError),
            Err(_) => Ok(Vec::new(self.alloc)),
        }
    }

    /// The line with this number of the whole text, of the file that has it.
    pub(crate) fn line(&self, number: u64) -> Place<'t> {
        let mut place = Place::Line(number);
        for part in self.parts {
            let before = line_ends(self.bytes.get(..part.begin).unwrap_or(self.bytes));
            if before < number {
                place = Place::LineOf(part.name, number.saturating_sub(before));
            }
        }
        place
    }

    /// Where the row with this number stands.
    pub(crate) fn place(&self, number: u64) -> Result<Place<'t>, AllocError> {
        let record = record_at(self.alloc, self.bytes, number)?;
        let place = self.line(record.line());
        drop(record);
        Ok(place)
    }
}
