//! The records of a text in memory, by the rules of csv.

ghost use Rattle.std.specs.Prelude.{◌≡◌, ◌≤◌, ◌<◌, ◌+◌, length, IfOk, IfErr, OnOk};
ghost use Rattle.gd_text_part.specs.Csv.{IsReading, Takes, records_left, records_of};
ghost use Rattle.gd_text_part.specs.Texts.{BlamesLength};

use crate::fault::TextFault;
use csv::{ByteRecord, ErrorKind, Reader, ReaderBuilder};
use std::alloc::Global;

/// The most rows that a text may have (own).
pub const MAX_ROWS: u64 = 1_100_000;

/// The records of a text in memory, taken one after the other.
#[derive(Drop)]
pub(crate) struct Records<'t> {
    pub(crate) reader: Reader<&'t [u8]>,
    /// The record taken last.
    pub(crate) current: ByteRecord,
    /// How many were taken.
    pub(crate) taken: u64,
}

impl<'t> Records<'t> {
    /// All the records of a text.
    pub(crate) fn of(alloc: Global, text: &'t [u8]) -> Records<'t>
        ensures reading { IsReading result }
        ensures all { records_left result ≡ records_of text.now }
        ensures taken { result.taken ≡ 0 }
    {
        let reader = ReaderBuilder::new()
            .has_headers(false)
            .flexible(true)
            .from_reader(alloc, text);
        Records {
            reader,
            current: ByteRecord::new(alloc),
            taken: 0,
        }
    }

    /// Takes the next record, or finds that none is left.
    pub(crate) fn advance(&mut self) -> Result<bool, TextFault>
        requires { IsReading self.old }
        ensures takes { IfOk result (λ found. Takes self.old self.new found) }
        ensures fault { IfErr result (BlamesLength (MAX_ROWS < self.old.taken
            + length (records_left self.old))) }
    {
        match self.reader.read_byte_record(&mut self.current) {
            Ok(true) if self.taken == MAX_ROWS => Err(TextFault::TooLong),
            Ok(true) => {
                self.taken += 1;
                Ok(true)
            }
            Ok(false) => Ok(false),
            /// A text in memory gives no `Io`, though csv's contract doesn't say so.
            Err(e) => match e.kind() {
                ErrorKind::Io(_) | ErrorKind::OutOfMemory => Err(TextFault::OutOfMemory),
                _ => unreachable!(),
            },
        }
    }

    /// Takes all the records that are left.
    pub(crate) fn skip_rest(&mut self) -> Result<(), TextFault>
        requires { IsReading self.old }
        ensures few { OnOk result (self.old.taken + length (records_left self.old) ≤ MAX_ROWS) }
        ensures fault { IfErr result (BlamesLength (MAX_ROWS < self.old.taken
            + length (records_left self.old))) }
    {
        'rest: loop {
            if !self.advance()? {
                return Ok(());
            }
        }
    }
}
