//! From the bytes of a reader to the bytes of a writer, with readers and writers that do little or fail.

use gasday_part::{answer_of, of_fault, write_answer};
use gasday_words::Command;
use gd_text_part::read_bytes;
use std::alloc::{AllocError, Global};
use std::io;
use std::io::{Read, Write};
use std::test::Fail;
use std::thread::Threads;

/// Two lines over a segment of 100, which the schedule fills.
const TEXT: &[u8] = b"segment,S1,A,B,100,,,
point,R1,receipt,A,OPR,1000,,
point,D1,delivery,B,OPD,1000,,
question,DEMO,1,1,,,,
line,R1,D1,1,0,80,,
line,R1,D1,4,0,50,,
sched,1,80,,,,,
sched,2,20,,,,,
";

const ANSWER: &[u8] = b"allowed,,,,,,,
total,1,80,,,,,
total,2,0,,,,,
total,3,0,,,,,
total,4,20,,,,,
";

/// The answer to the first four rows, which ask about no lines.
const ANSWER_TO_NO_LINES: &[u8] = b"allowed,,,,,,,
total,1,0,,,,,
total,2,0,,,,,
total,3,0,,,,,
total,4,0,,,,,
";

const NO_SHAPE: &[u8] = b"broken,Shape,,,,,,\n";

const NO_READ: &[u8] = b"fault,0,ReadFailed,,,,,\n";

/// The text with 21 on the second line, one more than the segment carries.
fn text_over_capacity(alloc: Global) -> Result<Vec<u8>, AllocError> {
    let mut text = Vec::new(alloc);
    for byte in TEXT {
        text.push(*byte)?;
    }
    for _ in 0..b"20,,,,,\n".len() {
        text.pop();
    }
    text.extend_from_slice(b"21,,,,,\n")?;
    Ok(text)
}

/// Gives at most `width` bytes a read, fails at the read with the number `failing`, and counts its reads.
#[derive(Drop)]
struct SlowReader<'t> {
    left: &'t [u8],
    width: usize,
    failing: usize,
    reads: usize,
}

fn reader_of(text: &[u8], width: usize, failing: usize) -> SlowReader<'_> {
    SlowReader {
        left: text,
        width,
        failing,
        reads: 0,
    }
}

impl<'t> Read for SlowReader<'t> {
    fn read(&mut self, buf: &mut [u8]) -> io::Result<usize> {
        self.reads = self.reads.saturating_add(1);
        if self.reads == self.failing {
            return Err(io::Error::from(io::ErrorKind::Interrupted));
        }
        let taken = self.width.min(buf.len()).min(self.left.len());
        let (given, rest) = self.left.split_at(taken);
        buf[..taken].copy_from_slice(given);
        self.left = rest;
        Ok(taken)
    }
}

/// Takes at most `width` bytes a write. The write with the number `failing` fails, or takes none.
#[derive(Drop)]
struct SlowWriter {
    got: Vec<u8>,
    width: usize,
    failing: usize,
    takes_none: bool,
    writes: usize,
}

fn writer_of(
    alloc: Global,
    width: usize,
    failing: usize,
    takes_none: bool,
) -> Result<SlowWriter, AllocError> {
    Ok(SlowWriter {
        got: Vec::with_capacity(alloc, ANSWER.len())?,
        width,
        failing,
        takes_none,
        writes: 0,
    })
}

impl Write for SlowWriter {
    fn write(&mut self, buf: &[u8]) -> io::Result<usize> {
        self.writes = self.writes.saturating_add(1);
        if self.writes == self.failing {
            if self.takes_none {
                return Ok(0);
            }
            return Err(io::Error::from(io::ErrorKind::BrokenPipe));
        }
        let taken = self.width.min(buf.len());
        if self.got.extend_from_slice(&buf[..taken]).is_err() {
            return Err(io::Error::from(io::ErrorKind::OutOfMemory));
        }
        Ok(taken)
    }

    fn flush(&mut self) -> io::Result<()> {
        Ok(())
    }
}

/// Reads a text, and writes what `check allowed` answers to it. The status.
fn run<R: Read, W: Write>(
    rt: &(impl Threads + Sync),
    alloc: Global,
    reader: &mut R,
    writer: &mut W,
) -> u8 {
    let answer = match read_bytes(alloc, reader) {
        Ok(text) => answer_of(rt, alloc, Command::CheckAllowed, text.as_slice()),
        Err(fault) => of_fault(alloc, fault),
    };
    write_answer(alloc, writer, &answer)
}

/// The status and the answer to what a reader gives.
fn told_of(
    rt: &(impl Threads + Sync),
    alloc: Global,
    mut reader: SlowReader<'_>,
) -> Result<(u8, Vec<u8>), AllocError> {
    let mut answer = Vec::new(alloc);
    let status = run(rt, alloc, &mut reader, &mut answer);
    if answer.ends_with(b"fault,0,OutOfMemory,,,,,\n") {
        return Err(AllocError);
    }
    Ok((status, answer))
}

#[test]
fn answers_at_any_pace(rt: HostRuntime) -> Result<(), Fail> {
    let alloc = rt.alloc();
    let over = text_over_capacity(alloc)?;
    for width in [1, 2, 7, 8192] {
        let (status, answer) = told_of(&rt, alloc, reader_of(TEXT, width, 0))?;
        assert_eq!(rt; answer.as_slice(), ANSWER);
        assert_eq!(rt; status, 0);
        let (status, answer) = told_of(&rt, alloc, reader_of(over.as_slice(), width, 0))?;
        assert_eq!(rt;
            answer.as_slice(),
            b"broken,OverCapacity,S1,,,,,\n".as_slice()
        );
        assert_eq!(rt; status, 1);
    }
    Ok(())
}

/// A text of n bytes, one a read, takes n + 1 reads.
#[test]
fn a_read_of_any_number_fails(rt: HostRuntime) -> Result<(), Fail> {
    let reads = TEXT.len() + 1;
    for failing in 1..reads + 2 {
        let (status, answer) = told_of(&rt, rt.alloc(), reader_of(TEXT, 1, failing))?;
        if failing <= reads {
            assert_eq!(rt; answer.as_slice(), NO_READ);
            assert_eq!(rt; status, 2);
        } else {
            assert_eq!(rt; answer.as_slice(), ANSWER);
            assert_eq!(rt; status, 0);
        }
    }
    Ok(())
}

/// An answer of n bytes, one a write, takes n writes. A write that fails or takes none is the last.
#[test]
fn a_write_of_any_number_fails(rt: HostRuntime) -> Result<(), Fail> {
    let writes = ANSWER.len();
    for takes_none in [false, true] {
        for failing in 0..writes + 2 {
            let mut reader = TEXT;
            let mut writer = writer_of(rt.alloc(), 1, failing, takes_none)?;
            let status = run(&rt, rt.alloc(), &mut reader, &mut writer);
            if 0 < failing && failing <= writes {
                assert_eq!(rt; status, 2);
                assert_eq!(rt; writer.got.as_slice(), &ANSWER[..failing - 1]);
                assert_eq!(rt; writer.writes, failing);
            } else {
                assert_eq!(rt; status, 0);
                assert_eq!(rt; writer.got.as_slice(), ANSWER);
            }
        }
    }
    Ok(())
}

/// A writer that takes all it is offered is offered an answer of few rows at once.
#[test]
fn the_write_of_all_rows_fails(rt: HostRuntime) -> Result<(), Fail> {
    for takes_none in [false, true] {
        for failing in 0..3 {
            let mut reader = TEXT;
            let mut writer = writer_of(rt.alloc(), 8192, failing, takes_none)?;
            let status = run(&rt, rt.alloc(), &mut reader, &mut writer);
            assert_eq!(rt; writer.writes, 1);
            if failing == 1 {
                assert_eq!(rt; status, 2);
                assert!(rt; writer.got.is_empty());
            } else {
                assert_eq!(rt; status, 0);
                assert_eq!(rt; writer.got.as_slice(), ANSWER);
            }
        }
    }
    Ok(())
}

fn rows_in(text: &[u8]) -> usize {
    text.iter().filter(|byte| **byte == b'\n').count()
}

/// Where the text cut after so many bytes ends with a whole row, with or without its line feed: how
/// many rows it has.
fn whole_rows(cut: usize) -> Option<usize> {
    let (front, rest) = TEXT.split_at_checked(cut)?;
    if front.ends_with(b"\n") {
        return Some(rows_in(front));
    }
    if !front.is_empty() && rest.starts_with(b"\n") {
        return rows_in(front).checked_add(1);
    }
    None
}

#[test]
fn a_text_cut_after_any_byte(rt: HostRuntime) -> Result<(), Fail> {
    for cut in 0..TEXT.len() + 1 {
        let (status, answer) = told_of(&rt, rt.alloc(), reader_of(&TEXT[..cut], 8192, 0))?;
        let (wanted, text) = match whole_rows(cut) {
            Some(8) => (0, ANSWER),
            Some(4) => (0, ANSWER_TO_NO_LINES),
            Some(5..=7) => (1, NO_SHAPE),
            _ => (2, b"fault,".as_slice()),
        };
        assert_eq!(rt; status, wanted);
        assert!(rt; answer.starts_with(text));
        assert!(rt; status == 2 || answer.len() == text.len());
    }
    Ok(())
}
