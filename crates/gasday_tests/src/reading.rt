//! Texts from readers that give little and fail, and bytes to writers that take little and fail.

use gd_text_part::{Form, Row, TextFault, read_all, write_bytes};
use std::alloc::AllocError;
use std::io;
use std::io::{Read, Write};
use std::test::Fail;

const HEAD: &[u8] = b"question,DEMO,1,1,,,,\n";

/// What was read, unless memory ran out.
fn unless_no_memory(
    outcome: Result<Vec<Row>, TextFault>,
) -> Result<Result<Vec<Row>, TextFault>, Fail> {
    match outcome {
        Err(TextFault::OutOfMemory) => Err("out of memory".into()),
        _ => Ok(outcome),
    }
}

/// Gives one byte a read, fails at the read with the number `failing`, and counts its reads.
#[derive(Drop)]
struct OneByte<'t> {
    left: &'t [u8],
    failing: usize,
    reads: usize,
}

impl<'t> Read for OneByte<'t> {
    fn read(&mut self, buf: &mut [u8]) -> io::Result<usize> {
        self.reads = self.reads.saturating_add(1);
        if self.reads == self.failing {
            return Err(io::Error::from(io::ErrorKind::Interrupted));
        }
        match (self.left, buf.first_mut()) {
            ([first, rest @ ..], Some(place)) => {
                *place = *first;
                self.left = rest;
                Ok(1)
            }
            _ => Ok(0),
        }
    }
}

/// A text of n bytes, one a read, takes n + 1 reads. Whichever of them fails, nothing is taken for the
/// end of the text, though the rows up to there would do.
#[test]
fn a_read_of_any_number_fails(rt: HostRuntime) -> Result<(), Fail> {
    let reads = HEAD.len() + 1;
    for failing in 0..reads + 2 {
        let mut reader = OneByte {
            left: HEAD,
            failing,
            reads: 0,
        };
        let outcome = unless_no_memory(read_all(rt.alloc(), Form::CheckAllowed, &mut reader))?;
        if 0 < failing && failing <= reads {
            assert_eq!(rt; outcome.err(), Some(TextFault::ReadFailed));
            assert_eq!(rt; reader.reads, failing);
        } else {
            assert_eq!(rt; outcome?.len(), 1);
            assert_eq!(rt; reader.reads, reads);
        }
    }
    Ok(())
}

/// Gives a comma a read, for ever.
#[derive(Drop)]
struct Endless {
    reads: usize,
}

impl Read for Endless {
    fn read(&mut self, buf: &mut [u8]) -> io::Result<usize> {
        self.reads = self.reads.saturating_add(1);
        match buf.first_mut() {
            Some(place) => {
                *place = b',';
                Ok(1)
            }
            None => Ok(0),
        }
    }
}

#[test]
fn no_more_reads_than_a_text_may_take(rt: HostRuntime) -> Result<(), Fail> {
    let mut reader = Endless { reads: 0 };
    let outcome = unless_no_memory(read_all(rt.alloc(), Form::CheckAllowed, &mut reader))?;
    assert_eq!(rt; outcome.err(), Some(TextFault::TooLong));
    assert_eq!(rt; reader.reads, 4_194_304);
    Ok(())
}

/// Takes one byte a write, up to `room` bytes; then it fails, or takes none.
#[derive(Drop)]
struct Narrow {
    got: Vec<u8>,
    room: usize,
    fails: bool,
}

impl Write for Narrow {
    fn write(&mut self, buf: &[u8]) -> io::Result<usize> {
        if self.room <= self.got.len() {
            if self.fails {
                return Err(io::Error::from(io::ErrorKind::BrokenPipe));
            }
            return Ok(0);
        }
        match buf.first() {
            Some(byte) => {
                if self.got.push(*byte).is_err() {
                    return Err(io::Error::from(io::ErrorKind::OutOfMemory));
                }
                Ok(1)
            }
            None => Ok(0),
        }
    }

    fn flush(&mut self) -> io::Result<()> {
        Ok(())
    }
}

#[test]
fn all_is_written_or_a_front(rt: HostRuntime) -> Result<(), AllocError> {
    let bytes = b"total,1,80\n".as_slice();
    for room in 0..bytes.len() + 2 {
        for fails in [false, true] {
            let mut writer = Narrow {
                got: Vec::with_capacity(rt.alloc(), bytes.len())?,
                room,
                fails,
            };
            let written = write_bytes(&mut writer, bytes);
            assert_eq!(rt; written.is_ok(), bytes.len() <= room);
            assert_eq!(rt; writer.got.as_slice(), &bytes[..room.min(bytes.len())]);
        }
    }
    let mut whole = Vec::with_capacity(rt.alloc(), bytes.len())?;
    assert_eq!(rt; write_bytes(&mut whole, bytes), Ok(()));
    assert_eq!(rt; whole.as_slice(), bytes);
    Ok(())
}
