//! Inputs that end or break off, and writers that fail.

use std::alloc::Global;
use std::io;
use std::io::{Read, Write};

/// What comes behind an input: its end, or a read that fails.
#[derive(Clone, Copy)]
pub(crate) enum End {
    Good,
    Broken,
}

impl Read for End {
    fn read(&mut self, _buf: &mut [u8]) -> io::Result<usize> {
        match self {
            End::Good => Ok(0),
            End::Broken => Err(io::Error::from(io::ErrorKind::Interrupted)),
        }
    }
}

/// Takes so many bytes, and then fails.
#[derive(Drop)]
pub(crate) struct ShortWriter {
    pub(crate) got: Vec<u8>,
    most: usize,
}

pub(crate) fn writer_of(alloc: Global, most: usize) -> ShortWriter {
    ShortWriter {
        got: Vec::new(alloc),
        most,
    }
}

impl Write for ShortWriter {
    fn write(&mut self, buf: &[u8]) -> io::Result<usize> {
        let taken = self.most.saturating_sub(self.got.len()).min(buf.len());
        if taken == 0 || self.got.extend_from_slice(&buf[..taken]).is_err() {
            return Err(io::Error::from(io::ErrorKind::BrokenPipe));
        }
        Ok(taken)
    }

    fn flush(&mut self) -> io::Result<()> {
        Ok(())
    }
}
