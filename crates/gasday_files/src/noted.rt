//! A reader or a writer of which it is known why it failed.

ghost use Rattle.std.specs.Prelude.{◌≡◌};
ghost use Rattle.gasday_files.specs.Noting.{noted, stream_of};

use std::io;
use std::io::{Read, Write};

/// A reader or a writer, and the error of its last call that failed.
#[derive(Drop)]
pub struct Noted<T> {
    stream: T,
    error: Option<io::Error>,
}

impl<T> Noted<T> {
    /// Of which no call has failed yet.
    pub fn new(stream: T) -> Noted<T>
        ensures { stream_of result ≡ stream }
    {
        Noted {
            stream,
            error: None,
        }
    }

    /// The error of the last call that failed.
    pub fn error(&self) -> Option<&io::Error> {
        self.error.as_ref()
    }

    /// The error of the last call that failed, which is known here no longer.
    pub(crate) fn take_error(&mut self) -> Option<io::Error> {
        self.error.take()
    }
}

impl<R: Read> Read for Noted<R> {
    ghost remaining = { λ n. R.remaining n.stream };

    fn read(&mut self, buf: &mut [u8]) -> io::Result<usize> {
        match self.stream.read(buf) {
            Ok(count) => Ok(count),
            Err(error) => {
                self.error = Some(error);
                Err(error)
            }
        }
    }
}

impl<W: Write> Write for Noted<W> {
    ghost contents = { noted W.contents };

    fn write(&mut self, buf: &[u8]) -> io::Result<usize> {
        match self.stream.write(buf) {
            Ok(count) => Ok(count),
            Err(error) => {
                self.error = Some(error);
                Err(error)
            }
        }
    }

    fn flush(&mut self) -> io::Result<()> {
        match self.stream.flush() {
            Ok(()) => Ok(()),
            Err(error) => {
                self.error = Some(error);
                Err(error)
            }
        }
    }
}
