//! A writer whose reader may stop early.

use std::io;
use std::io::{ErrorKind, Write};

/// Passes bytes on to a writer, and drops them once the reader has closed its pipe: nobody wants
/// them any more, so this is no failure.
#[derive(Drop)]
pub struct QuietPipe<W> {
    inner: W,
}

impl<W: Write> QuietPipe<W> {
    /// Returns a writer that passes bytes on to this one.
    pub fn new(inner: W) -> Self {
        QuietPipe { inner }
    }
}

impl<W: Write> Write for QuietPipe<W> {
    fn write(&mut self, buf: &[u8]) -> io::Result<usize> {
        match self.inner.write(buf) {
            Err(error) if error.kind() == ErrorKind::BrokenPipe => Ok(buf.len()),
            written => written,
        }
    }

    fn flush(&mut self) -> io::Result<()> {
        match self.inner.flush() {
            Err(error) if error.kind() == ErrorKind::BrokenPipe => Ok(()),
            flushed => flushed,
        }
    }
}
