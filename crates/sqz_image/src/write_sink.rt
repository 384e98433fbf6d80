//! A sink over any writer.

ghost use Rattle.std.specs.Prelude.{◌≡◌, false};
ghost use Rattle.sqz_image.specs.Devices.{SinkState};

use crate::device::{DeviceFault, Sink};
use crate::sink_calls::SinkCalls;
use std::io::Write;

/// Passes bytes on to a writer. Every error of the writer is a failure, including an interrupted
/// write, and so is a write of a non-empty piece that returns 0.
#[derive(Drop)]
pub struct WriteSink<W> {
    inner: W,
    calls: SinkCalls,
}

impl<W: Write> WriteSink<W> {
    /// Returns a sink that has not been written to yet.
    pub fn new(inner: W) -> Self
        ensures { ⟦<WriteSink<W> as Sink>⟧.state result
            ≡ record {
              contents = W.contents inner;
              writes = 0;
              unflushed = false;
              failed =
                  false;
            } }
    {
        WriteSink {
            inner,
            calls: SinkCalls::new(),
        }
    }
}

impl<W: Write> Sink for WriteSink<W> {
    ghost state = { λ s. record {
      contents = W.contents s.inner;
      writes = s.calls.writes;
      unflushed = s.calls.unflushed;
      failed = s.calls.failed;
    } };

    fn write(&mut self, from: &[u8]) -> Result<usize, DeviceFault> {
        self.calls.begin_write()?;
        let written = self.inner.write(from);
        self.calls.end_write(from, written)
    }

    fn flush(&mut self) -> Result<(), DeviceFault> {
        self.calls.begin_flush()?;
        let flushed = self.inner.flush();
        self.calls.end_flush(flushed)
    }

    fn failed(&self) -> bool {
        self.calls.failed
    }
}
