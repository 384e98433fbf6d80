//! A source over any reader.

ghost use Rattle.std.specs.Prelude.{◌≡◌, false, true};
ghost use Rattle.sqz_image.specs.Devices.{SourceState};

use crate::device::{DeviceFault, Source};
use crate::source_calls::SourceCalls;
use std::io::Read;

/// Gives the bytes of a reader. Every error of the reader is a failure, including an interrupted
/// read.
#[derive(Drop)]
pub struct ReadSource<R> {
    inner: R,
    calls: SourceCalls,
}

impl<R: Read> ReadSource<R> {
    /// Returns a source that has not been read yet.
    pub fn new(inner: R) -> Self
        ensures { ⟦<ReadSource<R> as Source>⟧.state result
            ≡ record { left = R.remaining inner; reads = 0; empty_reads = 0; failed = false } }
    {
        ReadSource {
            inner,
            calls: SourceCalls::new(),
        }
    }
}

impl<R: Read> Source for ReadSource<R> {
    ghost state = { λ s. record {
      left = R.remaining s.inner;
      reads = s.calls.reads;
      empty_reads = s.calls.empty_reads;
      failed = s.calls.failed;
    } };

    ghost gives_all = { true };

    fn read(&mut self, into: &mut [u8]) -> Result<usize, DeviceFault> {
        self.calls.begin_read()?;
        let read = self.inner.read(into);
        self.calls.end_read(into, read)
    }

    fn failed(&self) -> bool {
        self.calls.failed
    }
}
