//! Byte sources and sinks.

ghost use Rattle.std.specs.Prelude.{◌≡◌, Bool};
ghost use Rattle.sqz_image.specs.Devices.{SourceState, SinkState, IsRead, IsWrite, IsFlush};

/// A device failed. What it did before the failure is not undone.
#[derive(Clone, Copy, Debug, PartialEq, Eq)]
pub struct DeviceFault;

/// Gives bytes, in pieces.
pub trait Source {
    /// What contracts see of a source.
    ghost state: { Self → SourceState };

    /// Whether the source promises to give all its bytes: a read into a non-empty piece returns 0
    /// only if no byte is left. For a source whose bytes contracts do not see, this promises
    /// nothing.
    ghost gives_all: { Bool };

    /// Reads bytes into the front of `into`, and returns their number. After a failure each later
    /// call fails.
    fn read(&mut self, into: &mut [u8]) -> Result<usize, DeviceFault>
        ensures read { IsRead gives_all (state self.old) (state self.new) into.new result };

    /// Returns whether a call failed.
    fn failed(&self) -> bool
        ensures failed { result ≡ (state self.now).failed };
}

/// Takes bytes, in pieces.
pub trait Sink {
    /// What contracts see of a sink.
    ghost state: { Self → SinkState };

    /// Takes bytes from the front of `from`, at least one if `from` is not empty, and returns
    /// their number. After a failure each later call fails.
    fn write(&mut self, from: &[u8]) -> Result<usize, DeviceFault>
        ensures written { IsWrite (state self.old) (state self.new) from.now result };

    /// Passes on the bytes that were taken.
    fn flush(&mut self) -> Result<(), DeviceFault>
        ensures flushed { IsFlush (state self.old) (state self.new) result };

    /// Returns whether a call failed.
    fn failed(&self) -> bool
        ensures failed { result ≡ (state self.now).failed };
}
