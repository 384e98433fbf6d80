//! The record of calls of a sink over a writer.

ghost use Rattle.std.specs.Prelude.{◌≡◌, ◌<◌, ◌↔◌, ◌==◌, if◌then◌else◌, Ok, true, false, length};
ghost use Rattle.std.specs.Prelude.{IfOk, OnOk, OnErr, IsErr};
ghost use Rattle.sqz_image.specs.Devices.{one_more};

use crate::device::DeviceFault;
use std::io;

/// The record of calls of a sink over a writer.
#[derive(Clone, Copy, Debug, PartialEq, Eq)]
pub struct SinkCalls {
    /// The number of writes.
    pub writes: u64,
    /// Whether bytes were taken that no flush has passed on.
    pub unflushed: bool,
    /// Whether a call failed.
    pub failed: bool,
}

impl SinkCalls {
    /// Returns the record with no call yet.
    pub const fn new() -> Self
        ensures { result ≡ record { writes = 0; unflushed = false; failed = false } }
    {
        SinkCalls {
            writes: 0,
            unflushed: false,
            failed: false,
        }
    }

    /// Counts a write that begins. Fails if a call has failed.
    pub fn begin_write(&mut self) -> Result<(), DeviceFault>
        ensures refused { IsErr result ↔ (self.old.failed ≡ true) }
        ensures counted { self.new.writes ≡ one_more self.old.writes }
        ensures same_unflushed { self.new.unflushed ≡ self.old.unflushed }
        ensures same_state { self.new.failed ≡ self.old.failed }
    {
        self.writes = self.writes.saturating_add(1);
        self.begin_flush()
    }

    /// Ends a write of the piece `from`, for which the writer returned `written`. Every error of
    /// the writer is a failure, including an interrupted write, and so is a write of a non-empty
    /// piece that returns 0.
    pub fn end_write(
        &mut self,
        from: &[u8],
        written: io::Result<usize>,
    ) -> Result<usize, DeviceFault>
        ensures answered { IfOk result (λ count. written ≡ Ok count) }
        ensures some { IfOk result (λ count. 0 < length from.now → 0 < count) }
        ensures unflushed { IfOk result (λ count.
            self.new.unflushed ≡ (if count == 0 then self.old.unflushed else true)) }
        ensures sound { OnOk result (self.new.failed ≡ self.old.failed) }
        ensures none { OnErr result (IfOk written (λ count. (count ≡ 0) × (0 < length from.now))) }
        ensures left { OnErr result (self.new.unflushed ≡ self.old.unflushed) }
        ensures failed { OnErr result (self.new.failed ≡ true) }
        ensures same_writes { self.new.writes ≡ self.old.writes }
    {
        match written {
            Ok(count) if count > 0 || from.is_empty() => {
                self.unflushed = self.unflushed || count > 0;
                Ok(count)
            }
            _ => {
                self.failed = true;
                Err(DeviceFault)
            }
        }
    }

    /// Begins a flush. Fails if a call has failed.
    pub fn begin_flush(&self) -> Result<(), DeviceFault>
        ensures { IsErr result ↔ (self.now.failed ≡ true) }
    {
        if self.failed {
            return Err(DeviceFault);
        }
        Ok(())
    }

    /// Ends a flush, for which the writer returned `flushed`.
    pub fn end_flush(&mut self, flushed: io::Result<()>) -> Result<(), DeviceFault>
        ensures answered { OnOk result (self.new.unflushed ≡ false) }
        ensures failed { IsErr result ↔ IsErr flushed }
        ensures sound { OnOk result (self.new.failed ≡ self.old.failed) }
        ensures stopped { OnErr result (self.new.failed ≡ true) }
        ensures left { OnErr result (self.new.unflushed ≡ self.old.unflushed) }
        ensures same_writes { self.new.writes ≡ self.old.writes }
    {
        match flushed {
            Ok(()) => {
                self.unflushed = false;
                Ok(())
            }
            Err(_) => {
                self.failed = true;
                Err(DeviceFault)
            }
        }
    }
}
