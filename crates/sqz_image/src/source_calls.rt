//! The record of calls of a source.

ghost use Rattle.std.specs.Prelude.{◌≡◌, ◌↔◌, ◌==◌, ◌&&◌, if◌then◌else◌, nat_lt, Ok, true, false};
ghost use Rattle.std.specs.Prelude.{length};
ghost use Rattle.std.specs.Prelude.{IfOk, OnOk, OnErr, IsErr};
ghost use Rattle.sqz_image.specs.Devices.{one_more};

use crate::device::DeviceFault;
use std::io;

/// The record of calls of a source.
#[derive(Clone, Copy, Debug, PartialEq, Eq)]
pub(crate) struct SourceCalls {
    /// The number of reads.
    pub reads: u64,
    /// The number of reads that returned 0 for a non-empty piece.
    pub empty_reads: u64,
    /// Whether a call failed.
    pub failed: bool,
}

impl SourceCalls {
    /// Returns the record with no call yet.
    pub const fn new() -> Self
        ensures { result ≡ record { reads = 0; empty_reads = 0; failed = false } }
    {
        SourceCalls {
            reads: 0,
            empty_reads: 0,
            failed: false,
        }
    }

    /// Counts a read that begins. Fails after a failure.
    pub fn begin_read(&mut self) -> Result<(), DeviceFault>
        ensures refused { IsErr result ↔ (self.old.failed ≡ true) }
        ensures counted { self.new.reads ≡ one_more self.old.reads }
        ensures same_empty { self.new.empty_reads ≡ self.old.empty_reads }
        ensures same_state { self.new.failed ≡ self.old.failed }
    {
        self.reads = self.reads.saturating_add(1);
        if self.failed {
            return Err(DeviceFault);
        }
        Ok(())
    }

    /// Ends a read into the piece `into`, for which the reader returned `read`. Every error of the
    /// reader is a failure, including an interrupted read.
    pub fn end_read(&mut self, into: &[u8], read: io::Result<usize>) -> Result<usize, DeviceFault>
        ensures given { IfOk result (λ count. read ≡ Ok count) }
        ensures empty { IfOk result (λ count. self.new.empty_reads
            ≡ (if count == 0 && nat_lt 0 (length into.now) then one_more self.old.empty_reads else
            self.old.empty_reads)) }
        ensures sound { OnOk result (self.new.failed ≡ self.old.failed) }
        ensures refused { OnErr result (IsErr read) }
        ensures failed { OnErr result (self.new.failed ≡ true) }
        ensures left { OnErr result (self.new.empty_reads ≡ self.old.empty_reads) }
        ensures same_reads { self.new.reads ≡ self.old.reads }
    {
        match read {
            Ok(count) => {
                if count == 0 && !into.is_empty() {
                    self.empty_reads = self.empty_reads.saturating_add(1);
                }
                Ok(count)
            }
            Err(_) => {
                self.failed = true;
                Err(DeviceFault)
            }
        }
    }
}
