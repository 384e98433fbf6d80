//! A sink in memory, which can be made to fail.

ghost use Rattle.std.specs.Prelude.{◌≡◌, ◌+◌, ◌<◌, ◌≤◌, ◌↔◌, ◌⊎◌, true, false, Some, [], min};
ghost use Rattle.std.specs.Prelude.{length, IfOk, OnOk};
ghost use Rattle.std.specs.Prelude.{IfErr, OnErr, IsErr, vec_len, vec_capacity};
ghost use Rattle.sqz_image.specs.Devices.{SinkState, IsWrite, IsFlush, one_more};
ghost use Rattle.sqz_image.specs.declared.fault.Fault.TheVariants.{OutOfMemory};

use crate::device::{DeviceFault, Sink};
use crate::fault::Fault;
use std::alloc::Global;

/// Takes bytes while there is room, which is allocated at the start, and fails at a chosen call. A
/// write of a non-empty piece to a full sink fails.
#[derive(Drop)]
pub struct MemorySink {
    taken: Vec<u8>,
    room: u32,
    fail: Option<u64>,
    calls: u64,
    writes: u64,
    unflushed: bool,
    failed: bool,
    ghost within: { vec_len taken ≤ room },
    ghost reserved: { room ≤ vec_capacity taken },
}

impl MemorySink {
    ghost use Rattle.sqz_image.specs.MemoryDevices.{room_left, calls_of, failing_call};

    /// Returns a sink with room for `room` bytes. The call with the number `fail` fails; writes
    /// and flushes are counted together, from 0.
    ///
    /// Fails with `OutOfMemory` if the room cannot be allocated.
    pub fn new(alloc: Global, room: u32, fail: Option<u64>) -> Result<Self, Fault>
        ensures starts { IfOk result (λ sink. ⟦<MemorySink as Sink>⟧.state sink
            ≡ record { contents = Some []; writes = 0; unflushed = false; failed = false }) }
        ensures room { IfOk result (λ sink. room_left sink ≡ room) }
        ensures fails { IfOk result (λ sink. (calls_of sink ≡ 0) × (failing_call sink ≡ fail)) }
        ensures stopped { IfErr result (λ fault. fault ≡ OutOfMemory) }
    {
        let taken = Vec::with_capacity(alloc, room as usize).map_err(|_| Fault::OutOfMemory)?;
        Ok(MemorySink {
            taken,
            room,
            fail,
            calls: 0,
            writes: 0,
            unflushed: false,
            failed: false,
        })
    }

    /// Returns the bytes that were taken.
    pub fn contents(&self) -> &[u8]
        ensures { Some result.now ≡ (⟦<MemorySink as Sink>⟧.state self.now).contents }
    {
        &self.taken
    }

    /// Counts a call. Fails if the sink failed before or is to fail now.
    fn begin(&mut self) -> Result<(), DeviceFault>
        ensures fails { IsErr result ↔ ((self.old.failed ≡ true)
            ⊎ (failing_call self.old ≡ Some (calls_of self.old))) }
        ensures went_on { OnOk result ((self.old.failed ≡ false) × (self.new.failed ≡ false)) }
        ensures refused { OnErr result (self.new.failed ≡ true) }
        ensures counted { calls_of self.new ≡ one_more (calls_of self.old) }
        ensures same_writes { self.new.writes ≡ self.old.writes }
        ensures same_unflushed { self.new.unflushed ≡ self.old.unflushed }
        ensures same_bytes { self.new.taken ≡ self.old.taken }
        ensures same_room { self.new.room ≡ self.old.room }
        ensures fails_next { failing_call self.new ≡ failing_call self.old }
    {
        let turn = self.calls;
        self.calls = turn.saturating_add(1);
        if self.failed || self.fail == Some(turn) {
            self.failed = true;
            return Err(DeviceFault);
        }
        Ok(())
    }
}

impl Sink for MemorySink {
    ghost use Rattle.sqz_image.specs.MemoryDevices.{room_left, calls_of, failing_call};

    ghost state = { λ s. record {
      contents = Some s.taken.items;
      writes = s.writes;
      unflushed =
          s.unflushed;
      failed = s.failed;
    } };

    fn write(&mut self, from: &[u8]) -> Result<usize, DeviceFault>
        ensures written { IsWrite (⟦<MemorySink as Sink>⟧.state self.old)
            (⟦<MemorySink as Sink>⟧.state self.new) from.now result }
        ensures takes { IfOk result (λ count. count ≡ min (length from.now) (room_left self.old)) }
        ensures room { IfOk result (λ count. room_left self.new + count ≡ room_left self.old) }
        ensures fails { IsErr result ↔ (((⟦<MemorySink as Sink>⟧.state self.old).failed ≡ true)
            ⊎ (failing_call self.old ≡ Some (calls_of self.old))
            ⊎ ((room_left self.old ≡ 0) × (0 < length from.now))) }
        ensures counted { calls_of self.new ≡ one_more (calls_of self.old) }
        ensures fails_next { failing_call self.new ≡ failing_call self.old }
    {
        self.writes = self.writes.saturating_add(1);
        self.begin()?;
        let count = from.len().min(self.room as usize - self.taken.len());
        if count == 0 && !from.is_empty() {
            self.failed = true;
            return Err(DeviceFault);
        }
        self.taken.extend_from_slice(&from[..count]).unwrap();
        self.unflushed = self.unflushed || count > 0;
        Ok(count)
    }

    fn flush(&mut self) -> Result<(), DeviceFault>
        ensures flushed { IsFlush (⟦<MemorySink as Sink>⟧.state self.old)
            (⟦<MemorySink as Sink>⟧.state self.new) result }
        ensures fails { IsErr result ↔ (((⟦<MemorySink as Sink>⟧.state self.old).failed ≡ true)
            ⊎ (failing_call self.old ≡ Some (calls_of self.old))) }
        ensures same_room { room_left self.new ≡ room_left self.old }
        ensures counted { calls_of self.new ≡ one_more (calls_of self.old) }
        ensures fails_next { failing_call self.new ≡ failing_call self.old }
    {
        self.begin()?;
        self.unflushed = false;
        Ok(())
    }

    fn failed(&self) -> bool {
        self.failed
    }
}
