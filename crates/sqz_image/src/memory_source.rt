//! A source of bytes in memory, which can be made to fail.

ghost use Rattle.std.specs.Prelude.{◌≡◌, ◌≤◌, ◌↔◌, ◌⊎◌, true, false, Some, min, length, take, drop};
ghost use Rattle.std.specs.Prelude.{vec_len};
ghost use Rattle.std.specs.Prelude.{IfOk, IsErr};
ghost use Rattle.sqz_image.specs.Devices.{SourceState, IsRead};

use crate::device::{DeviceFault, Source};

/// Gives bytes in pieces, and fails at a chosen read.
#[derive(Drop)]
pub struct MemorySource {
    bytes: Vec<u8>,
    given: usize,
    piece: u32,
    fail: Option<u64>,
    reads: u64,
    empty_reads: u64,
    failed: bool,
    ghost within: { given ≤ vec_len bytes },
    ghost gives_some: { 1 ≤ piece },
}

impl MemorySource {
    ghost use Rattle.sqz_image.specs.MemoryDevices.{piece_size, failing_read};

    /// Returns a source that gives at most `piece` bytes per read. The read with the number
    /// `fail`, counted from 0, fails.
    pub fn new(bytes: Vec<u8>, piece: u32, fail: Option<u64>) -> Self
        requires { 1 ≤ piece }
        ensures starts { ⟦<MemorySource as Source>⟧.state result
            ≡ record { left = Some bytes.items; reads = 0; empty_reads = 0; failed = false } }
        ensures pieces { piece_size result ≡ piece }
        ensures fails { failing_read result ≡ fail }
    {
        MemorySource {
            bytes,
            given: 0,
            piece,
            fail,
            reads: 0,
            empty_reads: 0,
            failed: false,
        }
    }
}

impl Source for MemorySource {
    ghost use Rattle.sqz_image.specs.MemoryDevices.{piece_size, failing_read};

    ghost state = { λ s. record {
      left = Some (drop s.given s.bytes.items);
      reads = s.reads;
      empty_reads = s.empty_reads;
      failed = s.failed;
    } };

    ghost gives_all = { true };

    #[tactic(auto, using(crate::proofs::Parts::drop_parts))]
    fn read(&mut self, into: &mut [u8]) -> Result<usize, DeviceFault>
        ensures read { IsRead true (⟦<MemorySource as Source>⟧.state self.old)
            (⟦<MemorySource as Source>⟧.state self.new) into.new result }
        ensures bounded { IfOk result (λ count. count ≤ piece_size self.old) }
        ensures fails { let state = ⟦<MemorySource as Source>⟧.state self.old in
            IsErr result ↔ ((state.failed ≡ true) ⊎ (failing_read self.old ≡ Some state.reads)) }
        ensures same_pieces { piece_size self.new ≡ piece_size self.old }
        ensures fails_next { failing_read self.new ≡ failing_read self.old }
    {
        let turn = self.reads;
        self.reads = turn.saturating_add(1);
        if self.failed || self.fail == Some(turn) {
            self.failed = true;
            return Err(DeviceFault);
        }
        let count = copy_front(&self.bytes[self.given..], self.piece as usize, into);
        self.given += count;
        if count == 0 && !into.is_empty() {
            self.empty_reads = self.empty_reads.saturating_add(1);
        }
        Ok(count)
    }

    fn failed(&self) -> bool {
        self.failed
    }
}

/// Copies bytes to the front of `into`: as many as both slices have, but at most `most`. Returns
/// their number.
fn copy_front(from: &[u8], most: usize, into: &mut [u8]) -> usize
    ensures count { result ≡ min (min (length from.now) (length into.old)) most }
    ensures copied { take result into.new ≡ take result from.now }
{
    let count = from.len().min(into.len()).min(most);
    into[..count].copy_from_slice(&from[..count]);
    count
}
