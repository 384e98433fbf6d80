//! A source that gives no byte once although it has bytes left: a run reads up to there, and leaves
//! the rest.

ghost use Rattle.std.specs.Prelude.{◌≡◌, false};
ghost use Rattle.sqz_image.specs.Devices.{SourceState};

use super::runs::{assert_bytes, plan_of};
use sqz_image::{DeviceFault, MemorySink, MemorySource, Source, read_all};
use sqz_test_fixtures::accepted::{DEAD_ARRAY, NIL_ALONE};
use sqz_test_fixtures::file_of;
use sqz_tool::{Plan, run};
use sqz_trace::Weak;
use sqz_workers::OpenGate;
use std::alloc::{AllocError, Global};
use std::process::Abort;
use std::sync::Wait;
use std::test::Fail;
use std::thread::Threads;

/// The number of the read that gives no byte, counted from 1.
const PAUSE: u64 = 2;

/// Gives the bytes of another source, and at its second read none.
#[derive(Drop)]
struct PausingSource {
    inner: MemorySource,
    reads: u64,
    empty_reads: u64,
}

impl Source for PausingSource {
    ghost state = { λ s. record {
      left = (⟦<MemorySource as Source>⟧.state s.inner).left;
      reads = s.reads;
      empty_reads = s.empty_reads;
      failed = (⟦<MemorySource as Source>⟧.state s.inner).failed;
    } };

    ghost gives_all = { false };

    fn read(&mut self, into: &mut [u8]) -> Result<usize, DeviceFault> {
        self.reads = self.reads.saturating_add(1);
        if self.inner.failed() {
            return Err(DeviceFault);
        }
        let count = if self.reads == PAUSE {
            0
        } else {
            self.inner.read(into)?
        };
        if count == 0 && !into.is_empty() {
            self.empty_reads = self.empty_reads.saturating_add(1);
        }
        Ok(count)
    }

    fn failed(&self) -> bool {
        self.inner.failed()
    }
}

/// A source of the bytes of an image twice, which pauses between them.
fn twice_with_pause(alloc: Global) -> Result<PausingSource, AllocError> {
    let mut bytes = file_of(alloc, &DEAD_ARRAY)?;
    let again = file_of(alloc, &DEAD_ARRAY)?;
    bytes.extend_from_slice(&again)?;
    Ok(PausingSource {
        inner: MemorySource::new(bytes, 88, None),
        reads: 0,
        empty_reads: 0,
    })
}

#[test]
fn reading_stops_at_the_pause_and_leaves_the_rest(rt: HostRuntime) -> Result<(), Fail> {
    let mut source = twice_with_pause(rt.alloc())?;
    let file = file_of(rt.alloc(), &DEAD_ARRAY)?;
    assert_bytes(&rt, &read_all(rt.alloc(), &mut source)?, &file);
    assert_bytes(&rt, &read_all(rt.alloc(), &mut source)?, &file);
    assert_bytes(&rt, &read_all(rt.alloc(), &mut source)?, &[]);
    Ok(())
}

/// What a run writes of what a source gives.
fn written<R: Threads + Wait + Sync + AllocGlobal>(
    rt: &R,
    plan: &Plan,
    source: &mut PausingSource,
) -> Result<MemorySink, Fail> {
    let mut sink = MemorySink::new(rt.alloc(), 4096, None)?;
    let mut report = MemorySink::new(rt.alloc(), 0, None)?;
    run(
        rt,
        rt.alloc(),
        plan,
        source,
        &mut sink,
        &mut report,
        &OpenGate,
    )?;
    Ok(sink)
}

#[test]
fn a_run_compacts_what_came_before_the_pause(rt: HostRuntime) -> Result<(), Fail> {
    let plan = plan_of(Weak::Keep, false)?;
    let mut source = twice_with_pause(rt.alloc())?;
    let wanted = file_of(rt.alloc(), &NIL_ALONE)?;
    let first = written(&rt, &plan, &mut source)?;
    assert_bytes(&rt, first.contents(), &wanted);
    let second = written(&rt, &plan, &mut source)?;
    assert_bytes(&rt, second.contents(), &wanted);
    Ok(())
}
