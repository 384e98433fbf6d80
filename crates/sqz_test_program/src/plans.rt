//! The plan that a command line asks for, as the gate sees it that workers pass.

use super::images::whole_image;
use super::test_files::{Disk, IN, OUT, SOUND, TestFiles};
use sqz_compact_args::Arguments;
use sqz_image::MemorySink;
use sqz_tool::compact;
use sqz_workers::{Gate, Phase};
use std::sync::Wait;
use std::sync::atomic::{AtomicU64, Ordering};
use std::test::Fail;
use std::thread::Threads;

/// Counts the workers that mark, those that move objects, and the turns of the latter.
#[derive(Drop)]
struct Counts {
    markers: AtomicU64,
    movers: AtomicU64,
    moves: AtomicU64,
}

impl Gate for Counts {
    fn pass(&self, phase: Phase, _worker: u32, turn: u64) {
        let workers = match phase {
            Phase::Mark => &self.markers,
            Phase::Slide => {
                self.moves.fetch_add(1, Ordering::SeqCst);
                &self.movers
            }
        };
        if turn == 0 {
            workers.fetch_add(1, Ordering::SeqCst);
        }
    }
}

/// Three workers, and regions of one word.
const ARGUMENTS: Arguments<'static> = Arguments {
    input: IN,
    output: OUT,
    workers: 3,
    region_words: 1,
    census: false,
    clear_weak: false,
};

/// Compacts an image as it is asked for, past a gate.
fn compact_image<R: Threads + Wait + Sync + AllocGlobal + Drop>(
    rt: &R,
    image: &[u8],
    gate: &Counts,
) -> Result<(), Fail> {
    let mut out = MemorySink::new(rt.alloc(), 0, None)?;
    let disk = Disk::new(rt.alloc(), image, SOUND);
    let files = TestFiles { disk: &disk, rt };
    compact(&files, rt.alloc(), &ARGUMENTS, &mut out, gate)?;
    Ok(())
}

/// Six words make six regions of one word, and each of three workers has two of them.
#[test]
fn workers_and_regions_that_are_asked_for(rt: HostRuntime) -> Result<(), Fail> {
    let counts = Counts {
        markers: AtomicU64::new(0),
        movers: AtomicU64::new(0),
        moves: AtomicU64::new(0),
    };
    compact_image(&rt, &whole_image(rt.alloc())?, &counts)?;
    let markers = counts.markers.load(Ordering::SeqCst);
    let movers = counts.movers.load(Ordering::SeqCst);
    let moves = counts.moves.load(Ordering::SeqCst);
    assert_eq!(rt; (markers, movers, moves), (3, 3, 6));
    Ok(())
}
