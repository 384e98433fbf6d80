//! Sliding allocates only after the gate, as the size of the process shows.

use super::cuts::CutBy;
use super::gates::{Hold, Turn, TurnGate};
use super::images::{long_object_image, put_object};
use super::sliding::{Team, slid};
use sqz_image::{Fault, Heap, Image, read_image};
use sqz_object::Order;
use sqz_test_fixtures::{put_header, put_words};
use sqz_trace::Weak;
use sqz_workers::{Gate, Phase};
use std::alloc::Global;
use std::fs::File;
use std::io::Read;
use std::rt::Files;
use std::sync::atomic::{AtomicU64, Ordering};
use std::test::Fail;
use std::thread::Threads;

/// How many pages the process has.
fn pages<R: Files>(rt: &R) -> u64 {
    let mut text = [0; 32];
    let Ok(mut file) = File::open(rt, "/proc/self/statm") else {
        return 0;
    };
    if file.read(&mut text).is_err() {
        return 0;
    }
    let mut pages: u64 = 0;
    for digit in text {
        if !digit.is_ascii_digit() {
            return pages;
        }
        pages = pages.wrapping_mul(10).wrapping_add(u64::from(digit & 15));
    }
    pages
}

/// A gate that notes how large the process is at the first three turns of a worker, and before that
/// holds workers.
#[derive(Drop)]
struct SizeGate<'a, R> {
    rt: &'a R,
    worker: u32,
    turns: TurnGate<'a>,
    sizes: [AtomicU64; 3],
}

impl<R: Files + Sync> Gate for SizeGate<'_, R> {
    fn pass(&self, phase: Phase, worker: u32, turn: u64) {
        self.turns.pass(phase, worker, turn);
        if phase == Phase::Slide
            && worker == self.worker
            && let Some(size) = self.sizes.get(turn as usize)
        {
            size.store(pages(self.rt), Ordering::SeqCst);
        }
    }
}

impl<'a, R> SizeGate<'a, R> {
    /// A gate that notes sizes at the turns of this worker, and holds workers.
    fn new(rt: &'a R, worker: u32, holds: &'a [Hold]) -> Self {
        SizeGate {
            rt,
            worker,
            turns: TurnGate::new(Phase::Slide, holds),
            sizes: [AtomicU64::new(0), AtomicU64::new(0), AtomicU64::new(0)],
        }
    }

    /// Whether the process had a size at a turn, and was larger by this many pages at the next one.
    fn grows(&self, turn: usize, least: u64) -> bool {
        let (Some(size), Some(next)) = (
            self.sizes.get(turn),
            self.sizes.get(turn.saturating_add(1)),
        ) else {
            return false;
        };
        let before = size.load(Ordering::SeqCst);
        before > 0 && next.load(Ordering::SeqCst).saturating_sub(before) >= least
    }
}

/// How many bytes the large object has. An allocation of this many bytes makes the process larger.
const MANY: u32 = 40 << 20;

/// Has workers who pass a gate slide a heap.
fn slide_past<R: Threads + Sync + AllocGlobal, G: Gate>(
    rt: &R,
    heap: &Heap,
    by: CutBy,
    workers: u32,
    gate: &G,
) -> Result<(), Fault> {
    let team = Team { workers, gate };
    slid(rt, heap, Weak::Keep, by, &team)?;
    Ok(())
}

/// Has one worker who passes a gate slide a large object.
fn slide_one<R: Threads + Sync + AllocGlobal, G: Gate>(rt: &R, gate: &G) -> Result<(), Fault> {
    let image = long_object_image(rt.alloc(), MANY / 4)?;
    slide_past(rt, image.heap(), CutBy::Every(4), 1, gate)
}

/// The room for the list of pieces, 60 MiB, and the first piece, 40 MiB, are allocated after the
/// first turn and before the second.
#[test]
fn first_turn_is_before_all_memory(rt: HostRuntime) -> Result<(), Fail> {
    let gate = SizeGate::new(&rt, 0, &[]);
    slide_one(&rt, &gate)?;
    assert!(rt; gate.grows(0, (95 << 20) / 4096));
    Ok(())
}

/// How many bytes each of two large objects has. An allocation of this many bytes is never served
/// from freed memory.
const PIECE: u32 = 33 << 20;

/// How many pages those are.
const PIECE_PAGES: u64 = (PIECE / 4096) as u64;

/// A large object's header, of three words.
const LARGE: &[u32] = &[PIECE + 4, 0x1000, 0x800];

/// Nil, a small object, and a large one's header.
const SMALL_AND_LARGE: &[u32] = &[0x1007, 0x110B, 1, PIECE + 4, 0x1000, 0x800];

/// The special objects array.
const POINTERS: &[u32] = &[0x3217, 0x1000, 0x1004, 0x1014, 0x1020 + PIECE];

/// An image with nil, a small object, two large ones and the special objects array, which points to
/// all of them.
fn image_of_two(alloc: Global) -> Result<Image, Fault> {
    let special = 0x1024 + 2 * PIECE;
    let order = Order::Little;
    let mut file = Vec::new(alloc);
    put_header(&mut file, order, 2 * PIECE + 56, 0x1000, special)?;
    put_object(&mut file, SMALL_AND_LARGE, 88 + PIECE as usize)?;
    put_object(&mut file, LARGE, 100 + 2 * PIECE as usize)?;
    put_words(&mut file, order, POINTERS)?;
    read_image(alloc, &file)
}

/// The first word of the second large object.
const SECOND: u32 = 6 + PIECE / 4;

/// The first word of the special objects array.
const SPECIAL: u32 = 2 * SECOND - 3;

/// Where the image is cut: before each object but the first, and inside the small object and the
/// special objects array.
const POINTS: &[u32] = &[1, 2, 3, SECOND, SPECIAL, SPECIAL + 1];

/// The second worker begins when the first, whose pieces are small, comes to its second turn, where
/// it is held until the second one has come to its last.
const HOLDS: [Hold; 2] = [
    Hold {
        at: Turn { worker: 1, turn: 0 },
        until: Turn { worker: 0, turn: 1 },
    },
    Hold {
        at: Turn { worker: 0, turn: 1 },
        until: Turn { worker: 1, turn: 3 },
    },
];

/// Has two workers who pass a gate slide that image.
fn slide_two<R: Threads + Sync + AllocGlobal, G: Gate>(rt: &R, gate: &G) -> Result<(), Fault> {
    let image = image_of_two(rt.alloc())?;
    slide_past(rt, image.heap(), CutBy::At(POINTS), 2, gate)
}

/// At its second turn a worker has the memory of its first piece, and not yet that of its second
/// one, which it has at its third turn. The other worker, whose pieces are small, is held
/// meanwhile: it has three regions, and the second one four.
#[test]
fn each_turn_is_before_the_memory_of_its_piece(rt: HostRuntime) -> Result<(), Fail> {
    let gate = SizeGate::new(&rt, 1, &HOLDS);
    slide_two(&rt, &gate)?;
    assert_eq!(rt;
        (
            gate.turns.turns_of_two(),
            gate.turns.held(),
            gate.grows(0, PIECE_PAGES),
            gate.grows(1, PIECE_PAGES)
        ),
        ((3, 4, 0), (2, 0), true, true)
    );
    Ok(())
}
