//! Sliding, as a gate sees it: who takes turns, and when.

use super::cuts::CutBy;
use super::gates::{Hold, MEETING, Seen, Turn, TurnGate};
use super::images::{dead_cycle_image, long_object_image};
use super::sliding::{Team, are_pieces, have_sizes, slid};
use sqz_image::{Fault, Heap};
use sqz_test_fixtures::accepted::DEAD_CYCLE_ANSWER;
use sqz_trace::Weak;
use sqz_workers::Phase;
use std::test::Fail;
use std::thread::Threads;

/// Two workers who slide the dead cycle's image, and what a gate sees of them.
struct Slide {
    name: &'static str,
    by: CutBy,
    /// How many words each piece has.
    sizes: &'static [usize],
    holds: &'static [Hold],
    /// How many turns each takes, and how many are not the next one of their worker.
    turns: (u64, u64, u64),
    /// How often one is held.
    met: u64,
}

/// Of three regions the first worker has the first, the second the two others. Of one region a gate
/// cannot tell which of the two has it, since each passes once, with one region or with none;
/// `second_worker_has_more_regions` shows how shares are rounded.
const SLIDES: &[Slide] = &[
    Slide {
        name: "two workers slide at one time",
        by: CutBy::At(&[1, 3]),
        sizes: &[1, 2, 5],
        holds: &MEETING,
        turns: (1, 2, 0),
        met: 2,
    },
    Slide {
        name: "a worker slides while the other is held",
        by: CutBy::At(&[1, 3]),
        sizes: &[1, 2, 5],
        holds: &[Hold {
            at: Turn { worker: 0, turn: 0 },
            until: Turn { worker: 1, turn: 1 },
        }],
        turns: (1, 2, 0),
        met: 1,
    },
    Slide {
        name: "a worker without regions passes once",
        by: CutBy::At(&[]),
        sizes: &[8],
        holds: &[],
        turns: (1, 1, 0),
        met: 0,
    },
    Slide {
        name: "one region for two workers",
        by: CutBy::Every(65_536),
        sizes: &[8],
        holds: &[],
        turns: (1, 1, 0),
        met: 0,
    },
];

/// Whether two workers who pass a gate make the pieces that are wanted.
fn is_slid<R: Threads + Sync + AllocGlobal>(
    rt: &R,
    heap: &Heap,
    gate: &TurnGate<'_>,
    case: &Slide,
) -> Result<bool, Fault> {
    let team = Team { workers: 2, gate };
    let pieces = slid(rt, heap, Weak::Keep, case.by, &team)?;
    Ok(are_pieces(rt.alloc(), &pieces, case.sizes, &DEAD_CYCLE_ANSWER)?)
}

/// Whether two workers make the pieces that are wanted, the turns that they take, and how often one
/// is held.
fn seen_in<R: Threads + Sync + AllocGlobal>(
    rt: &R,
    heap: &Heap,
    case: &Slide,
) -> Result<Seen, Fault> {
    let gate = TurnGate::new(Phase::Slide, case.holds);
    let is_slid = is_slid(rt, heap, &gate, case)?;
    Ok((is_slid, gate.turns_of_two(), gate.held()))
}

/// The same, for the dead cycle's image.
fn seen<R: Threads + Sync + AllocGlobal>(rt: &R, case: &Slide) -> Result<Seen, Fault> {
    let image = dead_cycle_image(rt.alloc())?;
    seen_in(rt, image.heap(), case)
}

#[test]
fn gate_sees_two_workers_slide(rt: HostRuntime) -> Result<(), Fail> {
    for case in SLIDES {
        let found = seen(&rt, case)?;
        assert_eq!(rt; found, (true, case.turns, (case.met, 0)), "{}", case.name);
    }
    Ok(())
}

/// Whether two workers make pieces of these sizes of a heap, in regions of 65536 words, and the
/// turns that they take.
fn long_seen_in<R: Threads + Sync + AllocGlobal>(
    rt: &R,
    heap: &Heap,
    sizes: &[usize],
) -> Result<(bool, (u64, u64, u64)), Fault> {
    let gate = TurnGate::new(Phase::Slide, &[]);
    let team = Team {
        workers: 2,
        gate: &gate,
    };
    let pieces = slid(rt, heap, Weak::Keep, CutBy::Every(65_536), &team)?;
    Ok((have_sizes(&pieces, sizes), gate.turns_of_two()))
}

/// The same, for an image with a long object.
fn long_seen<R: Threads + Sync + AllocGlobal>(
    rt: &R,
    sizes: &[usize],
) -> Result<(bool, (u64, u64, u64)), Fault> {
    let image = long_object_image(rt.alloc(), 140_000)?;
    long_seen_in(rt, image.heap(), sizes)
}

/// The beginning of a share is rounded down: of three regions the first worker has one and the
/// second has two, and so of one region the first has none. No object begins in the second region.
#[test]
fn second_worker_has_more_regions(rt: HostRuntime) -> Result<(), Fail> {
    assert_eq!(rt; long_seen(&rt, &[140_004, 0, 3])?, (true, (1, 2, 0)));
    Ok(())
}
