//! Marking under a lock: what is marked, and who takes turns, as a gate sees it.

use super::gates::{FIRST_IS_HELD, Hold, MEETING, Seen, Turn, TurnGate};
use super::images::dead_cycle_image;
use super::tracing::{DEAD_CYCLE_MARKS, flags_of};
use sqz_image::{Fault, Heap};
use sqz_marks::Workers;
use sqz_trace::Weak;
use sqz_workers::{Gate, OpenGate, Phase, mark_locked};
use std::sync::Wait;
use std::test::Fail;
use std::thread::Threads;

/// Which objects are marked by this many workers, who pass a gate.
pub(crate) fn marked_by<R: Threads + Wait + Sync + AllocGlobal, G: Gate>(
    rt: &R,
    heap: &Heap,
    weak: Weak,
    workers: u32,
    gate: &G,
) -> Result<Vec<bool>, Fault> {
    let marks = mark_locked(rt, rt.alloc(), heap, weak, Workers::new(workers)?, gate)?;
    Ok(flags_of(rt.alloc(), heap, &marks)?)
}

/// Whether this many workers, who pass a gate, mark the objects of a heap that are reachable in the
/// dead cycle's image.
fn mark_four_in<R: Threads + Wait + Sync + AllocGlobal, G: Gate>(
    rt: &R,
    heap: &Heap,
    workers: u32,
    gate: &G,
) -> Result<bool, Fault> {
    let flags = marked_by(rt, heap, Weak::Keep, workers, gate)?;
    Ok(flags.as_slice() == DEAD_CYCLE_MARKS.as_slice())
}

/// Whether this many workers, who pass a gate, mark the four reachable objects of an image of six.
fn mark_four<R: Threads + Wait + Sync + AllocGlobal, G: Gate>(
    rt: &R,
    workers: u32,
    gate: &G,
) -> Result<bool, Fault> {
    let image = dead_cycle_image(rt.alloc())?;
    mark_four_in(rt, image.heap(), workers, gate)
}

/// Whether this many workers, who are held, mark those objects, and what a gate sees of them.
fn seen<R: Threads + Wait + Sync + AllocGlobal>(
    rt: &R,
    workers: u32,
    holds: &[Hold],
) -> Result<Seen, Fault> {
    let gate = TurnGate::new(Phase::Mark, holds);
    let are_marked = mark_four(rt, workers, &gate)?;
    Ok((are_marked, gate.turns_of_two(), gate.held()))
}

#[test]
fn same_marks_by_any_number_of_workers(rt: HostRuntime) -> Result<(), Fail> {
    for workers in [1, 2, 64] {
        assert!(rt; mark_four(&rt, workers, &OpenGate)?, "{workers} workers");
    }
    Ok(())
}

#[test]
fn two_workers_mark_at_one_time(rt: HostRuntime) -> Result<(), Fail> {
    let (are_marked, _, held) = seen(&rt, 2, &MEETING)?;
    assert_eq!(rt; (are_marked, held), (true, (2, 0)));
    Ok(())
}

/// Workers who mark, and what a gate sees of them.
struct Marking {
    name: &'static str,
    workers: u32,
    holds: &'static [Hold],
    /// How many turns the first two take, and how many are not the next one of their worker.
    turns: (u64, u64, u64),
    /// How often one is held.
    met: u64,
}

/// While one of two workers is held at its first turn the other one finds all objects, and takes
/// its last turn. So the one that is held had not begun to work.
const MARKINGS: &[Marking] = &[
    Marking {
        name: "a turn finds each of the four objects, and then 64 find none",
        workers: 1,
        holds: &[],
        turns: (68, 0, 0),
        met: 0,
    },
    Marking {
        name: "the first is held",
        workers: 2,
        holds: &FIRST_IS_HELD,
        turns: (64, 68, 0),
        met: 1,
    },
    Marking {
        name: "the second is held",
        workers: 2,
        holds: &[Hold {
            at: Turn { worker: 1, turn: 0 },
            until: Turn {
                worker: 0,
                turn: 67,
            },
        }],
        turns: (68, 64, 0),
        met: 1,
    },
];

#[test]
fn turns_of_workers(rt: HostRuntime) -> Result<(), Fail> {
    for case in MARKINGS {
        let found = seen(&rt, case.workers, case.holds)?;
        assert_eq!(rt; found, (true, case.turns, (case.met, 0)), "{}", case.name);
    }
    Ok(())
}
