//! Marking by workers who steal: what is marked, who won it, and who takes turns, as a gate sees
//! it.

ghost use Rattle.std.specs.Prelude.{◌≡◌, ◌≤◌, length, IfOk};
ghost use Rattle.sqz_image.specs.Objects.{object_count};

use super::cuts::{CutBy, cut_by};
use super::gates::{FIRST_IS_HELD, Hold, MEETING, Seen, Turn, TurnGate, turn_of};
use super::images::{FAN, chain_image, dead_cycle_image};
use super::tracing::{DEAD_CYCLE_MARKS, are_all, flags_of};
use sqz_image::{Fault, Image};
use sqz_marks::Workers;
use sqz_regions::Regions;
use sqz_test_fixtures::image_of;
use sqz_trace::Weak;
use sqz_workers::{Gate, Marked, OpenGate, Phase, mark};
use std::alloc::{AllocError, Global};
use std::test::Fail;
use std::thread::Threads;

/// What the marking of an image by this many workers, who pass a gate, returns.
fn marked_by<R: Threads + Sync + AllocGlobal, G: Gate>(
    rt: &R,
    image: &Image,
    by: CutBy,
    workers: u32,
    gate: &G,
) -> Result<Marked, Fault>
    ensures { IfOk result (λ marked. length marked.marks ≡ object_count image.now.memory) }
{
    let heap = image.heap();
    let workers = Workers::new(workers)?;
    let cut = cut_by(rt.alloc(), by)?;
    let regions = Regions::of(rt.alloc(), heap, &cut)?;
    mark(rt, rt.alloc(), heap, Weak::Keep, &regions, workers, gate)
}

/// The same. None unless those objects are marked that are reachable in the dead cycle's image.
fn marked_four_in<R: Threads + Sync + AllocGlobal, G: Gate>(
    rt: &R,
    image: &Image,
    by: CutBy,
    workers: u32,
    gate: &G,
) -> Result<Option<Marked>, Fault> {
    let marked = marked_by(rt, image, by, workers, gate)?;
    let flags = flags_of(rt.alloc(), image.heap(), &marked.marks)?;
    if flags.as_slice() == DEAD_CYCLE_MARKS.as_slice() {
        Ok(Some(marked))
    } else {
        Ok(None)
    }
}

/// What the marking of an image of six objects returns. None unless the four reachable ones are
/// marked.
fn marked_four<R: Threads + Sync + AllocGlobal, G: Gate>(
    rt: &R,
    by: CutBy,
    workers: u32,
    gate: &G,
) -> Result<Option<Marked>, Fault> {
    let image = dead_cycle_image(rt.alloc())?;
    marked_four_in(rt, &image, by, workers, gate)
}

/// How many objects were won, by the workers and outside of their turns.
fn won(marked: &Marked) -> u64 {
    let mut won = u64::from(marked.finished);
    for claim in &marked.claims {
        won = won.wrapping_add(u64::from(*claim));
    }
    won
}

/// Cuts of that image, and the live words of each region.
const LIVE_WORDS: &[(CutBy, &[u32])] = &[
    (CutBy::Every(1), &[1, 2, 0, 0, 0, 2, 0, 0, 0, 3, 0, 0]),
    (CutBy::Every(65536), &[8]),
    (CutBy::At(&[1, 3]), &[1, 2, 5]),
];

/// Whether the marking of that image by this many workers returns these live words, how many counts
/// of workers there are, and how many objects were won. None unless the reachable ones are marked.
fn counts<R: Threads + Sync + AllocGlobal>(
    rt: &R,
    by: CutBy,
    workers: u32,
    live_words: &[u32],
) -> Result<Option<(bool, usize, u64)>, Fault> {
    match marked_four(rt, by, workers, &OpenGate)? {
        Some(marked) => Ok(Some((
            marked.live_words.as_slice() == live_words,
            marked.claims.len(),
            won(&marked),
        ))),
        None => Ok(None),
    }
}

#[test]
fn live_words_of_each_region(rt: HostRuntime) -> Result<(), Fail> {
    for (k, (by, live_words)) in LIVE_WORDS.iter().enumerate() {
        for workers in [1, 2, 64] {
            let found = counts(&rt, *by, workers, live_words)?;
            assert_eq!(rt; found, Some((true, workers as usize, 4)), "cut {k}");
        }
    }
    Ok(())
}

/// Whether the workers won this many objects each, and the special objects array alone was won
/// outside of their turns.
pub(crate) fn have_won(marked: &Marked, claims: &[u32]) -> bool {
    marked.claims.as_slice() == claims && marked.finished == 1
}

/// Whether workers, at most 64, who pass a gate mark the four reachable objects, and win this many
/// each.
fn win<R: Threads + Sync + AllocGlobal>(
    rt: &R,
    gate: &TurnGate<'_>,
    claims: &[u32],
) -> Result<bool, Fault> {
    let workers = claims.len().min(64) as u32;
    match marked_four(rt, CutBy::Every(1), workers, gate)? {
        Some(marked) => Ok(have_won(&marked, claims)),
        None => Ok(false),
    }
}

/// Whether two workers who meet mark the four reachable objects, and how often they are held.
fn meet<R: Threads + Sync + AllocGlobal>(rt: &R) -> Result<(bool, (u64, u64)), Fault> {
    let gate = TurnGate::new(Phase::Mark, &MEETING);
    let marked = marked_four(rt, CutBy::Every(1), 2, &gate)?;
    Ok((marked.is_some(), gate.held()))
}

#[test]
fn two_workers_mark_at_one_time(rt: HostRuntime) -> Result<(), Fail> {
    assert_eq!(rt; meet(&rt)?, (true, (2, 0)));
    Ok(())
}

/// Workers who mark, and what a gate sees of them.
struct Marking {
    name: &'static str,
    /// How many objects each wins.
    claims: &'static [u32],
    holds: &'static [Hold],
    /// How many turns the first two take, and how many are not the next one of their worker.
    turns: (u64, u64, u64),
    /// How often one is held.
    met: u64,
}

/// The marking begins in the deque of the first worker. If that one is held at its first turn the
/// other one steals what is there, and marks all.
const MARKINGS: &[Marking] = &[
    Marking {
        name: "a turn takes each of the four objects, and then 64 find none",
        claims: &[3],
        holds: &[],
        turns: (68, 0, 0),
        met: 0,
    },
    Marking {
        name: "a worker marks all while the first is held",
        claims: &[0, 3],
        holds: &FIRST_IS_HELD,
        turns: (64, 68, 0),
        met: 1,
    },
];

/// Whether workers win what is wanted, and what a gate sees of them.
fn seen<R: Threads + Sync + AllocGlobal>(rt: &R, case: &Marking) -> Result<Seen, Fault> {
    let gate = TurnGate::new(Phase::Mark, case.holds);
    let win = win(rt, &gate, case.claims)?;
    Ok((win, gate.turns_of_two(), gate.held()))
}

#[test]
fn turns_of_workers(rt: HostRuntime) -> Result<(), Fail> {
    for case in MARKINGS {
        let found = seen(&rt, case)?;
        assert_eq!(rt; found, (true, case.turns, (case.met, 0)), "{}", case.name);
    }
    Ok(())
}

/// Whether two workers, who pass a gate, win this many objects of an image each.
fn win_in<R: Threads + Sync + AllocGlobal>(
    rt: &R,
    image: &Image,
    gate: &TurnGate<'_>,
    claims: &[u32],
) -> Result<bool, Fault> {
    let marked = marked_by(rt, image, CutBy::Every(1), 2, gate)?;
    Ok(marked.claims.as_slice() == claims)
}

/// Whether two workers, who pass a gate, win this many objects of the fan each.
fn win_fan<R: Threads + Sync + AllocGlobal>(
    rt: &R,
    gate: &TurnGate<'_>,
    claims: &[u32],
) -> Result<bool, Fault> {
    let image = image_of(rt.alloc(), &FAN)?;
    win_in(rt, &image, gate, claims)
}

/// Holds the first worker at this turn until the other has won the rest, which begins when the
/// first has come to it.
fn fan_holds(stop: u64) -> [Hold; 2] {
    [
        Hold {
            at: turn_of(0, stop),
            until: turn_of(1, 16),
        },
        Hold {
            at: turn_of(1, 0),
            until: turn_of(0, stop),
        },
    ]
}

/// Whether two workers, of whom the first is held at this turn, win this many objects of the fan
/// each, and how often they are held.
fn fan_seen<R: Threads + Sync + AllocGlobal>(
    rt: &R,
    stop: u64,
    claims: &[u32],
) -> Result<(bool, (u64, u64)), Fault> {
    let holds = fan_holds(stop);
    let gate = TurnGate::new(Phase::Mark, &holds);
    let win = win_fan(rt, &gate, claims)?;
    Ok((win, gate.held()))
}

/// At which turn the first worker is held, and how many objects each wins.
const FANS: &[(u64, [u32; 2])] = &[(1, [3, 7]), (2, [4, 6]), (3, [6, 4]), (4, [10, 0])];

/// A worker takes the objects of its own deque first in, first out: after the special objects array
/// the one that points to one object, then the one that points to two, and then the one that points
/// to four.
#[test]
fn worker_takes_first_what_it_won_first(rt: HostRuntime) -> Result<(), Fail> {
    for (stop, claims) in FANS {
        let found = fan_seen(&rt, *stop, claims)?;
        assert_eq!(rt; found, (true, (2, 0)), "stop {stop}");
    }
    Ok(())
}

/// The turn at which a worker of a chain stops. The second worker stops a turn later, since it
/// first takes the object at the lowest address, which points to none.
const fn stop_of(worker: u32) -> Turn {
    turn_of(worker, if worker == 1 { 2 } else { 1 })
}

/// Each worker but the last stops until the last one has come to its turn 8, and each but the first
/// begins when the one before it stops.
fn chain_holds(alloc: Global, last: u32) -> Result<Vec<Hold>, AllocError> {
    let mut holds = Vec::new(alloc);
    for worker in 0..last {
        let stop = stop_of(worker);
        holds.push(Hold {
            at: stop,
            until: turn_of(last, 8),
        })?;
        holds.push(Hold {
            at: turn_of(worker + 1, 0),
            until: stop,
        })?;
    }
    Ok(holds)
}

/// Whether workers, at most 64, who pass a gate mark all objects of a chain of this many, and win
/// this many each.
pub(crate) fn win_chain<R: Threads + Sync + AllocGlobal>(
    rt: &R,
    count: u32,
    by: CutBy,
    gate: &TurnGate<'_>,
    claims: &[u32],
) -> Result<bool, Fault>
    requires { count ≤ 6000 }
{
    let image = chain_image(rt.alloc(), count)?;
    Ok(image.heap().len() == count + 2 && win_all(rt, &image, by, gate, claims)?)
}

/// Whether workers, at most 64, who pass a gate mark all objects of an image, and win this many
/// each.
fn win_all<R: Threads + Sync + AllocGlobal>(
    rt: &R,
    image: &Image,
    by: CutBy,
    gate: &TurnGate<'_>,
    claims: &[u32],
) -> Result<bool, Fault> {
    let workers = claims.len().min(64) as u32;
    let marked = marked_by(rt, image, by, workers, gate)?;
    let flags = flags_of(rt.alloc(), image.heap(), &marked.marks)?;
    Ok(are_all(&flags, image.heap().len() as usize) && have_won(&marked, claims))
}

/// Whether workers win this many objects each of a chain of as many as there are workers, and how
/// often they are held.
fn along_chain<R: Threads + Sync + AllocGlobal>(
    rt: &R,
    claims: &[u32],
) -> Result<(bool, (u64, u64)), Fault> {
    let count = claims.len().min(64) as u32;
    let holds = chain_holds(rt.alloc(), count.saturating_sub(1))?;
    let gate = TurnGate::new(Phase::Mark, &holds);
    let win = win_chain(rt, count, CutBy::Every(1), &gate, claims)?;
    Ok((win, gate.held()))
}

/// How many objects each worker of a chain wins, and how often they are held.
const CHAINS: &[(&[u32], u64)] = &[
    (&[2, 1], 2),
    (&[2, 1, 1], 4),
    (&[2, 1, 1, 1, 1, 1, 1, 1], 14),
];

/// In a chain of objects each worker steals one from the worker before it, and wins the next.
#[test]
fn workers_steal_along_a_chain(rt: HostRuntime) -> Result<(), Fail> {
    for (claims, met) in CHAINS {
        let found = along_chain(&rt, claims)?;
        assert_eq!(rt; found, (true, (*met, 0)), "held {met} times");
    }
    Ok(())
}
