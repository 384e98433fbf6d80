//! A chain of more objects than the turns that a worker has besides those for each object: one
//! worker marks all of it.

use super::cuts::CutBy;
use super::gates::TurnGate;
use super::images::chain_image;
use super::marking::marked_by;
use super::stealing::win_chain;
use super::tracing::are_all;
use sqz_image::{Fault, Heap};
use sqz_trace::Weak;
use sqz_workers::Phase;
use std::sync::Wait;
use std::test::Fail;
use std::thread::Threads;

/// How many objects are on the chain.
const CHAINED: u32 = 5999;

/// A turn of the worker takes each object, in their order, and 64 find none.
const TURNS: (u64, u64, u64) = (6065, 0, 0);

/// Whether one worker marks all objects and wins each but the special objects array, and its turns.
fn stolen<R: Threads + Sync + AllocGlobal>(rt: &R) -> Result<(bool, (u64, u64, u64)), Fault> {
    let gate = TurnGate::new(Phase::Mark, &[]);
    let win = win_chain(rt, CHAINED, CutBy::Every(64), &gate, &[6000])?;
    Ok((win, gate.turns_of_two()))
}

/// The worker wins each object but the special objects array, and leaves none to the thread that
/// called.
#[test]
fn one_worker_wins_all(rt: HostRuntime) -> Result<(), Fail> {
    assert_eq!(rt; stolen(&rt)?, (true, TURNS));
    Ok(())
}

/// Whether one worker marks all objects of a heap under a lock, and its turns.
fn locked_in<R: Threads + Wait + Sync + AllocGlobal>(
    rt: &R,
    heap: &Heap,
) -> Result<(bool, (u64, u64, u64)), Fault> {
    let gate = TurnGate::new(Phase::Mark, &[]);
    let flags = marked_by(rt, heap, Weak::Keep, 1, &gate)?;
    Ok((are_all(&flags, 6001), gate.turns_of_two()))
}

/// The same, for the chain.
fn locked<R: Threads + Wait + Sync + AllocGlobal>(
    rt: &R,
) -> Result<(bool, (u64, u64, u64)), Fault> {
    let image = chain_image(rt.alloc(), CHAINED)?;
    locked_in(rt, image.heap())
}

/// A turn takes each object, and then 64 find none: the worker leaves none to the thread that
/// called.
#[test]
fn one_worker_takes_a_turn_for_each_object_under_a_lock(rt: HostRuntime) -> Result<(), Fail> {
    assert_eq!(rt; locked(&rt)?, (true, TURNS));
    Ok(())
}
