//! Runs by workers one of whom is held: they write the same as runs in which none is.

use super::runs::{Input, Outcome, SOUND, assert_bytes_by, plan_by, run_over, run_past};
use sqz_test_fixtures::accepted::{DEAD_CYCLE, DEAD_CYCLE_ANSWER};
use sqz_test_fixtures::file_of;
use sqz_tool::Plan;
use sqz_trace::Weak;
use sqz_workers::{Gate, Phase};
use std::process::Abort;
use std::sync::Wait;
use std::sync::atomic::{AtomicU64, Ordering};
use std::test::Fail;
use std::thread::{self, Threads};

/// How often a worker that is held lets others go on.
const YIELDS: u32 = 10_000;

/// A gate that holds the first worker at its first turn of marking, and counts how often it let it
/// through after that.
#[derive(Drop)]
struct HoldingGate {
    held: AtomicU64,
}

impl Gate for HoldingGate {
    fn pass(&self, phase: Phase, worker: u32, turn: u64) {
        if phase == Phase::Mark && worker == 0 && turn == 0 {
            for _ in 0..YIELDS {
                thread::yield_now();
            }
            self.held.fetch_add(1, Ordering::SeqCst);
        }
    }
}

/// What workers do if none is held.
fn run_open<R: Threads + Wait + Sync + AllocGlobal>(rt: &R, plan: &Plan) -> Result<Outcome, Fail> {
    run_over(
        rt,
        rt.alloc(),
        plan,
        file_of(rt.alloc(), &DEAD_CYCLE)?,
        &SOUND,
    )
}

/// What workers do who pass this gate.
fn run_past_gate<R: Threads + Sync + AllocGlobal>(
    rt: &R,
    plan: &Plan,
    gate: &HoldingGate,
) -> Result<Outcome, Fail> {
    let file = file_of(rt.alloc(), &DEAD_CYCLE)?;
    let devices = &SOUND;
    run_past(rt, rt.alloc(), plan, Input { file, devices }, gate)
}

/// What workers do if the first is held once.
fn run_held<R: Threads + Sync + Abort + AllocGlobal>(rt: &R, plan: &Plan) -> Result<Outcome, Fail> {
    let gate = HoldingGate {
        held: AtomicU64::new(0),
    };
    let outcome = run_past_gate(rt, plan, &gate)?;
    assert_held_once(rt, plan.workers.number(), &gate);
    Ok(outcome)
}

/// Asserts that a gate held one of this many workers once.
fn assert_held_once<R: Abort>(rt: &R, workers: u32, gate: &HoldingGate) {
    let held = gate.held.load(Ordering::SeqCst);
    assert_eq!(rt; (workers, held), (workers, 1));
}

/// Asserts that runs with this many workers wrote this image, and the same census.
fn assert_same<R: Abort>(rt: &R, workers: u32, open: &Outcome, held: &Outcome, wanted: &[u8]) {
    assert_bytes_by(rt, workers, &open.image, wanted);
    assert_bytes_by(rt, workers, &held.image, &open.image);
    assert_bytes_by(rt, workers, &held.census, &open.census);
    assert_eq!(rt; (workers, held.answer), (workers, open.answer));
}

/// Asserts that workers write this image, and the same census, whether the first is held or not.
fn assert_same_where_held<R: Threads + Wait + Sync + Abort + AllocGlobal>(
    rt: &R,
    plan: &Plan,
    wanted: &[u8],
) -> Result<(), Fail> {
    let open = run_open(rt, plan)?;
    let held = run_held(rt, plan)?;
    assert_same(rt, plan.workers.number(), &open, &held, wanted);
    Ok(())
}

/// Asserts it for this many workers.
fn assert_same_by<R: Threads + Wait + Sync + Abort + AllocGlobal>(
    rt: &R,
    workers: u32,
) -> Result<(), Fail> {
    let wanted = file_of(rt.alloc(), &DEAD_CYCLE_ANSWER)?;
    assert_same_where_held(rt, &plan_by(workers, 1, Weak::Keep)?, &wanted)
}

#[test]
fn same_answer_where_the_first_worker_is_held(rt: HostRuntime) -> Result<(), Fail> {
    for workers in [1, 2, 64] {
        assert_same_by(&rt, workers)?;
    }
    Ok(())
}
