//! A run over a file in memory, and what it is to do.

use sqz_image::{Fault, MemorySink, MemorySource};
use sqz_marks::Workers;
use sqz_object::Order;
use sqz_regions::Cut;
use sqz_test_fixtures::{TestImage, file_in};
use sqz_tool::{Plan, Summary, run};
use sqz_trace::Weak;
use sqz_workers::{Gate, OpenGate};
use std::alloc::{AllocError, Global};
use std::process::Abort;
use std::sync::Wait;
use std::test::Fail;
use std::thread::Threads;

/// How the devices of a run behave: how many bytes the source gives at once, at least one, at which
/// call each device fails, if at all, and how many bytes the sinks take.
#[derive(Clone, Copy)]
pub(crate) struct Devices {
    pub piece: u32,
    pub source_fails: Option<u64>,
    pub image_fails: Option<u64>,
    pub image_room: u32,
    pub census_fails: Option<u64>,
    pub census_room: u32,
}

/// Devices that do not fail.
pub(crate) const SOUND: Devices = Devices {
    piece: 40,
    source_fails: None,
    image_fails: None,
    image_room: 4096,
    census_fails: None,
    census_room: 4096,
};

/// What a run returns, and the bytes that it wrote.
#[derive(Drop)]
pub(crate) struct Outcome {
    pub answer: Result<Summary, Fault>,
    pub image: Vec<u8>,
    pub census: Vec<u8>,
}

/// A plan with two workers and regions of 65536 words.
pub(crate) fn plan_of(weak: Weak, census: bool) -> Result<Plan, Fault> {
    Ok(Plan {
        workers: Workers::new(2)?,
        cut: Cut::every(65_536)?,
        weak,
        census,
    })
}

/// A plan with this many workers, regions of this many words, and a census.
pub(crate) fn plan_by(workers: u32, words: u32, weak: Weak) -> Result<Plan, Fault> {
    Ok(Plan {
        workers: Workers::new(workers)?,
        cut: Cut::every(words)?,
        weak,
        census: true,
    })
}

/// The plans by 1, 2 and 64 workers, in regions of one word, of 65536 words and of all words, with
/// a census.
pub(crate) fn nine_plans(alloc: Global, weak: Weak) -> Result<Vec<Plan>, Fault> {
    let mut plans = Vec::new(alloc);
    for workers in [1, 2, 64] {
        for words in [1, 65_536, 1 << 30] {
            plans.push(plan_by(workers, words, weak)?)?;
        }
    }
    Ok(plans)
}

/// A run over a file.
pub(crate) fn run_over<R: Threads + Wait + Sync>(
    rt: &R,
    alloc: Global,
    plan: &Plan,
    file: Vec<u8>,
    devices: &Devices,
) -> Result<Outcome, Fail> {
    run_past(rt, alloc, plan, Input { file, devices }, &OpenGate)
}

/// A file, and the devices that it is read from and written to.
#[derive(Drop)]
pub(crate) struct Input<'a> {
    pub file: Vec<u8>,
    pub devices: &'a Devices,
}

/// A run over a file by workers that pass a gate.
pub(crate) fn run_past<R: Threads + Sync, G: Gate>(
    rt: &R,
    alloc: Global,
    plan: &Plan,
    input: Input<'_>,
    gate: &G,
) -> Result<Outcome, Fail> {
    let Input { file, devices } = input;
    let mut source = MemorySource::new(file, devices.piece.max(1), devices.source_fails);
    let mut sink = MemorySink::new(alloc, devices.image_room, devices.image_fails)?;
    let mut report = MemorySink::new(alloc, devices.census_room, devices.census_fails)?;
    let answer = run(rt, alloc, plan, &mut source, &mut sink, &mut report, gate);
    Ok(outcome_of(alloc, answer, &sink, &report)?)
}

/// What a run returned, and the bytes that its sinks took.
fn outcome_of(
    alloc: Global,
    answer: Result<Summary, Fault>,
    sink: &MemorySink,
    report: &MemorySink,
) -> Result<Outcome, AllocError> {
    Ok(Outcome {
        answer,
        image: Vec::from_slice(alloc, sink.contents())?,
        census: Vec::from_slice(alloc, report.contents())?,
    })
}

/// A run over a file by two workers, with devices that do not fail.
pub(crate) fn run_by_two<R: Threads + Wait + Sync + AllocGlobal>(
    rt: &R,
    weak: Weak,
    census: bool,
    file: Vec<u8>,
) -> Result<Outcome, Fail> {
    let plan = plan_of(weak, census)?;
    run_over(rt, rt.alloc(), &plan, file, &SOUND)
}

/// Asserts that a run over a file writes this image and no census.
pub(crate) fn assert_writes<R: Threads + Wait + Sync + Abort + AllocGlobal>(
    rt: &R,
    weak: Weak,
    file: Vec<u8>,
    wanted: &[u8],
) -> Result<Summary, Fail> {
    let outcome = run_by_two(rt, weak, false, file)?;
    assert_wrote(rt, &outcome, wanted);
    Ok(outcome.answer?)
}

/// Asserts that a run wrote this image and no census.
fn assert_wrote<R: Abort>(rt: &R, outcome: &Outcome, wanted: &[u8]) {
    assert_bytes(rt, &outcome.image, wanted);
    assert_bytes(rt, &outcome.census, &[]);
}

/// Asserts that bytes are these.
pub(crate) fn assert_bytes<R: Abort>(rt: &R, bytes: &[u8], wanted: &[u8]) {
    assert_eq!(rt; bytes, wanted);
}

/// Asserts that the bytes that this many workers wrote are these.
pub(crate) fn assert_bytes_by<R: Abort>(rt: &R, workers: u32, bytes: &[u8], wanted: &[u8]) {
    assert_eq!(rt; bytes, wanted, "with {workers} workers");
}

/// What a run is to write.
#[derive(Clone, Copy)]
pub(crate) struct Written<'a> {
    pub image: &'a [u8],
    pub census: &'a str,
}

/// Asserts what a run by a plan, with these devices, writes.
pub(crate) fn assert_writes_both<R: Threads + Wait + Sync + Abort + AllocGlobal>(
    rt: &R,
    plan: &Plan,
    devices: &Devices,
    file: Vec<u8>,
    wanted: Written<'_>,
) -> Result<(), Fail> {
    let outcome = run_over(rt, rt.alloc(), plan, file, devices)?;
    assert_wrote_both(rt, plan.workers.number(), &outcome, wanted);
    Ok(())
}

/// Asserts what a run with this many workers wrote.
fn assert_wrote_both<R: Abort>(rt: &R, workers: u32, outcome: &Outcome, wanted: Written<'_>) {
    assert_eq!(rt; (workers, outcome.answer.is_ok()), (workers, true));
    assert_bytes_by(rt, workers, &outcome.image, wanted.image);
    assert_bytes_by(rt, workers, &outcome.census, wanted.census.as_bytes());
}

/// Asserts that a run over a file is refused with this fault, and writes nothing.
pub(crate) fn assert_refused<R: Threads + Wait + Sync + Abort + AllocGlobal>(
    rt: &R,
    weak: Weak,
    file: Vec<u8>,
    fault: Fault,
) -> Result<(), Fail> {
    assert_refused_by(rt, &plan_of(weak, true)?, file, fault)
}

/// Asserts that a run by a plan is refused with this fault, and writes nothing.
pub(crate) fn assert_refused_by<R: Threads + Wait + Sync + Abort + AllocGlobal>(
    rt: &R,
    plan: &Plan,
    file: Vec<u8>,
    fault: Fault,
) -> Result<(), Fail> {
    let outcome = run_over(rt, rt.alloc(), plan, file, &SOUND)?;
    assert_wrote_nothing(rt, &outcome, fault);
    Ok(())
}

/// Asserts that a run was refused with this fault, and wrote nothing.
fn assert_wrote_nothing<R: Abort>(rt: &R, outcome: &Outcome, fault: Fault) {
    assert_eq!(rt;
        (outcome.answer, outcome.image.len(), outcome.census.len()),
        (Err(fault), 0, 0)
    );
}

/// Asserts that an image is compacted to another, with words in this order.
fn assert_compacts_in<R: Threads + Wait + Sync + Abort + AllocGlobal>(
    rt: &R,
    order: Order,
    weak: Weak,
    image: &TestImage,
    answer: &TestImage,
) -> Result<(), Fail> {
    let wanted = file_in(rt.alloc(), order, answer)?;
    assert_writes(rt, weak, file_in(rt.alloc(), order, image)?, &wanted)?;
    Ok(())
}

/// Asserts that an image is compacted to another, in either byte order.
pub(crate) fn assert_compacts<R: Threads + Wait + Sync + Abort + AllocGlobal>(
    rt: &R,
    weak: Weak,
    image: &TestImage,
    answer: &TestImage,
) -> Result<(), Fail> {
    for order in [Order::Little, Order::Big] {
        assert_compacts_in(rt, order, weak, image, answer)?;
    }
    Ok(())
}

/// Asserts that a run over an image is refused with this fault in either byte order, and writes
/// nothing.
pub(crate) fn assert_image_refused<R: Threads + Wait + Sync + Abort + AllocGlobal>(
    rt: &R,
    weak: Weak,
    image: &TestImage,
    fault: Fault,
) -> Result<(), Fail> {
    for order in [Order::Little, Order::Big] {
        assert_refused(rt, weak, file_in(rt.alloc(), order, image)?, fault)?;
    }
    Ok(())
}
