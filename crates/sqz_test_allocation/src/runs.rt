//! A whole run, under allocation failures.

use super::again::{own, print_refused};
use super::dead_cycle::{new_cut, new_sink};
use super::rows::{DEAD_CYCLE, ROWS, Row};
use sqz_image::{Fault, MemorySink, MemorySource, ReadSource};
use sqz_marks::Workers;
use sqz_regions::Cut;
use sqz_tool::{Plan, Summary, run};
use sqz_trace::Weak;
use sqz_workers::OpenGate;
use std::process::Abort;
use std::test::Fail;
use std::thread::Threads;

/// A run over the dead cycle's file.
fn run_once<R: Threads + Sync + AllocGlobal>(
    rt: &R,
    plan: &Plan,
    sink: &mut MemorySink,
    report: &mut MemorySink,
) -> Result<Summary, Fault> {
    let mut source = ReadSource::new(DEAD_CYCLE.file);
    run(rt, rt.alloc(), plan, &mut source, sink, report, &OpenGate)
}

/// A run over the dead cycle's file. After an allocation failure, asserts that nothing was written,
/// and makes the run again with a new source and the same sinks.
fn run_again<R: Threads + Sync + Abort + Print + AllocGlobal>(
    rt: &R,
    plan: &Plan,
    sink: &mut MemorySink,
    report: &mut MemorySink,
) -> Result<Summary, Fail> {
    match run_once(rt, plan, sink, report) {
        Err(Fault::OutOfMemory) => {
            print_refused(rt, "run")?;
            assert!(rt; sink.contents().is_empty() && report.contents().is_empty());
            Ok(run_once(rt, plan, sink, report)?)
        }
        made => Ok(made?),
    }
}

/// Asserts what a run over an image by a plan returns and writes. `taken` are the bytes that the
/// sinks of the image and of the census took.
fn assert_gives<R: Abort>(
    rt: &R,
    plan: &Plan,
    row: &Row,
    answer: Result<Summary, Fault>,
    taken: (&[u8], &[u8]),
) {
    let weak = plan.weak;
    let found = (answer, taken.0, taken.1);
    let wanted = (Ok(row.summary), row.answer, row.census.as_bytes());
    assert_eq!(rt; found, wanted, "{weak:?}");
}

/// Asserts what a run by a plan returns that is made again with the same sinks.
fn assert_serves<R: Threads + Sync + Abort + Print + AllocGlobal>(
    rt: &R,
    plan: &Plan,
) -> Result<(), Fail> {
    let mut sink = new_sink(rt)?;
    let mut report = new_sink(rt)?;
    let summary = run_again(rt, plan, &mut sink, &mut report)?;
    let taken = (sink.contents(), report.contents());
    assert_gives(rt, plan, &DEAD_CYCLE, Ok(summary), taken);
    Ok(())
}

#[test]
fn run_serves_again(rt: HostRuntime) -> Result<(), Fail> {
    for weak in [Weak::Keep, Weak::Clear] {
        let plan = Plan {
            workers: Workers::new(2)?,
            cut: new_cut(&rt)?,
            weak,
            census: true,
        };
        assert_serves(&rt, &plan)?;
    }
    Ok(())
}

/// The devices of a run: where the image comes from, and where what is left of it and its census
/// go.
#[derive(Drop)]
struct Devices {
    source: MemorySource,
    sink: MemorySink,
    report: MemorySink,
}

/// Devices that do not fail, over an image's file.
fn new_devices<R: Print + AllocGlobal>(rt: &R, file: &[u8]) -> Result<Devices, Fail> {
    Ok(Devices {
        source: MemorySource::new(own!(rt, Vec::from_slice(rt.alloc(), file)), 40, None),
        sink: new_sink(rt)?,
        report: new_sink(rt)?,
    })
}

/// A run from and to these devices.
fn run_with<R: Threads + Sync + AllocGlobal>(
    rt: &R,
    plan: &Plan,
    devices: &mut Devices,
) -> Result<Summary, Fault> {
    run(
        rt,
        rt.alloc(),
        plan,
        &mut devices.source,
        &mut devices.sink,
        &mut devices.report,
        &OpenGate,
    )
}

/// Asserts what a run over an image gives from and to new devices.
fn assert_runs<R: Threads + Sync + Abort + Print + AllocGlobal>(
    rt: &R,
    plan: &Plan,
    row: &Row,
) -> Result<(), Fail> {
    let mut devices = new_devices(rt, row.file)?;
    let answer = run_with(rt, plan, &mut devices);
    let taken = (devices.sink.contents(), devices.report.contents());
    assert_gives(rt, plan, row, answer, taken);
    Ok(())
}

/// Asserts what a run over an image gives from and to new devices. After an allocation failure,
/// asserts that nothing was written, and makes the run again over new devices.
fn assert_row<R: Threads + Sync + Abort + Print + AllocGlobal>(
    rt: &R,
    plan: &Plan,
    row: &Row,
) -> Result<(), Fail> {
    let mut devices = new_devices(rt, row.file)?;
    let answer = run_with(rt, plan, &mut devices);
    if answer == Err(Fault::OutOfMemory) {
        print_refused(rt, "run")?;
        assert!(rt; devices.sink.contents().is_empty() && devices.report.contents().is_empty());
        return assert_runs(rt, plan, row);
    }
    let taken = (devices.sink.contents(), devices.report.contents());
    assert_gives(rt, plan, row, answer, taken);
    Ok(())
}

#[test]
fn run_serves_over_new_devices(rt: HostRuntime) -> Result<(), Fail> {
    for workers in [1, 2] {
        let plan = Plan {
            workers: Workers::new(workers)?,
            cut: Cut::every(4)?,
            weak: Weak::Keep,
            census: true,
        };
        for row in &ROWS {
            assert_row(&rt, &plan, row)?;
        }
    }
    Ok(())
}
