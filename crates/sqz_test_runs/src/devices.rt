//! Devices that fail in the midst of a run: at each call in turn, and at each number of bytes.

use super::prefixes::file_behind;
use super::runs::{
    Devices, Outcome, SOUND, Written, assert_bytes, assert_writes_both, plan_by, run_over,
};
use sqz_image::Fault;
use sqz_test_fixtures::TestImage;
use sqz_test_fixtures::accepted::{DEAD_ARRAY, NIL_ALONE, NIL_ALONE_CENSUS};
use sqz_test_fixtures::with_classes::{CLASS_NAMES, CLASS_NAMES_CENSUS};
use sqz_tool::Plan;
use sqz_trace::Weak;
use std::alloc::{AllocError, Global};
use std::process::Abort;
use std::sync::Wait;
use std::test::Fail;
use std::thread::Threads;

/// More calls than a run makes of a sink that takes these images.
const MOST_CALLS: u64 = 20;

/// The bytes of a file, and what a run over it is to write: the image, and the text of the census.
#[derive(Drop)]
struct Case {
    file: Vec<u8>,
    image: Vec<u8>,
    text: &'static str,
}

/// An image, how many bytes are before it, what it is compacted to, and the text of the census.
struct Sample {
    before: usize,
    image: TestImage,
    answer: TestImage,
    text: &'static str,
}

/// A dead array, the same after 512 bytes, and an image that is compacted to itself.
const SAMPLES: &[Sample] = &[
    Sample {
        before: 0,
        image: DEAD_ARRAY,
        answer: NIL_ALONE,
        text: NIL_ALONE_CENSUS,
    },
    Sample {
        before: 512,
        image: DEAD_ARRAY,
        answer: NIL_ALONE,
        text: NIL_ALONE_CENSUS,
    },
    Sample {
        before: 0,
        image: CLASS_NAMES,
        answer: CLASS_NAMES,
        text: CLASS_NAMES_CENSUS,
    },
];

/// The samples. Each function that refers to the constant itself holds all of it, and its check
/// takes that long again.
fn samples() -> &'static [Sample] {
    SAMPLES
}

/// The case of a sample.
fn case_of(alloc: Global, sample: &Sample) -> Result<Case, AllocError> {
    let file = file_behind(alloc, sample.before, &sample.image)?;
    let image = file_behind(alloc, sample.before, &sample.answer)?;
    Ok(Case {
        file,
        image,
        text: sample.text,
    })
}

/// A plan by one worker, and one by two. In regions of one word each object is written by a call of
/// its own.
fn two_plans() -> Result<[Plan; 2], Fault> {
    Ok([plan_by(1, 1, Weak::Keep)?, plan_by(2, 65_536, Weak::Keep)?])
}

/// A sink of a run.
#[derive(Clone, Copy)]
enum Output {
    Image,
    Census,
}

/// Devices whose sink of this kind fails at a call.
fn failing_at(output: Output, call: u64) -> Devices {
    match output {
        Output::Image => Devices {
            image_fails: Some(call),
            ..SOUND
        },
        Output::Census => Devices {
            census_fails: Some(call),
            ..SOUND
        },
    }
}

/// Devices whose sink of this kind has room for this many bytes.
fn with_room(output: Output, room: u32) -> Devices {
    match output {
        Output::Image => Devices {
            image_room: room,
            ..SOUND
        },
        Output::Census => Devices {
            census_room: room,
            ..SOUND
        },
    }
}

/// What a run over a case's file does.
fn run_case<R: Threads + Wait + Sync + AllocGlobal>(
    rt: &R,
    plan: &Plan,
    devices: &Devices,
    case: &Case,
) -> Result<Outcome, Fail> {
    let file = Vec::from_slice(rt.alloc(), &case.file)?;
    run_over(rt, rt.alloc(), plan, file, devices)
}

/// Asserts that a run with these devices writes all.
fn assert_whole<R: Threads + Wait + Sync + Abort + AllocGlobal>(
    rt: &R,
    plan: &Plan,
    devices: &Devices,
    case: &Case,
) -> Result<(), Fail> {
    let file = Vec::from_slice(rt.alloc(), &case.file)?;
    let wanted = Written {
        image: &case.image,
        census: case.text,
    };
    assert_writes_both(rt, plan, devices, file, wanted)
}

/// The first bytes of these, this many, or all of them if they are fewer.
fn first(bytes: &[u8], count: usize) -> &[u8] {
    &bytes[..count.min(bytes.len())]
}

/// Asserts that a run could not write this sink, and that this many bytes went there: no byte of
/// the census before the whole image.
fn assert_stopped<R: Abort>(rt: &R, case: &Case, outcome: &Outcome, output: Output, count: usize) {
    let (image_count, text_count) = match output {
        Output::Image => (count, 0),
        Output::Census => (case.image.len(), count),
    };
    assert_eq!(rt; outcome.answer, Err(Fault::WriteFailed));
    assert_bytes(rt, &outcome.image, first(&case.image, image_count));
    let text = first(case.text.as_bytes(), text_count);
    assert_bytes(rt, &outcome.census, text);
}

/// How many bytes went to this sink.
fn count_written(outcome: &Outcome, output: Output) -> usize {
    match output {
        Output::Image => outcome.image.len(),
        Output::Census => outcome.census.len(),
    }
}

/// How many bytes this sink takes in a run that nothing stops.
fn count_wanted(case: &Case, output: Output) -> usize {
    match output {
        Output::Image => case.image.len(),
        Output::Census => case.text.len(),
    }
}

/// How many bytes went to this sink in a run that was stopped, and none if it was not.
fn count_stopped<R: Abort>(
    rt: &R,
    case: &Case,
    outcome: &Outcome,
    output: Output,
) -> Option<usize> {
    if outcome.answer.is_ok() {
        return None;
    }
    let written = count_written(outcome, output);
    assert_stopped(rt, case, outcome, output, written);
    Some(written)
}

/// How many bytes go to this sink in a run that is stopped at this call of it. Returns `None` if
/// the call does not come, and the run writes all.
fn written_until<R: Threads + Wait + Sync + Abort + AllocGlobal>(
    rt: &R,
    plan: &Plan,
    case: &Case,
    output: Output,
    call: u64,
) -> Result<Option<usize>, Fail> {
    let devices = failing_at(output, call);
    let written = count_stopped(rt, case, &run_case(rt, plan, &devices, case)?, output);
    if written.is_none() {
        assert_whole(rt, plan, &devices, case)?;
    }
    Ok(written)
}

/// Asserts that a run is stopped at each call of this sink, and writes all if no call fails. At
/// least one call comes before the flush, which is the last and fails with all written.
fn assert_each_call<R: Threads + Wait + Sync + Abort + AllocGlobal>(
    rt: &R,
    plan: &Plan,
    case: &Case,
    output: Output,
) -> Result<(), Fail> {
    let mut calls = 0;
    let mut last = 0;
    for call in 0..MOST_CALLS {
        if let Some(written) = written_until(rt, plan, case, output, call)? {
            assert_eq!(rt; calls, call);
            calls = call + 1;
            last = written;
        }
    }
    assert_flushed(rt, calls, last, count_wanted(case, output));
    Ok(())
}

/// Asserts that this many calls are at least two, and fewer than the most, and that all was written
/// before the last.
fn assert_flushed<R: Abort>(rt: &R, calls: u64, written: usize, wanted: usize) {
    assert!(rt; 2 <= calls && calls < MOST_CALLS);
    assert_eq!(rt; written, wanted);
}

/// Asserts that a run is stopped if this sink has room for fewer bytes than it is to take, and
/// fills it.
fn assert_each_room<R: Threads + Wait + Sync + Abort + AllocGlobal>(
    rt: &R,
    plan: &Plan,
    case: &Case,
    output: Output,
) -> Result<(), Fail> {
    let wanted = count_wanted(case, output);
    assert!(rt; wanted <= 4096);
    for room in 0..wanted as u32 {
        let outcome = run_case(rt, plan, &with_room(output, room), case)?;
        assert_stopped(rt, case, &outcome, output, room as usize);
    }
    assert_whole(rt, plan, &with_room(output, wanted as u32), case)
}

/// Asserts it of both sinks, by both plans.
fn assert_calls_by_both<R: Threads + Wait + Sync + Abort + AllocGlobal>(
    rt: &R,
    case: &Case,
) -> Result<(), Fail> {
    for plan in &two_plans()? {
        assert_each_call(rt, plan, case, Output::Image)?;
        assert_each_call(rt, plan, case, Output::Census)?;
    }
    Ok(())
}

#[test]
fn each_call_of_a_sink(rt: HostRuntime) -> Result<(), Fail> {
    for sample in samples() {
        assert_calls_by_both(&rt, &case_of(rt.alloc(), sample)?)?;
    }
    Ok(())
}

/// Asserts it of both sinks, by both plans.
fn assert_rooms_by_both<R: Threads + Wait + Sync + Abort + AllocGlobal>(
    rt: &R,
    case: &Case,
) -> Result<(), Fail> {
    for plan in &two_plans()? {
        assert_each_room(rt, plan, case, Output::Image)?;
        assert_each_room(rt, plan, case, Output::Census)?;
    }
    Ok(())
}

#[test]
fn each_room_of_a_sink(rt: HostRuntime) -> Result<(), Fail> {
    for sample in samples() {
        assert_rooms_by_both(&rt, &case_of(rt.alloc(), sample)?)?;
    }
    Ok(())
}

/// How many reads a run makes of a file in pieces of this many bytes: one for each piece, and one
/// that gives none.
fn count_reads<R: Abort>(rt: &R, file: &[u8], piece: u32) -> u64 {
    assert!(rt; 0 < piece && file.len() <= 4096);
    file.len().div_ceil(piece as usize) as u64 + 1
}

/// Devices whose source gives this many bytes at once, and fails at this read, if at all.
fn source_failing_at(piece: u32, source_fails: Option<u64>) -> Devices {
    Devices {
        piece,
        source_fails,
        ..SOUND
    }
}

/// Asserts that a run is refused if this read fails.
fn assert_read_refused<R: Threads + Wait + Sync + Abort + AllocGlobal>(
    rt: &R,
    plan: &Plan,
    case: &Case,
    piece: u32,
    read: u64,
) -> Result<(), Fail> {
    let outcome = run_case(rt, plan, &source_failing_at(piece, Some(read)), case)?;
    assert_eq!(rt;
        (
            read,
            outcome.answer,
            outcome.image.len(),
            outcome.census.len()
        ),
        (read, Err(Fault::ReadFailed), 0, 0)
    );
    Ok(())
}

/// Asserts that a run is refused at each read that fails, and writes all if none does.
fn assert_each_read<R: Threads + Wait + Sync + Abort + AllocGlobal>(
    rt: &R,
    plan: &Plan,
    case: &Case,
    piece: u32,
) -> Result<(), Fail> {
    let reads = count_reads(rt, &case.file, piece);
    for read in 0..reads {
        assert_read_refused(rt, plan, case, piece, read)?;
    }
    for source_fails in [Some(reads), Some(u64::MAX), None] {
        assert_whole(rt, plan, &source_failing_at(piece, source_fails), case)?;
    }
    Ok(())
}

/// Asserts it of both plans, and of pieces of one byte and of 40.
fn assert_reads_by_both<R: Threads + Wait + Sync + Abort + AllocGlobal>(
    rt: &R,
    case: &Case,
) -> Result<(), Fail> {
    for plan in &two_plans()? {
        assert_each_read(rt, plan, case, 1)?;
        assert_each_read(rt, plan, case, 40)?;
    }
    Ok(())
}

#[test]
fn each_read_of_a_source(rt: HostRuntime) -> Result<(), Fail> {
    for sample in samples() {
        assert_reads_by_both(&rt, &case_of(rt.alloc(), sample)?)?;
    }
    Ok(())
}
