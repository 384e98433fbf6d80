//! Runs over what a run has written: they write the same once more.

use super::prefixes::{behind, with_tail};
use super::runs::{Outcome, SOUND, assert_bytes, assert_writes, run_by_two, run_over};
use sqz_image::Fault;
use sqz_marks::Workers;
use sqz_regions::Cut;
use sqz_test_fixtures::accepted::NIL_ALONE;
use sqz_test_fixtures::{Contents, WorkedImage, file_of, worked_tables};
use sqz_tool::{Plan, Summary};
use sqz_trace::Weak;
use std::alloc::{AllocError, Global};
use std::process::Abort;
use std::sync::Wait;
use std::test::Fail;
use std::thread::Threads;

/// A plan for the second run: another number of workers, a region for each word, and a census.
fn other_plan(weak: Weak) -> Result<Plan, Fault> {
    Ok(Plan {
        workers: Workers::new(3)?,
        cut: Cut::every(1)?,
        weak,
        census: true,
    })
}

/// What a second run does, over the file that the first has written.
fn run_again<R: Threads + Wait + Sync + AllocGlobal>(
    rt: &R,
    weak: Weak,
    written: &[u8],
) -> Result<Outcome, Fail> {
    let plan = other_plan(weak)?;
    let file = Vec::from_slice(rt.alloc(), written)?;
    run_over(rt, rt.alloc(), &plan, file, &SOUND)
}

/// What a second run counts if nothing changes any more.
fn counts_of_second(first: Summary) -> Summary {
    Summary {
        objects: first.kept,
        kept: first.kept,
        data_before: first.data_after,
        data_after: first.data_after,
    }
}

/// Asserts that a second run changes nothing of what the first has written.
fn assert_settled<R: Threads + Wait + Sync + Abort + AllocGlobal>(
    rt: &R,
    weak: Weak,
    written: &[u8],
    first: Summary,
) -> Result<(), Fail> {
    let second = run_again(rt, weak, written)?;
    assert_same(rt, &second, written, counts_of_second(first));
    Ok(())
}

/// Asserts that a run wrote these bytes, and counts this.
fn assert_same<R: Abort>(rt: &R, outcome: &Outcome, written: &[u8], counts: Summary) {
    assert_eq!(rt; outcome.answer, Ok(counts));
    assert_bytes(rt, &outcome.image, written);
}

/// Asserts that what a run over a file writes is compacted to itself, and tells whether the file
/// was accepted.
fn settles<R: Threads + Wait + Sync + Abort + AllocGlobal>(
    rt: &R,
    weak: Weak,
    file: Vec<u8>,
) -> Result<bool, Fail> {
    let first = run_by_two(rt, weak, false, file)?;
    let Ok(summary) = first.answer else {
        return Ok(false);
    };
    assert_settled(rt, weak, &first.image, summary)?;
    Ok(true)
}

/// Whether a worked image is accepted under this policy.
fn is_accepted(worked: &WorkedImage, weak: Weak) -> bool {
    let outcome = match weak {
        Weak::Keep => worked.kept,
        Weak::Clear => worked.cleared.unwrap_or(worked.kept),
    };
    outcome.is_accepted()
}

/// Asserts that a worked image, in a file after this many bytes, is compacted to a fixed point if
/// it is accepted under this policy, and only then.
fn assert_worked<R: Threads + Wait + Sync + Abort + AllocGlobal>(
    rt: &R,
    weak: Weak,
    bytes_before: usize,
    worked: &WorkedImage,
) -> Result<(), Fail> {
    let file = worked.input.bytes(rt.alloc())?;
    let settled = settles(rt, weak, behind(rt.alloc(), bytes_before, &file)?)?;
    assert_eq!(rt;
        settled,
        is_accepted(worked, weak),
        "{}, {weak:?}",
        worked.name
    );
    Ok(())
}

/// Asserts it of a worked image under both policies, and after 512 bytes too if its file holds
/// nothing but the image.
fn assert_worked_under_both<R: Threads + Wait + Sync + Abort + AllocGlobal>(
    rt: &R,
    worked: &WorkedImage,
) -> Result<(), Fail> {
    for weak in [Weak::Keep, Weak::Clear] {
        assert_worked(rt, weak, 0, worked)?;
        if let Contents::Image(_) = worked.input {
            assert_worked(rt, weak, 512, worked)?;
        }
    }
    Ok(())
}

#[test]
fn second_run_changes_nothing(rt: HostRuntime) -> Result<(), Fail> {
    for table in &worked_tables() {
        for worked in *table {
            assert_worked_under_both(&rt, worked)?;
        }
    }
    Ok(())
}

/// The file of nil.
fn nil_file(alloc: Global) -> Result<Vec<u8>, AllocError> {
    file_of(alloc, &NIL_ALONE)
}

/// The file of nil, and five bytes after it.
fn nil_with_tail(alloc: Global) -> Result<Vec<u8>, AllocError> {
    with_tail(nil_file(alloc)?)
}

/// Asserts how long the file of nil is with five bytes after it, and without them.
fn assert_lengths<R: Abort + AllocGlobal>(rt: &R) -> Result<(), Fail> {
    let with_tail = nil_with_tail(rt.alloc())?.len();
    let without = nil_file(rt.alloc())?.len();
    assert_eq!(rt; (with_tail, without), (81, 76));
    Ok(())
}

/// Asserts that a run leaves out the five bytes.
fn assert_tail_left_out<R: Threads + Wait + Sync + Abort + AllocGlobal>(
    rt: &R,
    weak: Weak,
) -> Result<(), Fail> {
    let wanted = nil_file(rt.alloc())?;
    assert_writes(rt, weak, nil_with_tail(rt.alloc())?, &wanted)?;
    Ok(())
}

/// Asserts that a second run changes nothing.
fn assert_tail_settles<R: Threads + Wait + Sync + Abort + AllocGlobal>(
    rt: &R,
    weak: Weak,
) -> Result<(), Fail> {
    let settled = settles(rt, weak, nil_with_tail(rt.alloc())?)?;
    assert!(rt; settled, "{weak:?}");
    Ok(())
}

/// The first run leaves out the five bytes after the data, and the second run changes nothing.
#[test]
fn bytes_after_data_are_left_out_once(rt: HostRuntime) -> Result<(), Fail> {
    assert_lengths(&rt)?;
    for weak in [Weak::Keep, Weak::Clear] {
        assert_tail_left_out(&rt, weak)?;
        assert_tail_settles(&rt, weak)?;
    }
    Ok(())
}
