//! The program, over files that fail.

use super::images::{compacted_image, whole_image};
use super::programs::{assert_ended, run_over};
use super::test_files::{Behavior, Calls, IN, OUT, SOUND, Written};
use std::process::Abort;
use std::sync::Wait;
use std::test::Fail;
use std::thread::Threads;

/// What is printed if the image cannot be written.
const NOT_WRITTEN: &str = "fault 17: cannot write the output\n";

/// Asserts that the program ends with 3 and this line if IN has the image of three objects, or a
/// prefix of it of this many bytes. Returns what it did to OUT.
fn assert_fails<R: Threads + Wait + Sync + Abort + AllocGlobal + Drop>(
    rt: &R,
    count: usize,
    behavior: Behavior,
    line: &str,
) -> Result<Written, Fail> {
    let mut image = whole_image(rt.alloc())?;
    image.truncate(count);
    let (ended, written) = run_over(rt, rt.alloc(), &[IN, OUT], &image, behavior)?;
    assert_ended(rt, &ended, 3, line);
    Ok(written)
}

/// Asserts that OUT has been made once and holds as much of the answer as it takes.
fn assert_full<R: Abort>(rt: &R, written: &Written, room: usize, mut answer: Vec<u8>) {
    answer.truncate(room);
    assert_eq!(rt; (written.calls.makings, &written.bytes), (1, &answer));
}

#[test]
fn file_is_full(rt: HostRuntime) -> Result<(), Fail> {
    for room in [0, 1, 64, 75] {
        let written = assert_fails(&rt, 88, Behavior { room, ..SOUND }, NOT_WRITTEN)?;
        assert_full(&rt, &written, room, compacted_image(rt.alloc())?);
    }
    Ok(())
}

/// What failed is not tried again, though it would succeed.
#[test]
fn making_or_first_write_fails(rt: HostRuntime) -> Result<(), Fail> {
    for (makings_fail, writes_fail) in [(1, 0), (0, 1)] {
        let behavior = Behavior {
            makings_fail,
            writes_fail,
            ..SOUND
        };
        let written = assert_fails(&rt, 88, behavior, NOT_WRITTEN)?;
        let calls = Calls {
            makings: 1,
            writes: writes_fail,
            flushes: 0,
        };
        assert_eq!(rt; written.calls, calls);
    }
    Ok(())
}

/// A flush that failed is not tried again, though it would succeed.
#[test]
fn first_flush_fails(rt: HostRuntime) -> Result<(), Fail> {
    let behavior = Behavior {
        flushes_fail: 1,
        ..SOUND
    };
    let written = assert_fails(&rt, 88, behavior, NOT_WRITTEN)?;
    assert_eq!(rt; written.calls.flushes, 1);
    assert_eq!(rt; written.bytes, compacted_image(rt.alloc())?);
    Ok(())
}

#[test]
fn read_fails(rt: HostRuntime) -> Result<(), Fail> {
    let behavior = Behavior {
        read_fails: true,
        ..SOUND
    };
    for count in [88, 40, 0] {
        let line = "fault 16: cannot read the image\n";
        let written = assert_fails(&rt, count, behavior, line)?;
        assert_eq!(rt; written.calls.makings, 0, "after {count} bytes");
    }
    Ok(())
}
