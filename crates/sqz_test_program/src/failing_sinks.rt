//! Sinks that fail while the program prints to them: the exit is the same, and a prefix of the text
//! goes out.

use super::programs::{Ended, run_into};
use super::test_files::{Disk, IN, OUT, SOUND, TestFiles};
use sqz_image::{MemorySink, Sink};
use std::process::Abort;
use std::sync::Wait;
use std::test::Fail;
use std::thread::Threads;

/// How many bytes a sink has room for, and the number of the call that fails, if one does.
type Limits = (u32, Option<u64>);

/// A sink that takes all that is printed.
const LARGE: Limits = (4096, None);

/// Sinks that fail at the first write, at the first flush, at any byte, and after ten bytes.
const FAILING: [Limits; 4] = [(4096, Some(0)), (4096, Some(1)), (0, None), (10, None)];

/// How the program ends with these words over sinks with these limits. IN has fewer bytes than a
/// header.
fn ended_over<R: Threads + Wait + Sync + AllocGlobal + Drop>(
    rt: &R,
    words: &[&str],
    out: Limits,
    err: Limits,
) -> Result<Ended, Fail> {
    let alloc = rt.alloc();
    let disk = Disk::new(alloc, &[0; 63], SOUND);
    let files = TestFiles { disk: &disk, rt };
    let out = MemorySink::new(alloc, out.0, out.1)?;
    let err = MemorySink::new(alloc, err.0, err.1)?;
    run_into(&files, alloc, words, out, err)
}

/// Whether a sink failed, and took a prefix of what another sink took, which did not fail.
fn is_cut(failed: &MemorySink, whole: &MemorySink) -> bool {
    failed.failed() && !whole.failed() && whole.contents().starts_with(failed.contents())
}

/// The exits of the program if standard error fails and if it does not. None unless it took a
/// prefix of what is printed there, and nothing is printed on standard output.
fn exits_without_error<R: Threads + Wait + Sync + AllocGlobal + Drop>(
    rt: &R,
    words: &[&str],
    limits: Limits,
) -> Result<Option<(u8, u8)>, Fail> {
    let whole = ended_over(rt, words, LARGE, LARGE)?;
    let ended = ended_over(rt, words, LARGE, limits)?;
    if is_cut(&ended.err, &whole.err) && ended.out.contents().is_empty() {
        Ok(Some((ended.exit, whole.exit)))
    } else {
        Ok(None)
    }
}

/// Asserts that the program ends with this exit whether or not standard error fails, and prints
/// nothing on standard output.
fn assert_exit<R: Threads + Wait + Sync + Abort + AllocGlobal + Drop>(
    rt: &R,
    words: &[&str],
    exit: u8,
) -> Result<(), Fail> {
    for limits in FAILING {
        let found = exits_without_error(rt, words, limits)?;
        assert_eq!(rt; found, Some((exit, exit)), "at {limits:?}");
    }
    Ok(())
}

/// Command lines whose image is rejected or missing, or which are wrong, and the exit of each.
const WORDS: [(&[&str], u8); 5] = [
    (&[IN, OUT], 1),
    (&["missing.image", OUT], 3),
    (&["--workers", "0", IN, OUT], 2),
    (&["--region-words", "0", IN, OUT], 2),
    (&[IN], 2),
];

#[test]
fn standard_error_fails(rt: HostRuntime) -> Result<(), Fail> {
    for (words, exit) in &WORDS {
        assert_exit(&rt, words, *exit)?;
    }
    Ok(())
}

/// The same exits with the option `--help`, of standard output.
fn exits_without_help<R: Threads + Wait + Sync + AllocGlobal + Drop>(
    rt: &R,
    limits: Limits,
) -> Result<Option<(u8, u8)>, Fail> {
    let whole = ended_over(rt, &["--help"], LARGE, LARGE)?;
    let ended = ended_over(rt, &["--help"], limits, LARGE)?;
    if is_cut(&ended.out, &whole.out) && ended.err.contents().is_empty() {
        Ok(Some((ended.exit, whole.exit)))
    } else {
        Ok(None)
    }
}

#[test]
fn standard_output_fails_at_the_help(rt: HostRuntime) -> Result<(), Fail> {
    for limits in FAILING {
        let found = exits_without_help(&rt, limits)?;
        assert_eq!(rt; found, Some((0, 0)), "at {limits:?}");
    }
    Ok(())
}
