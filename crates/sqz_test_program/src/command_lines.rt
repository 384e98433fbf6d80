//! Command lines that are no plan, and the help.

use super::programs::{Ended, assert_ended, run_program};
use std::process::Abort;
use std::rt::Files;
use std::sync::Wait;
use std::test::Fail;
use std::thread::Threads;

/// Whether these bytes are not one text printed twice.
fn is_said_once(bytes: &[u8]) -> bool {
    let (first, second) = bytes.split_at(bytes.len() / 2);
    first != second
}

/// Asserts that the program ended with 2 for this many words, and said why on standard error, once.
fn assert_says_why<R: Abort>(rt: &R, ended: &Ended, count: usize) {
    assert_eq!(rt;
        (ended.exit, ended.out.contents().is_empty()),
        (2, true),
        "at {count} words"
    );
    let said = ended.err.contents();
    assert!(rt; !said.is_empty() && is_said_once(said), "at {count} words");
}

/// Asserts that the program ends with 2 for these words, and says why on standard error, once.
fn assert_not_taken<R: Threads + Wait + Sync + Abort + AllocGlobal + Files>(
    rt: &R,
    words: &[&str],
) -> Result<(), Fail> {
    let ended = run_program(rt, rt.alloc(), words)?;
    assert_says_why(rt, &ended, words.len());
    Ok(())
}

/// Words with fewer or more than two paths.
const OTHER_PATHS: [&[&str]; 4] = [
    &[],
    &["whole.image"],
    &["whole.image", "never.image", "more"],
    &["--other", "whole.image", "never.image"],
];

#[test]
fn wants_two_paths(rt: HostRuntime) -> Result<(), Fail> {
    for words in OTHER_PATHS {
        assert_not_taken(&rt, words)?;
    }
    Ok(())
}

/// Words with a flag that has a value, and with a flag twice.
const OTHER_FLAGS: [&[&str]; 2] = [
    &["--clear-weak=1", "a", "b"],
    &["--clear-weak", "--clear-weak", "a", "b"],
];

#[test]
fn takes_a_flag_once_and_without_a_value(rt: HostRuntime) -> Result<(), Fail> {
    for words in OTHER_FLAGS {
        assert_not_taken(&rt, words)?;
    }
    Ok(())
}

/// What is printed if the number of workers is rejected.
const BAD_WORKERS: &str = "fault 18: workers must be from 1 to 64\n";

/// What is printed if the number of words of a region is rejected.
const BAD_CUT: &str = "fault 19: region cut is not valid\n";

/// Words with numbers that are rejected, and what is printed.
const NUMBERS: [(&[&str], &str); 5] = [
    (&["--workers", "0", "a", "b"], BAD_WORKERS),
    (&["--workers", "65", "a", "b"], BAD_WORKERS),
    (&["--region-words", "0", "a", "b"], BAD_CUT),
    (&["--region-words", "1073741825", "a", "b"], BAD_CUT),
    (
        &["--region-words", "0", "--workers", "0", "a", "b"],
        BAD_WORKERS,
    ),
];

#[test]
fn refuses_numbers(rt: HostRuntime) -> Result<(), Fail> {
    for (words, line) in &NUMBERS {
        let ended = run_program(&rt, rt.alloc(), words)?;
        assert_ended(&rt, &ended, 2, line);
    }
    Ok(())
}

#[test]
fn helps(rt: HostRuntime) -> Result<(), Fail> {
    let ended = run_program(&rt, rt.alloc(), &["--help"])?;
    assert_eq!(rt; ended.exit, 0);
    assert!(rt; !ended.out.contents().is_empty() && ended.err.contents().is_empty());
    Ok(())
}
