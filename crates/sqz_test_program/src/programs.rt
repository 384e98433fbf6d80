//! What a call of the program ended with and printed.

use super::test_files::{Behavior, Disk, TestFiles, Written};
use sqz_image::MemorySink;
use sqz_tool::program;
use std::alloc::{AllocError, Global};
use std::process::Abort;
use std::rt::Files;
use std::sync::Wait;
use std::test::Fail;
use std::thread::Threads;

/// What the program ended with and printed.
#[derive(Drop)]
pub(crate) struct Ended {
    pub exit: u8,
    pub out: MemorySink,
    pub err: MemorySink,
}

/// The words of a command line, the program's name first.
fn line_of(alloc: Global, words: &[&str]) -> Result<Vec<String>, AllocError> {
    let mut line = Vec::new(alloc);
    line.push(String::from_str(alloc, "sqzcompact")?)?;
    for word in words {
        line.push(String::from_str(alloc, word)?)?;
    }
    Ok(line)
}

/// Runs the program with these words after its name.
pub(crate) fn run_program<R: Threads + Wait + Sync + Files>(
    rt: &R,
    alloc: Global,
    words: &[&str],
) -> Result<Ended, Fail> {
    let out = MemorySink::new(alloc, 4096, None)?;
    let err = MemorySink::new(alloc, 4096, None)?;
    run_into(rt, alloc, words, out, err)
}

/// Runs the program with these words after its name, over these sinks.
pub(crate) fn run_into<R: Threads + Wait + Sync + Files>(
    rt: &R,
    alloc: Global,
    words: &[&str],
    mut out: MemorySink,
    mut err: MemorySink,
) -> Result<Ended, Fail> {
    let line = line_of(alloc, words)?;
    let exit = program(rt, alloc, &line, &mut out, &mut err);
    Ok(Ended { exit, out, err })
}

/// How the program ends with these words if IN has this image, and what it does to OUT.
pub(crate) fn run_over<R: Threads + Wait + Sync + Drop>(
    rt: &R,
    alloc: Global,
    words: &[&str],
    image: &[u8],
    behavior: Behavior,
) -> Result<(Ended, Written), Fail> {
    let disk = Disk::new(alloc, image, behavior);
    let files = TestFiles { disk: &disk, rt };
    let ended = run_program(&files, alloc, words)?;
    Ok((ended, disk.into_written()))
}

/// Asserts that the program ended so, with this line on standard error and nothing else printed.
pub(crate) fn assert_ended<R: Abort>(rt: &R, ended: &Ended, exit: u8, line: &str) {
    let found = (ended.exit, ended.out.contents(), ended.err.contents());
    assert_eq!(rt; found, (exit, "".as_bytes(), line.as_bytes()));
}
