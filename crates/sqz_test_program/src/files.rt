//! The program, over files of the operating system.

use super::images::{compacted_image, whole_image};
use super::programs::{assert_ended, run_program};
use std::fs::File;
use std::io::{Read, Write};
use std::process::Abort;
use std::rt::Files;
use std::test::Fail;

/// Makes a file with the image of three objects.
fn make_image<R: AllocGlobal + Files>(rt: &R, path: &str) -> Result<(), Fail> {
    let image = whole_image(rt.alloc())?;
    File::create(rt, path)?.write_all(&image)?;
    Ok(())
}

/// The bytes that a file holds.
fn bytes_in<R: AllocGlobal + Files>(rt: &R, path: &str) -> Result<Vec<u8>, Fail> {
    let mut found = Vec::new(rt.alloc());
    File::open(rt, path)?.read_to_end(&mut found)?;
    Ok(found)
}

/// Asserts that a file holds these bytes.
fn assert_holds<R: Abort + AllocGlobal + Files>(
    rt: &R,
    path: &str,
    wanted: &[u8],
) -> Result<(), Fail> {
    let found = bytes_in(rt, path)?;
    assert_eq!(rt; found.as_slice(), wanted);
    Ok(())
}

#[test]
fn compacts_in_place(rt: HostRuntime) -> Result<(), Fail> {
    make_image(&rt, "both.image")?;
    let ended = run_program(&rt, rt.alloc(), &["both.image", "both.image"])?;
    assert_ended(&rt, &ended, 0, "");
    assert_holds(&rt, "both.image", &compacted_image(rt.alloc())?)
}

#[test]
fn reports_a_missing_input(rt: HostRuntime) -> Result<(), Fail> {
    let ended = run_program(&rt, rt.alloc(), &["missing.image", "never.image"])?;
    assert_ended(&rt, &ended, 3, "fault 16: cannot read the image\n");
    assert!(rt; File::open(&rt, "never.image").is_err());
    Ok(())
}

#[test]
fn reports_an_output_that_cannot_be_made(rt: HostRuntime) -> Result<(), Fail> {
    make_image(&rt, "sound.image")?;
    let ended = run_program(&rt, rt.alloc(), &["sound.image", "missing/out.image"])?;
    assert_ended(&rt, &ended, 3, "fault 17: cannot write the output\n");
    Ok(())
}
