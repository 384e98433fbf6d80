//! The program `sqz_dev_write_images FOLDER`: writes the worked images of `sqz_test_fixtures`, and
//! what becomes of each, into the folders `accepted`, `unreadable`, `defects` and `weak` of a
//! folder. They exist already, since the library makes none.
#![tactic(auto)]

use anyhow::Result;
use sqz_test_fixtures::{Contents, Outcome, WorkedImage, worked_tables};
use std::alloc::Global;
use std::process::ExitCode;
use std::rt::Files;
use std::{env, fs};

/// The exit code if the command line is wrong.
const BAD_ARGUMENTS: u8 = 2;

/// Writes an image into a file of this name.
fn write_image<R: Files>(rt: &R, alloc: Global, name: &str, contents: &Contents) -> Result<()> {
    let bytes = contents.bytes(alloc)?;
    fs::write(rt, name, bytes.as_slice())?;
    Ok(())
}

/// Writes what becomes of an image into a file whose name begins so: its compaction, or the line
/// that rejects it.
fn write_outcome<R: Files>(rt: &R, alloc: Global, start: &str, outcome: &Outcome) -> Result<()> {
    match outcome {
        Outcome::Compacted(contents) => {
            let name = format!(in alloc; "{start}.out.image")?;
            write_image(rt, alloc, name.as_str(), contents)
        }
        Outcome::Rejected(line) => {
            let name = format!(in alloc; "{start}.fault")?;
            let text = format!(in alloc; "{line}\n")?;
            fs::write(rt, name.as_str(), text.as_str())?;
            Ok(())
        }
    }
}

/// Writes a class histogram, if there is one, into a file whose name begins so.
fn write_census<R: Files>(
    rt: &R,
    alloc: Global,
    start: &str,
    census: Option<&'static str>,
) -> Result<()> {
    if let Some(text) = census {
        let name = format!(in alloc; "{start}.census")?;
        fs::write(rt, name.as_str(), text)?;
    }
    Ok(())
}

/// Writes what becomes of an image if weak slots are cleared, as far as it differs.
fn write_cleared<R: Files>(rt: &R, alloc: Global, start: &str, worked: &WorkedImage) -> Result<()> {
    let cleared = format!(in alloc; "{start}.cleared")?;
    if let Some(outcome) = &worked.cleared {
        write_outcome(rt, alloc, cleared.as_str(), outcome)?;
    }
    write_census(rt, alloc, cleared.as_str(), worked.cleared_census)
}

/// Writes the files of a worked image into its folder in the folder `top`.
fn write_worked<R: Files>(rt: &R, alloc: Global, top: &str, worked: &WorkedImage) -> Result<()> {
    let (folder, name) = (worked.folder.name(), worked.name);
    let start = format!(in alloc; "{top}/{folder}/{name}")?;
    let image = format!(in alloc; "{start}.image")?;
    write_image(rt, alloc, image.as_str(), &worked.input)?;
    write_outcome(rt, alloc, start.as_str(), &worked.kept)?;
    write_census(rt, alloc, start.as_str(), worked.census)?;
    write_cleared(rt, alloc, start.as_str(), worked)
}

/// Writes the files of the images of a table.
fn write_table<R: Files>(rt: &R, alloc: Global, top: &str, table: &[WorkedImage]) -> Result<()> {
    for worked in table {
        write_worked(rt, alloc, top, worked)?;
    }
    Ok(())
}

/// Writes all worked images into the folders of the folder `top`.
fn write_all<R: Files>(rt: &R, alloc: Global, top: &str) -> Result<()> {
    for table in &worked_tables() {
        write_table(rt, alloc, top, table)?;
    }
    Ok(())
}

fn main(rt: HostRuntime) -> Result<ExitCode> {
    let words: Vec<String> = env::args(&rt)?.collect(rt.alloc())?;
    match words.as_slice() {
        [_, folder] if !folder.starts_with("--") => {
            write_all(&rt, rt.alloc(), folder.as_str())?;
            Ok(ExitCode::SUCCESS)
        }
        _ => {
            eprintln!(rt; "Usage: sqz_dev_write_images FOLDER")?;
            Ok(ExitCode::from(BAD_ARGUMENTS))
        }
    }
}
