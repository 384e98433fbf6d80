//! The program `sqz_dev_check_dominators FILE...`: compares the immediate dominator of each object of
//! images, and what it retains, with those that a brute force finds: with weak slots kept and
//! cleared, from passes alone and from a candidate. It prints how many objects each image has, and
//! for how many of its two trees the check accepted the candidate. It ends with exit code 1 at the
//! first difference.
//!
//! `sqz_dev_check_dominators --retained ADDRESS FILE` prints what one object retains, and how the
//! dominator tree was found, without the brute force. With `--candidate` in its place a candidate is
//! made at once.
#![tactic(auto)]

mod brute_force;
mod difference;

use anyhow::Result;
use difference::compare;
use sqz_dominators::{MOST_PASSES, Retained, dominators_within};
use sqz_image::{Fault, Image, ReadSource, image_of_file, read_all};
use sqz_trace::{ObjectGraph, Weak};
use std::alloc::Global;
use std::env;
use std::fs::File;
use std::process::ExitCode;
use std::rt::Files;

/// The exit code if the command line is wrong.
const BAD_ARGUMENTS: u8 = 2;

/// Returns the image in a file, or None if the file has a fault.
fn image_in<R: Files>(rt: &R, alloc: Global, path: &str) -> Result<Option<Image>> {
    let bytes = read_all(alloc, &mut ReadSource::new(File::open(rt, path)?))?;
    match image_of_file(alloc, bytes) {
        Ok(image) => Ok(Some(image)),
        Err(Fault::OutOfMemory) => Err(Fault::OutOfMemory.into()),
        Err(_) => Ok(None),
    }
}

/// Checks the image in a file, and prints a line. Returns whether there is no difference.
fn check_file<R: Files + Print>(rt: &R, alloc: Global, path: &str) -> Result<bool> {
    let Some(image) = image_in(rt, alloc, path)? else {
        println!(rt; "{path}: unreadable")?;
        return Ok(true);
    };
    let mut certified: u32 = 0;
    for weak in [Weak::Keep, Weak::Clear] {
        let graph = ObjectGraph {
            heap: image.heap(),
            weak,
        };
        let comparison = compare(alloc, graph)?;
        if let Some(difference) = comparison.difference {
            println!(rt; "{path}: {difference}")?;
            return Ok(false);
        }
        certified = certified.saturating_add(u32::from(comparison.is_certified));
    }
    let count = image.heap().len();
    println!(rt; "{path}: {count} objects, {certified} of 2 trees certified")?;
    Ok(true)
}

/// Checks the images in files, up to the first one with a difference. Returns whether there is
/// none.
fn check_files<R: Files + Print>(rt: &R, alloc: Global, paths: &[String]) -> Result<bool> {
    for path in paths {
        if !check_file(rt, alloc, path.as_str())? {
            return Ok(false);
        }
    }
    Ok(true)
}

/// Prints what the object at an address of the image in a file retains, and how the tree was found:
/// a candidate is made if the tree is not settled after `passes` passes. Returns whether the image
/// can be read and an object has this address.
fn print_retained<R: Files + Print + AllocGlobal>(
    rt: &R,
    passes: u32,
    address: &str,
    path: &str,
) -> Result<bool> {
    let alloc = rt.alloc();
    let Some(image) = image_in(rt, alloc, path)? else {
        return Ok(false);
    };
    let heap = image.heap();
    let Ok(address) = u32::from_str_radix(address, 16) else {
        return Ok(false);
    };
    let Some(object) = heap.find(address) else {
        return Ok(false);
    };
    let weak = Weak::Keep;
    let found = dominators_within(alloc, ObjectGraph { heap, weak }, passes)?;
    let retained = found.dominators.retained(object);
    let Retained { objects, bytes } = retained;
    println!(rt; "{objects} objects, {bytes} bytes, {:?}", found.way)?;
    Ok(true)
}

fn main(rt: HostRuntime) -> Result<ExitCode> {
    let words: Vec<String> = env::args(&rt)?.collect(rt.alloc())?;
    let done = match words.get(1..).unwrap_or(&[]) {
        [option, address, path] if option.as_str() == "--retained" => {
            print_retained(&rt, MOST_PASSES, address.as_str(), path.as_str())?
        }
        [option, address, path] if option.as_str() == "--candidate" => {
            print_retained(&rt, 0, address.as_str(), path.as_str())?
        }
        [first, ..] if !first.starts_with("--") => {
            check_files(&rt, rt.alloc(), words.get(1..).unwrap_or(&[]))?
        }
        _ => {
            eprintln!(rt; "Usage: sqz_dev_check_dominators FILE...")?;
            eprintln!(rt; "or --retained ADDRESS FILE, or --candidate ADDRESS FILE")?;
            return Ok(ExitCode::from(BAD_ARGUMENTS));
        }
    };
    Ok(if done {
        ExitCode::SUCCESS
    } else {
        ExitCode::FAILURE
    })
}
