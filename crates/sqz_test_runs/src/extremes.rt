//! Large images: a chain of many objects, and an array of many fields. A test of these takes a
//! second or two as `rt test` builds it, and minutes under `rt try --test`, which ends it before
//! unless it is given `--seconds 600`.

ghost use Rattle.std.specs.Prelude.{◌<◌, IfSome};

use super::prefixes::behind;
use super::runs::{Devices, Outcome, SOUND, nine_plans, plan_of, run_over};
use sqz_object::Order;
use sqz_test_fixtures::{put_header, put_words};
use sqz_tool::{Plan, Summary};
use sqz_trace::Weak;
use std::alloc::{AllocError, Global};
use std::process::Abort;
use std::sync::Wait;
use std::test::Fail;
use std::thread::Threads;

/// Devices with room for a large image.
const ROOMY: Devices = Devices {
    piece: 65_536,
    image_room: 1 << 20,
    ..SOUND
};

/// How many objects are on the chain, and how many the array points to.
const COUNT: u32 = 100_000;

/// Half of them.
const HALF: u32 = COUNT / 2;

/// The bytes of a file with these data words from the address 0x1000 on.
fn large_file<R: Abort + AllocGlobal>(
    rt: &R,
    words: &[u32],
    special: u32,
) -> Result<Vec<u8>, Fail> {
    assert!(rt; words.len() < 1_000_000);
    let size = 4 * words.len() as u32;
    let mut file = Vec::new(rt.alloc());
    put_header(&mut file, Order::Little, size, 0x1000, special)?;
    put_words(&mut file, Order::Little, words)?;
    Ok(file)
}

/// A large file, what is written of it, what a run over it counts, and the last line of its census
/// after the end of the line before.
#[derive(Clone, Copy)]
struct Large<'a> {
    file: &'a [u8],
    wanted: &'a [u8],
    summary: Summary,
    last_line: &'a str,
}

/// Asserts what a run by a plan writes.
fn assert_large<R: Threads + Wait + Sync + Abort + AllocGlobal>(
    rt: &R,
    plan: &Plan,
    large: Large<'_>,
) -> Result<(), Fail> {
    let file = Vec::from_slice(rt.alloc(), large.file)?;
    let outcome = run_over(rt, rt.alloc(), plan, file, &ROOMY)?;
    assert_wrote_large(rt, plan.workers.number(), &outcome, large);
    Ok(())
}

/// Asserts what a run with this many workers wrote.
fn assert_wrote_large<R: Abort>(rt: &R, workers: u32, outcome: &Outcome, large: Large<'_>) {
    let same_image = outcome.image.as_slice() == large.wanted;
    let same_line = outcome.census.ends_with(large.last_line.as_bytes());
    assert_eq!(rt;
        (workers, outcome.answer, same_image, same_line),
        (workers, Ok(large.summary), true, true)
    );
}

/// Asserts it of nine plans with this policy on weak slots.
fn assert_large_by_nine<R: Threads + Wait + Sync + Abort + AllocGlobal>(
    rt: &R,
    weak: Weak,
    large: Large<'_>,
) -> Result<(), Fail> {
    for plan in &nine_plans(rt.alloc(), weak)? {
        assert_large(rt, plan, large)?;
    }
    Ok(())
}

/// Asserts it of nine plans, whether weak slots are kept or cleared, and once after 512 bytes.
fn assert_large_by_all<R: Threads + Wait + Sync + Abort + AllocGlobal>(
    rt: &R,
    large: Large<'_>,
) -> Result<(), Fail> {
    assert_large_by_nine(rt, Weak::Keep, large)?;
    assert_large_by_nine(rt, Weak::Clear, large)?;
    assert_large_behind_512(rt, large)
}

/// Asserts it of one plan.
fn assert_large_by_two<R: Threads + Wait + Sync + Abort + AllocGlobal>(
    rt: &R,
    large: Large<'_>,
) -> Result<(), Fail> {
    let plan = plan_of(Weak::Keep, true)?;
    assert_large(rt, &plan, large)
}

/// Asserts it after 512 bytes.
fn assert_large_behind_512<R: Threads + Wait + Sync + Abort + AllocGlobal>(
    rt: &R,
    large: Large<'_>,
) -> Result<(), Fail> {
    let file = behind(rt.alloc(), 512, large.file)?;
    let wanted = behind(rt.alloc(), 512, large.wanted)?;
    let moved = Large {
        file: &file,
        wanted: &wanted,
        ..large
    };
    assert_large_by_two(rt, moved)
}

/// In which order the objects on a chain point to each other: the next one, the one before, or by
/// turns one of the lower and one of the upper half, from both ends to the middle.
#[derive(Clone, Copy)]
enum Path {
    Up,
    Down,
    Zigzag,
}

/// The object after this one on a path; none after the last.
fn object_behind(path: Path, object: u32) -> Option<u32>
    requires { object < 100000 }
    ensures { IfSome result (λ next. next < 100000) }
{
    match path {
        Path::Up if object < COUNT - 1 => Some(object + 1),
        Path::Down if object > 0 => Some(object - 1),
        Path::Zigzag if object < HALF => Some(COUNT - 1 - object),
        Path::Zigzag if object > HALF => Some(COUNT - object),
        _ => None,
    }
}

/// The word that points to the object after this one on a path, and an integer in the last.
fn word_of(path: Path, object: u32) -> u32
    requires { object < 100000 }
{
    match object_behind(path, object) {
        Some(next) => 0x1004 + 8 * next,
        None => 1,
    }
}

/// The words of nil, of the objects on a path and of the special objects array, which points to the
/// first.
fn chain(alloc: Global, path: Path, first: u32) -> Result<Vec<u32>, AllocError> {
    let mut words = Vec::from_slice(alloc, &[0x1007])?;
    for object in 0..COUNT {
        words.extend_from_slice(&[0x110B, word_of(path, object)])?;
    }
    words.extend_from_slice(&[0x320F, 0x1000, first])?;
    Ok(words)
}

/// Asserts that a chain is kept whole.
fn assert_chain_kept<R: Threads + Wait + Sync + Abort + AllocGlobal>(
    rt: &R,
    path: Path,
    first: u32,
) -> Result<(), Fail> {
    let words = chain(rt.alloc(), path, first)?;
    let file = large_file(rt, &words, 0xC4504)?;
    let large = Large {
        file: &file,
        wanted: &file,
        summary: Summary {
            objects: 100_002,
            kept: 100_002,
            data_before: 800_016,
            data_after: 800_016,
        },
        last_line: "\n    100002       800016 total\n",
    };
    assert_large_by_all(rt, large)
}

#[test]
fn chain_upwards(rt: HostRuntime) -> Result<(), Fail> {
    assert_chain_kept(&rt, Path::Up, 0x1004)
}

#[test]
fn chain_downwards(rt: HostRuntime) -> Result<(), Fail> {
    assert_chain_kept(&rt, Path::Down, 0xC44FC)
}

#[test]
fn chain_from_both_ends(rt: HostRuntime) -> Result<(), Fail> {
    assert_chain_kept(&rt, Path::Zigzag, 0x1004)
}

/// The words of this many objects without fields, nil first, and of the special objects array, which
/// holds these words.
fn array_behind(alloc: Global, count: usize, fields: &[u32]) -> Result<Vec<u32>, AllocError> {
    let mut words = Vec::new(alloc);
    words.resize(count, 0x1007)?;
    words.extend_from_slice(&[0x61A84, 0x1000, 0x200])?;
    words.extend_from_slice(fields)?;
    Ok(words)
}

/// The fields of an array that points to each object.
fn all_named(alloc: Global) -> Result<Vec<u32>, AllocError> {
    let mut fields = Vec::new(alloc);
    for field in 0..COUNT {
        fields.push(0x1000 + 4 * field)?;
    }
    Ok(fields)
}

/// The fields of an array that points, by its even fields, to objects that are this many bytes
/// apart.
fn even_named(alloc: Global, apart: u32) -> Result<Vec<u32>, AllocError>
    requires { apart < 100 }
{
    let mut fields = Vec::new(alloc);
    for pair in 0..HALF {
        fields.extend_from_slice(&[0x1000 + apart * pair, 1])?;
    }
    Ok(fields)
}

#[test]
fn array_that_names_all(rt: HostRuntime) -> Result<(), Fail> {
    let words = array_behind(rt.alloc(), 100_000, &all_named(rt.alloc())?)?;
    let file = large_file(&rt, &words, 0x62A88)?;
    let large = Large {
        file: &file,
        wanted: &file,
        summary: Summary {
            objects: 100_001,
            kept: 100_001,
            data_before: 800_012,
            data_after: 800_012,
        },
        last_line: "\n    100001       800012 total\n",
    };
    assert_large_by_all(&rt, large)
}

#[test]
fn array_that_names_every_other(rt: HostRuntime) -> Result<(), Fail> {
    let words = array_behind(rt.alloc(), 100_000, &even_named(rt.alloc(), 8)?)?;
    let left = array_behind(rt.alloc(), 50_000, &even_named(rt.alloc(), 4)?)?;
    let file = large_file(&rt, &words, 0x62A88)?;
    let wanted = large_file(&rt, &left, 0x31D48)?;
    let large = Large {
        file: &file,
        wanted: &wanted,
        summary: Summary {
            objects: 100_001,
            kept: 50_001,
            data_before: 800_012,
            data_after: 600_012,
        },
        last_line: "\n     50001       600012 total\n",
    };
    assert_large_by_all(&rt, large)
}
