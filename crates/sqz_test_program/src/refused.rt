//! Each fault of an image, with its line and its exit. No file is made.

use super::images::whole_image;
use super::programs::{assert_ended, run_over};
use super::test_files::{IN, OUT, SOUND};
use sqz_test_fixtures::accepted::SPECIAL_ARRAY_ALONE;
use sqz_test_fixtures::unreadable::{MIXED_CLASS_HEADER, NO_OBJECT_AT_SPECIAL, OVERRUN, ZERO_SIZE};
use sqz_test_fixtures::with_bad_contexts::SHORT_CONTEXT;
use sqz_test_fixtures::with_bad_methods::METHOD_HEADER;
use sqz_test_fixtures::with_defects::{NO_CLASS, ODD_FIELD};
use sqz_test_fixtures::with_weak_classes::WEAK_BAD_CLASS;
use sqz_test_fixtures::{TestImage, file_of};
use std::process::Abort;
use std::sync::Wait;
use std::test::Fail;
use std::thread::Threads;

/// Asserts that the program, given these words, rejects an image with 1 and this line, and does
/// nothing to the other file.
fn assert_refuses_at<R: Threads + Wait + Sync + Abort + AllocGlobal + Drop>(
    rt: &R,
    words: &[&str],
    image: &[u8],
    line: &str,
) -> Result<(), Fail> {
    let (ended, written) = run_over(rt, rt.alloc(), words, image, SOUND)?;
    assert_ended(rt, &ended, 1, line);
    assert_eq!(rt; written.calls.makings, 0);
    Ok(())
}

/// The two paths alone.
const PATHS: [&str; 2] = [IN, OUT];

/// What a byte of the image of three objects is changed to, how many bytes of the image are left,
/// and what is printed.
const HEADERS: &[(usize, u8, usize, &str)] = &[
    (0, 0x68, 88, "fault 2: version is not 6502\n"),
    (4, 68, 88, "fault 3: header size is not 64\n"),
    (8, 22, 88, "fault 4: data size is not a multiple of 4\n"),
    (12, 2, 88, "fault 5: base address is not valid\n"),
    (63, 0, 63, "fault 1: image is shorter than its header\n"),
    (87, 0, 87, "fault 6: data are truncated\n"),
];

/// A prefix of the image of three objects, of this many bytes, with one byte changed.
fn changed_image<R: Abort + AllocGlobal>(
    rt: &R,
    at: usize,
    byte: u8,
    length: usize,
) -> Result<Vec<u8>, Fail> {
    let mut image = whole_image(rt.alloc())?;
    assert!(rt; at < image.len());
    image[at] = byte;
    image.truncate(length);
    Ok(image)
}

#[test]
fn headers(rt: HostRuntime) -> Result<(), Fail> {
    for (at, byte, length, line) in HEADERS {
        let image = changed_image(&rt, *at, *byte, *length)?;
        assert_refuses_at(&rt, &PATHS, &image, line)?;
    }
    Ok(())
}

/// An image, and what is printed when it is rejected.
type Refused = (TestImage, &'static str);

/// Images with a data word at fault.
const DATA_WORDS: &[Refused] = &[
    (ZERO_SIZE, "fault 7: size 0 at word 1\n"),
    (
        MIXED_CLASS_HEADER,
        "fault 8: header words disagree at word 1\n",
    ),
    (OVERRUN, "fault 9: chunk runs past the end at word 1\n"),
    (
        NO_OBJECT_AT_SPECIAL,
        "fault 10: special objects array not found\n",
    ),
    (NO_CLASS, "fault 11: no class for object 0000100c\n"),
    (METHOD_HEADER, "fault 12: bad method 00001004\n"),
    (SHORT_CONTEXT, "fault 13: bad context 00001004\n"),
    (
        ODD_FIELD,
        "fault 14: bad pointer in object 00001004, field 0\n",
    ),
];

/// Images whose weak slots cannot be cleared.
const WEAK_SLOTS: &[Refused] = &[
    (WEAK_BAD_CLASS, "fault 20: bad weak object 00001020\n"),
    (SPECIAL_ARRAY_ALONE, "fault 21: nil not found\n"),
];

/// Asserts that the program, given these words, rejects each of these images so.
fn assert_refuses_each<R: Threads + Wait + Sync + Abort + AllocGlobal + Drop>(
    rt: &R,
    words: &[&str],
    each: &[Refused],
) -> Result<(), Fail> {
    for (image, line) in each {
        assert_refuses_at(rt, words, &file_of(rt.alloc(), image)?, line)?;
    }
    Ok(())
}

#[test]
fn data_words(rt: HostRuntime) -> Result<(), Fail> {
    assert_refuses_each(&rt, &PATHS, DATA_WORDS)
}

#[test]
fn weak_slots_that_cannot_be_cleared(rt: HostRuntime) -> Result<(), Fail> {
    assert_refuses_each(&rt, &["--clear-weak", IN, OUT], WEAK_SLOTS)
}
