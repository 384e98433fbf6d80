//! Images with a chunk that cannot be read, and images without a special objects array.

use super::runs::assert_image_refused;
use sqz_image::Fault;
use sqz_test_fixtures::unreadable::{
    FIRST_UNREADABLE_CHUNK, FREE_CHUNK_AT_SPECIAL, FREE_OVERRUN, FREE_ZERO_SIZE, HEADER_OVERRUN,
    HEADER_OVERRUN_BEFORE_MIXED, LONE_CLASS_WORD, LONE_SIZE_WORD, MIXED_BEFORE_OVERRUN,
    MIXED_BEFORE_SIZE, MIXED_CLASS_HEADER, MIXED_HEADER, MIXED_SECOND_HEADER, NO_OBJECT_AT_SPECIAL,
    OVERRUN, OVERRUN_OF_THREE, OVERRUN_OF_TWO, UNREADABLE_BEFORE_SPECIAL, ZERO_SIZE,
    ZERO_SIZE_OF_THREE, ZERO_SIZE_OF_TWO,
};
use sqz_test_fixtures::with_classes::CLASS_EDGE;
use sqz_test_fixtures::{Change, EMPTY, TestImage};
use sqz_trace::Weak;
use std::process::Abort;
use std::sync::Wait;
use std::test::Fail;
use std::thread::Threads;

/// Asserts that runs over an image are refused with this fault, whether weak slots are kept or
/// cleared.
fn assert_unreadable<R: Threads + Wait + Sync + Abort + AllocGlobal>(
    rt: &R,
    image: &TestImage,
    fault: Fault,
) -> Result<(), Fail> {
    assert_image_refused(rt, Weak::Keep, image, fault)?;
    assert_image_refused(rt, Weak::Clear, image, fault)
}

/// Asserts it of images with these faults.
fn assert_all_unreadable<R: Threads + Wait + Sync + Abort + AllocGlobal>(
    rt: &R,
    some: &[(TestImage, Fault)],
) -> Result<(), Fail> {
    for (image, fault) in some {
        assert_unreadable(rt, image, *fault)?;
    }
    Ok(())
}

/// Images with one chunk that cannot be read, and the fault of each.
const UNREADABLE: &[(TestImage, Fault)] = &[
    (ZERO_SIZE, Fault::ZeroSize { word: 1 }),
    (FREE_ZERO_SIZE, Fault::ZeroSize { word: 1 }),
    (ZERO_SIZE_OF_TWO, Fault::ZeroSize { word: 1 }),
    (ZERO_SIZE_OF_THREE, Fault::ZeroSize { word: 1 }),
    (MIXED_HEADER, Fault::HeaderMismatch { word: 1 }),
    (MIXED_SECOND_HEADER, Fault::HeaderMismatch { word: 1 }),
    (MIXED_CLASS_HEADER, Fault::HeaderMismatch { word: 1 }),
    (HEADER_OVERRUN, Fault::Overrun { word: 1 }),
    (LONE_SIZE_WORD, Fault::Overrun { word: 1 }),
    (LONE_CLASS_WORD, Fault::Overrun { word: 1 }),
    (OVERRUN, Fault::Overrun { word: 1 }),
    (FREE_OVERRUN, Fault::Overrun { word: 1 }),
    (OVERRUN_OF_TWO, Fault::Overrun { word: 1 }),
    (OVERRUN_OF_THREE, Fault::Overrun { word: 1 }),
];

#[test]
fn chunk_that_cannot_be_read(rt: HostRuntime) -> Result<(), Fail> {
    assert_all_unreadable(&rt, UNREADABLE)
}

/// Images with two faults, and the one that counts.
const FIRST_FAULTS: &[(TestImage, Fault)] = &[
    (MIXED_BEFORE_SIZE, Fault::HeaderMismatch { word: 1 }),
    (MIXED_BEFORE_OVERRUN, Fault::HeaderMismatch { word: 1 }),
    (HEADER_OVERRUN_BEFORE_MIXED, Fault::Overrun { word: 1 }),
    (FIRST_UNREADABLE_CHUNK, Fault::ZeroSize { word: 4 }),
    (UNREADABLE_BEFORE_SPECIAL, Fault::ZeroSize { word: 1 }),
];

#[test]
fn first_fault(rt: HostRuntime) -> Result<(), Fail> {
    assert_all_unreadable(&rt, FIRST_FAULTS)
}

/// A free chunk in place of the dead array of `CLASS_EDGE`. A class word is at 0x1018.
const FREE_CHUNK_BEFORE_CLASS_EDGE: TestImage = TestImage {
    changed: Some(Change {
        index: 1,
        word: 0xE,
    }),
    ..CLASS_EDGE
};

/// Asserts that this image is refused if its special objects array would be here.
fn assert_not_special<R: Threads + Wait + Sync + Abort + AllocGlobal>(
    rt: &R,
    special: u32,
) -> Result<(), Fail> {
    let image = TestImage {
        special,
        ..FREE_CHUNK_BEFORE_CLASS_EDGE
    };
    assert_unreadable(rt, &image, Fault::BadSpecialObjects)
}

#[test]
fn no_special_objects_array(rt: HostRuntime) -> Result<(), Fail> {
    for image in &[NO_OBJECT_AT_SPECIAL, FREE_CHUNK_AT_SPECIAL, EMPTY] {
        assert_unreadable(&rt, image, Fault::BadSpecialObjects)?;
    }
    for special in [0, 0xFFC, 0x1001, 0x1004, 0x1008, 0x1014, 0x1018, 0x1030] {
        assert_not_special(&rt, special)?;
    }
    Ok(())
}
