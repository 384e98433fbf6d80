//! Files with bytes before the header: where it is looked for, and what becomes of those bytes.

use super::runs::{
    SOUND, Written, assert_bytes, assert_refused, assert_writes, assert_writes_both, plan_of,
};
use super::weak_censuses::{WEAK_CLASS, WEAK_CLASS_CENSUS, WEAK_CLASS_CLEARED};
use sqz_image::{Fault, Image, MemorySink, read_image, write_image};
use sqz_object::Order;
use sqz_test_fixtures::accepted::{DEAD_ARRAY, NIL_ALONE};
use sqz_test_fixtures::with_bad_headers::{OTHER_HEADER_SIZE, UNEVEN_BASE, UNEVEN_DATA_SIZE};
use sqz_test_fixtures::{Before, EMPTY, PLAIN, TestFile, TestImage, bytes_of, file_in, file_of};
use sqz_tool::{Plan, Summary};
use sqz_trace::Weak;
use std::alloc::{AllocError, Global};
use std::process::Abort;
use std::sync::Wait;
use std::test::Fail;
use std::thread::Threads;

/// This many bytes, followed by the bytes of a file.
pub(crate) fn behind(alloc: Global, count: usize, file: &[u8]) -> Result<Vec<u8>, AllocError> {
    let mut bytes = Vec::new(alloc);
    bytes.resize(count, 0x23)?;
    bytes.extend_from_slice(file)?;
    Ok(bytes)
}

/// This many bytes, followed by the bytes of an image's file.
pub(crate) fn file_behind(
    alloc: Global,
    count: usize,
    image: &TestImage,
) -> Result<Vec<u8>, AllocError> {
    behind(alloc, count, &file_of(alloc, image)?)
}

/// The bytes of a file, followed by five bytes.
pub(crate) fn with_tail(mut file: Vec<u8>) -> Result<Vec<u8>, AllocError> {
    file.extend_from_slice(&[1, 2, 3, 4, 5])?;
    Ok(file)
}

/// This many bytes, followed by the bytes of an image's file with words in this order.
fn file_in_behind(
    alloc: Global,
    count: usize,
    order: Order,
    image: &TestImage,
) -> Result<Vec<u8>, AllocError> {
    let file = TestFile {
        before: Before::Filler(count),
        image: TestImage { order, ..*image },
        ..PLAIN
    };
    bytes_of(alloc, &file)
}

/// The bytes of an image's file with words in this order, after 512 bytes.
fn behind_512(alloc: Global, order: Order, image: &TestImage) -> Result<Vec<u8>, AllocError> {
    file_in_behind(alloc, 512, order, image)
}

/// What a run over `DEAD_ARRAY` counts.
const DEAD_ARRAY_SUMMARY: Summary = Summary {
    objects: 3,
    kept: 2,
    data_before: 24,
    data_after: 12,
};

/// This many bytes, followed by the bytes of the file of `DEAD_ARRAY` and five bytes.
fn array_with_tail(alloc: Global, count: usize, order: Order) -> Result<Vec<u8>, AllocError> {
    with_tail(file_in_behind(alloc, count, order, &DEAD_ARRAY)?)
}

/// Asserts that a run over these bytes keeps this many before the header, and none of those after
/// the data.
pub(crate) fn assert_array_left_out<R: Threads + Wait + Sync + Abort + AllocGlobal>(
    rt: &R,
    count: usize,
    order: Order,
    weak: Weak,
) -> Result<(), Fail> {
    let wanted = file_in_behind(rt.alloc(), count, order, &NIL_ALONE)?;
    let file = array_with_tail(rt.alloc(), count, order)?;
    let summary = assert_writes(rt, weak, file, &wanted)?;
    assert_eq!(rt; summary, DEAD_ARRAY_SUMMARY);
    Ok(())
}

#[test]
fn keeps_512_bytes(rt: HostRuntime) -> Result<(), Fail> {
    for order in [Order::Little, Order::Big] {
        for weak in [Weak::Keep, Weak::Clear] {
            assert_array_left_out(&rt, 512, order, weak)?;
        }
    }
    Ok(())
}

/// The first bytes, this many, of a file whose image follows 512 bytes.
fn cut_to(alloc: Global, order: Order, length: usize) -> Result<Vec<u8>, AllocError> {
    let mut file = behind_512(alloc, order, &DEAD_ARRAY)?;
    file.truncate(length);
    Ok(file)
}

/// Asserts that a run over those bytes is refused with this fault, in either byte order.
fn assert_cut_refused<R: Threads + Wait + Sync + Abort + AllocGlobal>(
    rt: &R,
    weak: Weak,
    length: usize,
    fault: Fault,
) -> Result<(), Fail> {
    for order in [Order::Little, Order::Big] {
        assert_refused(rt, weak, cut_to(rt.alloc(), order, length)?, fault)?;
    }
    Ok(())
}

/// Lengths of a file that has too few bytes, and the fault of each.
const SHORT_LENGTHS: &[(usize, Fault)] = &[
    (63, Fault::TooShort),
    (64, Fault::BadVersion),
    (511, Fault::BadVersion),
    (512, Fault::BadVersion),
    (515, Fault::BadVersion),
    (516, Fault::TooShort),
    (575, Fault::TooShort),
    (576, Fault::Truncated),
    (599, Fault::Truncated),
];

/// The version counts after 512 bytes if it is all there, and from it on all is counted.
#[test]
fn too_few_bytes(rt: HostRuntime) -> Result<(), Fail> {
    for (length, fault) in SHORT_LENGTHS {
        assert_cut_refused(&rt, Weak::Keep, *length, *fault)?;
        assert_cut_refused(&rt, Weak::Clear, *length, *fault)?;
    }
    let file = behind(rt.alloc(), 515, &[])?;
    assert_refused(&rt, Weak::Keep, file, Fault::BadVersion)
}

#[test]
fn other_counts_of_bytes(rt: HostRuntime) -> Result<(), Fail> {
    for count in [1, 4, 508, 511, 513, 516, 1024] {
        let file = file_behind(rt.alloc(), count, &DEAD_ARRAY)?;
        assert_refused(&rt, Weak::Keep, file, Fault::BadVersion)?;
    }
    Ok(())
}

/// A file of a dead array in the first byte order, and of nil in the second after 512 bytes.
fn array_and_nil(alloc: Global, first: Order, second: Order) -> Result<Vec<u8>, AllocError> {
    let array = TestImage {
        order: first,
        ..DEAD_ARRAY
    };
    let nil = TestImage {
        order: second,
        ..NIL_ALONE
    };
    let file = TestFile {
        before: Before::Image(array),
        image: nil,
        ..PLAIN
    };
    bytes_of(alloc, &file)
}

/// Asserts that a run over this file compacts its first image, and leaves out the second.
fn assert_first_compacted<R: Threads + Wait + Sync + Abort + AllocGlobal>(
    rt: &R,
    first: Order,
    second: Order,
) -> Result<(), Fail> {
    let wanted = file_in(rt.alloc(), first, &NIL_ALONE)?;
    let file = array_and_nil(rt.alloc(), first, second)?;
    assert_writes(rt, Weak::Keep, file, &wanted)?;
    Ok(())
}

#[test]
fn front_goes_first(rt: HostRuntime) -> Result<(), Fail> {
    for first in [Order::Little, Order::Big] {
        assert_first_compacted(&rt, first, Order::Little)?;
        assert_first_compacted(&rt, first, Order::Big)?;
    }
    Ok(())
}

/// A size of the data past the end of the file.
const DATA_PAST_END: TestImage = TestImage {
    data_size: Some(1024),
    ..DEAD_ARRAY
};

/// Images with a bad header, and the fault of each.
const BROKEN_HEADERS: &[(TestImage, Fault)] = &[
    (OTHER_HEADER_SIZE, Fault::BadHeaderSize),
    (UNEVEN_DATA_SIZE, Fault::BadDataSize),
    (UNEVEN_BASE, Fault::BadBase),
    (DATA_PAST_END, Fault::Truncated),
];

/// Asserts that a file with this image at the front is rejected with this fault, although a valid
/// image follows 512 bytes.
fn assert_front_refused<R: Threads + Wait + Sync + Abort + AllocGlobal>(
    rt: &R,
    front: &TestImage,
    fault: Fault,
) -> Result<(), Fail> {
    let file = TestFile {
        before: Before::Image(*front),
        image: DEAD_ARRAY,
        ..PLAIN
    };
    assert_refused(rt, Weak::Keep, bytes_of(rt.alloc(), &file)?, fault)
}

#[test]
fn broken_header_at_the_front(rt: HostRuntime) -> Result<(), Fail> {
    for (front, fault) in BROKEN_HEADERS {
        assert_front_refused(&rt, front, *fault)?;
    }
    Ok(())
}

/// Asserts what a run that clears weak slots writes of an image after 512 bytes, with words in this
/// order.
fn assert_cleared_behind_512<R: Threads + Wait + Sync + Abort + AllocGlobal>(
    rt: &R,
    plan: &Plan,
    order: Order,
) -> Result<(), Fail> {
    let wanted = behind_512(rt.alloc(), order, &WEAK_CLASS_CLEARED)?;
    let file = behind_512(rt.alloc(), order, &WEAK_CLASS)?;
    let wanted = Written {
        image: &wanted,
        census: WEAK_CLASS_CENSUS,
    };
    assert_writes_both(rt, plan, &SOUND, file, wanted)
}

#[test]
fn census_with_weak_slots_cleared(rt: HostRuntime) -> Result<(), Fail> {
    let plan = plan_of(Weak::Clear, true)?;
    assert_cleared_behind_512(&rt, &plan, Order::Little)?;
    assert_cleared_behind_512(&rt, &plan, Order::Big)
}

/// What is written of `NIL_ALONE` if none of its pieces is written.
const NO_DATA: TestImage = TestImage {
    special: 0x1004,
    ..EMPTY
};

/// Nil's image after this many bytes, as it is read.
fn image_behind(alloc: Global, count: usize) -> Result<Image, Fault> {
    read_image(alloc, &file_behind(alloc, count, &NIL_ALONE)?)
}

/// Asserts that an image says that this many bytes are before its header.
fn assert_prefix<R: Abort + AllocGlobal>(rt: &R, image: &Image, count: usize) -> Result<(), Fail> {
    let wanted = behind(rt.alloc(), count, &[])?;
    assert_bytes(rt, image.prefix(), &wanted);
    Ok(())
}

/// The bytes that are written of an image without its pieces.
fn written_of(alloc: Global, image: &Image) -> Result<Vec<u8>, Fault> {
    let mut sink = MemorySink::new(alloc, 4096, None)?;
    write_image(image, 0x1004, &[], &mut sink)?;
    Ok(Vec::from_slice(alloc, sink.contents())?)
}

/// Asserts that this many bytes are written before an image's header.
fn assert_prefix_written<R: Abort + AllocGlobal>(
    rt: &R,
    image: &Image,
    count: usize,
) -> Result<(), Fail> {
    let wanted = file_behind(rt.alloc(), count, &NO_DATA)?;
    assert_bytes(rt, &written_of(rt.alloc(), image)?, &wanted);
    Ok(())
}

/// An image has the bytes before its header, and they are written.
#[test]
fn bytes_of_an_image(rt: HostRuntime) -> Result<(), Fail> {
    for count in [0, 512] {
        let image = image_behind(rt.alloc(), count)?;
        assert_prefix(&rt, &image, count)?;
        assert_prefix_written(&rt, &image, count)?;
    }
    Ok(())
}
