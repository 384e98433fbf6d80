//! Truncated files, headers that state fewer data, and words that state the most and the least.

use super::plans::{Case, assert_answers};
use super::prefixes::behind;
use super::runs::{assert_refused, assert_refused_by, nine_plans};
use sqz_image::Fault;
use sqz_object::{Order, put_word};
use sqz_test_fixtures::Chunk::Words;
use sqz_test_fixtures::with_bad_methods::ALL_ONES;
use sqz_test_fixtures::with_classes::{CLASS_EDGE, CLASS_EDGE_ANSWER, CLASS_NAMES};
use sqz_test_fixtures::{EMPTY, TestImage, file_in, file_of};
use sqz_trace::Weak;
use std::process::Abort;
use std::sync::Wait;
use std::test::Fail;
use std::thread::Threads;

/// Asserts that runs over a file by each of nine plans are refused with this fault, and write
/// nothing.
fn assert_refused_by_all<R: Threads + Wait + Sync + Abort + AllocGlobal>(
    rt: &R,
    weak: Weak,
    file: &[u8],
    fault: Fault,
) -> Result<(), Fail> {
    for plan in &nine_plans(rt.alloc(), weak)? {
        assert_refused_by(rt, plan, Vec::from_slice(rt.alloc(), file)?, fault)?;
    }
    Ok(())
}

/// The bytes of the image with a class.
fn class_file<R: Abort + AllocGlobal>(rt: &R) -> Result<Vec<u8>, Fail> {
    let file = file_of(rt.alloc(), &CLASS_NAMES)?;
    assert_eq!(rt; file.len(), 240);
    Ok(file)
}

/// The fault of a file that ends before the data do.
fn fault_of_length(length: usize) -> Fault {
    if length < 64 {
        Fault::TooShort
    } else {
        Fault::Truncated
    }
}

#[test]
fn each_length_of_a_file(rt: HostRuntime) -> Result<(), Fail> {
    let mut file = class_file(&rt)?;
    for length in (0..240).rev() {
        file.truncate(length);
        for weak in [Weak::Keep, Weak::Clear] {
            assert_refused_by_all(&rt, weak, &file, fault_of_length(length))?;
        }
    }
    Ok(())
}

/// The first bytes, this many, of that file after 512 bytes.
fn cut_behind_512<R: Abort + AllocGlobal>(rt: &R, length: usize) -> Result<Vec<u8>, Fail> {
    let mut file = behind(rt.alloc(), 512, &class_file(rt)?)?;
    file.truncate(length);
    Ok(file)
}

#[test]
fn each_length_behind_512_bytes(rt: HostRuntime) -> Result<(), Fail> {
    for length in (516..752).rev() {
        let file = cut_behind_512(&rt, length)?;
        assert_refused(&rt, Weak::Keep, file, fault_of_length(length - 512))?;
    }
    Ok(())
}

/// A dead array, an object with a class word and that class.
const EDGE_CASE: Case = Case {
    image: CLASS_EDGE,
    answer: CLASS_EDGE_ANSWER,
    text: concat!(
        "         1           12 00001004 ?\n",
        "         2           12 -------- compact 1\n",
        "         1           12 -------- compact 3\n",
        "         4           36 total\n",
    ),
};

/// Makes the header of their file say that the data have this many bytes.
fn state_size<R: Abort>(rt: &R, file: &mut [u8], size: u32) {
    assert_eq!(rt; file.len(), 112);
    file[8..12].copy_from_slice(&put_word(Order::Little, size));
}

/// The bytes of their file, whose header says that the data have this many bytes.
fn file_that_says<R: Abort + AllocGlobal>(rt: &R, size: u32) -> Result<Vec<u8>, Fail> {
    let mut file = file_of(rt.alloc(), &CLASS_EDGE)?;
    state_size(rt, &mut file, size);
    Ok(file)
}

/// Asserts that runs over a file are refused with this fault, whether weak slots are kept or
/// cleared.
fn assert_refused_by_both<R: Threads + Wait + Sync + Abort + AllocGlobal>(
    rt: &R,
    file: &[u8],
    fault: Fault,
) -> Result<(), Fail> {
    assert_refused_by_all(rt, Weak::Keep, file, fault)?;
    assert_refused_by_all(rt, Weak::Clear, file, fault)
}

/// Asserts what runs over the whole file write, whether weak slots are kept or cleared.
fn assert_edge_answers<R: Threads + Wait + Sync + Abort + AllocGlobal>(rt: &R) -> Result<(), Fail> {
    for weak in [Weak::Keep, Weak::Clear] {
        assert_answers(rt, weak, &EDGE_CASE)?;
    }
    Ok(())
}

/// Asserts that the file which says 48 is that of the image.
fn assert_whole_says_48<R: Abort + AllocGlobal>(rt: &R) -> Result<(), Fail> {
    let whole = file_that_says(rt, 48)?;
    assert_eq!(rt; whole, file_of(rt.alloc(), &CLASS_EDGE)?);
    Ok(())
}

/// Sizes that data of 48 bytes may say, and the fault of each.
const SHORTER_SIZES: &[(u32, Fault)] = &[
    (0, Fault::BadSpecialObjects),
    (4, Fault::BadSpecialObjects),
    (8, Fault::Overrun { word: 1 }),
    (12, Fault::Overrun { word: 1 }),
    (16, Fault::BadSpecialObjects),
    (20, Fault::Overrun { word: 4 }),
    (24, Fault::BadSpecialObjects),
    (28, Fault::Overrun { word: 6 }),
    (32, Fault::Overrun { word: 6 }),
    (36, Fault::BadSpecialObjects),
    (40, Fault::Overrun { word: 9 }),
    (44, Fault::Overrun { word: 9 }),
];

#[test]
fn data_that_say_they_are_shorter(rt: HostRuntime) -> Result<(), Fail> {
    for (size, fault) in SHORTER_SIZES {
        assert_refused_by_both(&rt, &file_that_says(&rt, *size)?, *fault)?;
    }
    assert_whole_says_48(&rt)?;
    assert_edge_answers(&rt)
}

/// Header words that are not all there.
const TWO_ZEROS: TestImage = TestImage {
    chunks: &[Words(&[0; 2])],
    ..EMPTY
};

/// A size of 0.
const THREE_ZEROS: TestImage = TestImage {
    chunks: &[Words(&[0; 3])],
    ..EMPTY
};

/// Fewer words than the first of them states.
const FOUR_ONES: TestImage = TestImage {
    chunks: &[Words(&[0xFFFF_FFFF; 4])],
    ..EMPTY
};

/// Asserts that runs over an image are refused with this fault by each of nine plans, in either
/// byte order.
fn assert_image_refused_by_all<R: Threads + Wait + Sync + Abort + AllocGlobal>(
    rt: &R,
    weak: Weak,
    image: &TestImage,
    fault: Fault,
) -> Result<(), Fail> {
    for order in [Order::Little, Order::Big] {
        assert_refused_by_all(rt, weak, &file_in(rt.alloc(), order, image)?, fault)?;
    }
    Ok(())
}

/// Images whose words state the least size or the most, and the fault of each if weak slots are
/// kept and if they are cleared: 63 words of ones are a method with fewer literals than it states,
/// whose field 0 points to no object.
const ZEROS_AND_ONES: &[(TestImage, Fault, Fault)] = &[
    (
        TWO_ZEROS,
        Fault::Overrun { word: 0 },
        Fault::Overrun { word: 0 },
    ),
    (
        THREE_ZEROS,
        Fault::ZeroSize { word: 0 },
        Fault::ZeroSize { word: 0 },
    ),
    (
        FOUR_ONES,
        Fault::Overrun { word: 0 },
        Fault::Overrun { word: 0 },
    ),
    (ALL_ONES, Fault::BadMethod { address: 0x1000 }, Fault::NoNil),
];

#[test]
fn words_of_zeros_and_of_ones(rt: HostRuntime) -> Result<(), Fail> {
    for (image, kept, cleared) in ZEROS_AND_ONES {
        assert_image_refused_by_all(&rt, Weak::Keep, image, *kept)?;
        assert_image_refused_by_all(&rt, Weak::Clear, image, *cleared)?;
    }
    Ok(())
}
