//! Files that are rejected for what their headers state, or for their length, in either byte order:
//! nothing is written.

use super::runs::assert_refused;
use sqz_image::Fault;
use sqz_object::Order;
use sqz_test_fixtures::Contents::{self, File, Image};
use sqz_test_fixtures::accepted::DEAD_ARRAY;
use sqz_test_fixtures::with_bad_headers::{
    BASE_TOO_HIGH, OTHER_HEADER_SIZE, OTHER_HEADER_SIZE_AND_UNEVEN_DATA_SIZE, OTHER_VERSION,
    OTHER_VERSION_AND_HEADER_SIZE, UNEVEN_BASE, UNEVEN_DATA_SIZE, UNEVEN_DATA_SIZE_AND_BASE,
};
use sqz_test_fixtures::with_other_bytes::{
    CUT_IN_DATA, CUT_IN_HEADER, NO_BYTES, SHORT_OF_ANOTHER_VERSION, UNEVEN_BASE_OF_TRUNCATED_DATA,
};
use sqz_test_fixtures::{PLAIN, TestFile, TestImage};
use sqz_trace::Weak;
use std::process::Abort;
use std::sync::Wait;
use std::test::Fail;
use std::thread::Threads;

/// A file that ends after its header.
const HEADER_ALONE: TestFile = TestFile {
    image: DEAD_ARRAY,
    length: Some(64),
    ..PLAIN
};

/// Files, and the fault of each. Of two faults the first counts.
const FAULTS: &[(Contents, Fault)] = &[
    (File(NO_BYTES), Fault::TooShort),
    (File(CUT_IN_HEADER), Fault::TooShort),
    (Image(OTHER_VERSION), Fault::BadVersion),
    (Image(OTHER_HEADER_SIZE), Fault::BadHeaderSize),
    (Image(UNEVEN_DATA_SIZE), Fault::BadDataSize),
    (Image(UNEVEN_BASE), Fault::BadBase),
    (Image(BASE_TOO_HIGH), Fault::BadBase),
    (File(CUT_IN_DATA), Fault::Truncated),
    (File(HEADER_ALONE), Fault::Truncated),
    (File(SHORT_OF_ANOTHER_VERSION), Fault::TooShort),
    (Image(OTHER_VERSION_AND_HEADER_SIZE), Fault::BadVersion),
    (
        Image(OTHER_HEADER_SIZE_AND_UNEVEN_DATA_SIZE),
        Fault::BadHeaderSize,
    ),
    (Image(UNEVEN_DATA_SIZE_AND_BASE), Fault::BadDataSize),
    (File(UNEVEN_BASE_OF_TRUNCATED_DATA), Fault::BadBase),
];

/// The same file with its words in this order.
fn in_order(contents: &Contents, order: Order) -> Contents {
    match *contents {
        Image(image) => Image(TestImage { order, ..image }),
        File(file) => File(TestFile {
            image: TestImage {
                order,
                ..file.image
            },
            ..file
        }),
    }
}

/// Asserts that a run over a file is rejected with this fault, in either byte order.
fn assert_header_refused<R: Threads + Wait + Sync + Abort + AllocGlobal>(
    rt: &R,
    weak: Weak,
    contents: &Contents,
    fault: Fault,
) -> Result<(), Fail> {
    for order in [Order::Little, Order::Big] {
        let file = in_order(contents, order).bytes(rt.alloc())?;
        assert_refused(rt, weak, file, fault)?;
    }
    Ok(())
}

#[test]
fn first_fault_of_a_header(rt: HostRuntime) -> Result<(), Fail> {
    for (contents, fault) in FAULTS {
        assert_header_refused(&rt, Weak::Keep, contents, *fault)?;
        assert_header_refused(&rt, Weak::Clear, contents, *fault)?;
    }
    Ok(())
}
