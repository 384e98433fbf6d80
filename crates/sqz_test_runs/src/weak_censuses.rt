//! Censuses of images with weak objects.

use super::censuses::assert_census;
use sqz_test_fixtures::Chunk::{self, Array, Fixed, Instance, LongArray};
use sqz_test_fixtures::{EMPTY, NIL, TestImage};
use sqz_trace::Weak;
use std::test::Fail;

/// A weak object with a class word. One of its weak slots points to an object of another class, and
/// one to that class; nothing else leads to these.
pub(crate) const WEAK_CLASS: TestImage = TestImage {
    chunks: &[
        NIL,
        Fixed(&[1, 1, 0x405]),
        Fixed(&[1, 1, 0x405]),
        Instance {
            class: 0x1014,
            fields: &[1],
        },
        Chunk::Weak {
            class: 0x1004,
            fields: &[0x1028, 0x1014],
        },
        Array(&[0x1000, 0x1034]),
    ],
    special: 0x1040,
    ..EMPTY
};

/// What is left of it if weak slots are cleared.
pub(crate) const WEAK_CLASS_CLEARED: TestImage = TestImage {
    chunks: &[
        NIL,
        Fixed(&[1, 1, 0x405]),
        Chunk::Weak {
            class: 0x1004,
            fields: &[0x1000, 0x1000],
        },
        Array(&[0x1000, 0x1018]),
    ],
    special: 0x1024,
    ..EMPTY
};

/// The census of what is left.
pub(crate) const WEAK_CLASS_CENSUS: &str = concat!(
    "         2           20 -------- compact 1\n",
    "         1           16 00001004 ?\n",
    "         1           12 -------- compact 3\n",
    "         4           48 total\n",
);

/// The class of the weak object is counted. What only its weak slots point to is counted if these
/// are kept.
#[test]
fn census_of_weak_object(rt: HostRuntime) -> Result<(), Fail> {
    assert_census(&rt, Weak::Clear, &WEAK_CLASS, WEAK_CLASS_CENSUS)?;
    let kept = concat!(
        "         3           36 -------- compact 1\n",
        "         1           16 00001004 ?\n",
        "         1           12 00001014 ?\n",
        "         1           12 -------- compact 3\n",
        "         6           76 total\n",
    );
    assert_census(&rt, Weak::Keep, &WEAK_CLASS, kept)
}

/// The array of compact classes is weak, and points to the class of the index 1.
const WEAK_COMPACT_CLASSES: TestImage = TestImage {
    chunks: &[
        NIL,
        Fixed(&[1, 1, 0x405]),
        Fixed(&[1, 1, 0x405]),
        Chunk::Weak {
            class: 0x1004,
            fields: &[0x1014],
        },
        LongArray {
            first: &[0x1000],
            last: 0x1028,
        },
    ],
    special: 0x1030,
    ..EMPTY
};

/// The class of the index 1 has a row if weak slots are kept.
#[test]
fn census_of_weak_compact_classes(rt: HostRuntime) -> Result<(), Fail> {
    let cleared = concat!(
        "         1          120 -------- compact 3\n",
        "         2           20 -------- compact 1\n",
        "         1           12 00001004 ?\n",
        "         4          152 total\n",
    );
    assert_census(&rt, Weak::Clear, &WEAK_COMPACT_CLASSES, cleared)?;
    let kept = concat!(
        "         1          120 -------- compact 3\n",
        "         3           36 00001014 ?\n",
        "         1           12 00001004 ?\n",
        "         5          168 total\n",
    );
    assert_census(&rt, Weak::Keep, &WEAK_COMPACT_CLASSES, kept)
}
