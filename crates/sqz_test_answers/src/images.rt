//! Small images of these tests. Object 0 of each is nil.

use sqz_test_fixtures::Chunk::{Array, Fixed, Instance};
use sqz_test_fixtures::{EMPTY, LEAF, NIL, TestImage};

/// The special objects array, object 5, points to object 1, which points to objects 2 and 3. Both
/// point to object 4.
pub(crate) const DIAMOND: TestImage = TestImage {
    chunks: &[
        NIL,
        Fixed(&[0x1010, 0x1018]),
        Fixed(&[0x1020]),
        Fixed(&[0x1020]),
        LEAF,
        Array(&[0x1000, 0x1004]),
    ],
    special: 0x1028,
    ..EMPTY
};

/// The special objects array, object 4, points to object 1, that to object 2, and that to object 3.
pub(crate) const CHAIN: TestImage = TestImage {
    chunks: &[
        NIL,
        Fixed(&[0x100C]),
        Fixed(&[0x1014]),
        LEAF,
        Array(&[0x1000, 0x1004]),
    ],
    special: 0x101C,
    ..EMPTY
};

/// Objects 1 and 2 point to each other. The special objects array, object 3, points to both.
pub(crate) const CYCLE_WITH_TWO_ENTRIES: TestImage = TestImage {
    chunks: &[
        NIL,
        Fixed(&[0x100C]),
        Fixed(&[0x1004]),
        Array(&[0x1000, 0x1004, 0x100C]),
    ],
    special: 0x1014,
    ..EMPTY
};

/// Object 1 and the special objects array, object 2, point to each other.
pub(crate) const ROOT_IN_CYCLE: TestImage = TestImage {
    chunks: &[NIL, Fixed(&[0x100C]), Array(&[0x1000, 0x1004])],
    special: 0x100C,
    ..EMPTY
};

/// The class word and two fields of object 2 point to object 1.
pub(crate) const THREE_SLOTS: TestImage = TestImage {
    chunks: &[
        NIL,
        LEAF,
        Instance {
            class: 0x1004,
            fields: &[0x1004, 1, 0x1004],
        },
        Array(&[0x1000, 0x1010]),
    ],
    special: 0x1020,
    ..EMPTY
};

/// The dead object 2 and the special objects array, object 3, point to object 1.
pub(crate) const DEAD_REFERRER: TestImage = TestImage {
    chunks: &[NIL, LEAF, Fixed(&[0x1004]), Array(&[0x1000, 0x1004])],
    special: 0x1014,
    ..EMPTY
};
