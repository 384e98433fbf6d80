//! Images with weak objects, and what is left if weak slots are cleared.

use super::chunks::Chunk::{Array, Fixed, Long, Short, Weak};
use super::chunks::{LEAF, NIL};
use super::images::{EMPTY, TestImage};
use super::worked::Contents::Image;
use super::worked::Outcome::Compacted;
use super::worked::{WEAK, WorkedImage};
use sqz_object::Order;

/// A weak object whose only slot points to an object to which nothing else points. Its class, whose
/// field 2 is data word 4, states no fixed field.
pub const WEAK_FIELDS: TestImage = TestImage {
    chunks: &[
        NIL,
        Fixed(&[1, 1, 0x405]),
        LEAF,
        Weak {
            class: 0x1004,
            fields: &[0x1014],
        },
        Array(&[0x1000, 0x1020]),
    ],
    special: 0x1028,
    ..EMPTY
};

/// What is left of `WEAK_FIELDS`. Data word 7 is the weak slot.
pub const WEAK_FIELDS_CLEARED: TestImage = TestImage {
    chunks: &[
        NIL,
        Fixed(&[1, 1, 0x405]),
        Weak {
            class: 0x1004,
            fields: &[0x1000],
        },
        Array(&[0x1000, 0x1018]),
    ],
    special: 0x1020,
    ..EMPTY
};

/// `WEAK_FIELDS` in a big-endian file.
pub const WEAK_SLOT_BIG_ENDIAN: TestImage = TestImage {
    order: Order::Big,
    ..WEAK_FIELDS
};

/// What is left of `WEAK_SLOT_BIG_ENDIAN`.
pub const WEAK_SLOT_BIG_ENDIAN_CLEARED: TestImage = TestImage {
    order: Order::Big,
    ..WEAK_FIELDS_CLEARED
};

/// A weak slot whose object is reachable all the same.
pub const WEAK_SLOT_OF_LIVE_OBJECT: TestImage = TestImage {
    chunks: &[
        NIL,
        LEAF,
        Fixed(&[1, 1, 0x405]),
        LEAF,
        Weak {
            class: 0x100C,
            fields: &[0x101C],
        },
        Array(&[0x1000, 0x1028, 0x101C]),
    ],
    special: 0x1030,
    ..EMPTY
};

/// What `WEAK_SLOT_OF_LIVE_OBJECT` is compacted to, if weak slots are kept too.
pub const WEAK_SLOT_OF_LIVE_OBJECT_ANSWER: TestImage = TestImage {
    chunks: &[
        NIL,
        Fixed(&[1, 1, 0x405]),
        LEAF,
        Weak {
            class: 0x1004,
            fields: &[0x1014],
        },
        Array(&[0x1000, 0x1020, 0x1014]),
    ],
    special: 0x1028,
    ..EMPTY
};

/// A fixed field keeps what it points to, and the weak slot after it does not.
pub const WEAK_FIXED_FIELD: TestImage = TestImage {
    chunks: &[
        NIL,
        Fixed(&[1, 1, 0x409]),
        LEAF,
        LEAF,
        Weak {
            class: 0x1004,
            fields: &[0x1014, 0x101C],
        },
        Array(&[0x1000, 0x1028]),
    ],
    special: 0x1034,
    ..EMPTY
};

/// What is left of `WEAK_FIXED_FIELD`.
pub const WEAK_FIXED_FIELD_CLEARED: TestImage = TestImage {
    chunks: &[
        NIL,
        Fixed(&[1, 1, 0x409]),
        LEAF,
        Weak {
            class: 0x1004,
            fields: &[0x1014, 0x1000],
        },
        Array(&[0x1000, 0x1020]),
    ],
    special: 0x102C,
    ..EMPTY
};

/// All of 64 fixed fields keep what they point to. Both groups of bits of the class count them.
pub const WEAK_SIXTY_FOUR_FIXED: TestImage = TestImage {
    chunks: &[
        NIL,
        Fixed(&[1, 1, 0x2_0005]),
        LEAF,
        LEAF,
        Long {
            class: 0x1004,
            compact: 0,
            format: 4,
            first: &[1; 63],
            others: &[0x1014, 0x101C],
        },
        Array(&[0x1000, 0x102C]),
    ],
    special: 0x1134,
    ..EMPTY
};

/// What is left of `WEAK_SIXTY_FOUR_FIXED`.
pub const WEAK_SIXTY_FOUR_FIXED_CLEARED: TestImage = TestImage {
    chunks: &[
        NIL,
        Fixed(&[1, 1, 0x2_0005]),
        LEAF,
        Long {
            class: 0x1004,
            compact: 0,
            format: 4,
            first: &[1; 63],
            others: &[0x1014, 0x1000],
        },
        Array(&[0x1000, 0x1024]),
    ],
    special: 0x112C,
    ..EMPTY
};

/// A weak array of a class with a name. Something else points to one of its two elements.
pub const WEAK_ARRAY: TestImage = TestImage {
    chunks: &[
        NIL,
        Fixed(&[1, 1, 0x405, 1, 1, 1, 0x1024]),
        Short {
            compact: 2,
            format: 11,
            fields: &[0x6B61_6557, 0x6172_7241, 0x79],
        },
        LEAF,
        Short {
            compact: 1,
            format: 0,
            fields: &[3],
        },
        Weak {
            class: 0x1004,
            fields: &[0x1034, 0x103C],
        },
        Array(&[0x1000, 0x1048, 0x103C]),
    ],
    special: 0x1054,
    ..EMPTY
};

/// What is left of `WEAK_ARRAY`.
pub const WEAK_ARRAY_CLEARED: TestImage = TestImage {
    chunks: &[
        NIL,
        Fixed(&[1, 1, 0x405, 1, 1, 1, 0x1024]),
        Short {
            compact: 2,
            format: 11,
            fields: &[0x6B61_6557, 0x6172_7241, 0x79],
        },
        Short {
            compact: 1,
            format: 0,
            fields: &[3],
        },
        Weak {
            class: 0x1004,
            fields: &[0x1000, 0x1034],
        },
        Array(&[0x1000, 0x1040, 0x1034]),
    ],
    special: 0x104C,
    ..EMPTY
};

/// The class histogram of `WEAK_ARRAY_CLEARED`.
pub const WEAK_ARRAY_CLEARED_CENSUS: &str = concat!(
    "         3           44 -------- compact 1\n",
    "         1           16 00001004 WeakArray\n",
    "         1           16 -------- compact 2\n",
    "         1           16 -------- compact 3\n",
    "         6           92 total\n",
);

/// The class histogram of `WEAK_ARRAY`.
pub const WEAK_ARRAY_CENSUS: &str = concat!(
    "         4           52 -------- compact 1\n",
    "         1           16 00001004 WeakArray\n",
    "         1           16 -------- compact 2\n",
    "         1           16 -------- compact 3\n",
    "         7          100 total\n",
);

/// The worked images among these.
const IMAGES: &[WorkedImage] = &[
    WorkedImage {
        name: "weak_array",
        input: Image(WEAK_ARRAY),
        kept: Compacted(Image(WEAK_ARRAY)),
        cleared: Some(Compacted(Image(WEAK_ARRAY_CLEARED))),
        census: Some(WEAK_ARRAY_CENSUS),
        cleared_census: Some(WEAK_ARRAY_CLEARED_CENSUS),
        ..WEAK
    },
    WorkedImage {
        name: "weak_fields",
        input: Image(WEAK_FIELDS),
        kept: Compacted(Image(WEAK_FIELDS)),
        cleared: Some(Compacted(Image(WEAK_FIELDS_CLEARED))),
        ..WEAK
    },
    WorkedImage {
        name: "weak_fixed_field",
        input: Image(WEAK_FIXED_FIELD),
        kept: Compacted(Image(WEAK_FIXED_FIELD)),
        cleared: Some(Compacted(Image(WEAK_FIXED_FIELD_CLEARED))),
        ..WEAK
    },
    WorkedImage {
        name: "weak_sixty_four_fixed",
        input: Image(WEAK_SIXTY_FOUR_FIXED),
        kept: Compacted(Image(WEAK_SIXTY_FOUR_FIXED)),
        cleared: Some(Compacted(Image(WEAK_SIXTY_FOUR_FIXED_CLEARED))),
        ..WEAK
    },
    WorkedImage {
        name: "weak_slot_big_endian",
        input: Image(WEAK_SLOT_BIG_ENDIAN),
        kept: Compacted(Image(WEAK_SLOT_BIG_ENDIAN)),
        cleared: Some(Compacted(Image(WEAK_SLOT_BIG_ENDIAN_CLEARED))),
        ..WEAK
    },
    WorkedImage {
        name: "weak_slot_of_live_object",
        input: Image(WEAK_SLOT_OF_LIVE_OBJECT),
        kept: Compacted(Image(WEAK_SLOT_OF_LIVE_OBJECT_ANSWER)),
        ..WEAK
    },
];

/// The worked images of this module.
pub(crate) fn images() -> &'static [WorkedImage] {
    IMAGES
}
