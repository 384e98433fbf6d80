//! Images without weak objects that are accepted.

use super::chunks::Chunk::{Array, Fixed, Free, Long, Short, Words};
use super::chunks::NIL;
use super::images::{EMPTY, TestImage};
use super::worked::Contents::Image;
use super::worked::Outcome::{Compacted, Rejected};
use super::worked::{ACCEPTED, WEAK, WorkedImage};
use sqz_object::Order;

/// Nil, and a special objects array that points to it: what is left of many images.
pub const NIL_ALONE: TestImage = TestImage {
    chunks: &[NIL, Array(&[0x1000])],
    special: 0x1004,
    ..EMPTY
};

/// The class histogram of `NIL_ALONE`.
pub const NIL_ALONE_CENSUS: &str = concat!(
    "         1            8 -------- compact 3\n",
    "         1            4 -------- compact 1\n",
    "         2           12 total\n",
);

/// An array that nothing points to is left out, and what follows moves down.
pub const DEAD_ARRAY: TestImage = TestImage {
    chunks: &[NIL, Array(&[1, 1]), Array(&[0x1000])],
    special: 0x1010,
    ..EMPTY
};

/// `DEAD_ARRAY` in a big-endian file.
pub const BIG_ENDIAN: TestImage = TestImage {
    order: Order::Big,
    ..DEAD_ARRAY
};

/// What `BIG_ENDIAN` is compacted to.
pub const BIG_ENDIAN_ANSWER: TestImage = TestImage {
    order: Order::Big,
    ..NIL_ALONE
};

/// A word of a dead object may be anything.
pub const DEAD_BAD_POINTER: TestImage = TestImage {
    chunks: &[NIL, Array(&[0x1002, 1]), Array(&[0x1000])],
    special: 0x1010,
    ..EMPTY
};

/// A free chunk is left out.
pub const FREE_CHUNK: TestImage = TestImage {
    chunks: &[NIL, Free(&[1, 1]), Array(&[0x1000])],
    special: 0x1010,
    ..EMPTY
};

/// A free chunk may have one word.
pub const FREE_WORD: TestImage = TestImage {
    chunks: &[NIL, Free(&[]), Array(&[0x1000])],
    special: 0x1008,
    ..EMPTY
};

/// A free chunk may be the last.
pub const FREE_CHUNK_LAST: TestImage = TestImage {
    chunks: &[NIL, Array(&[0x1000]), Free(&[1])],
    special: 0x1004,
    ..EMPTY
};

/// A dead object may have no class.
pub const DEAD_WITHOUT_CLASS: TestImage = TestImage {
    chunks: &[
        NIL,
        Short {
            compact: 0,
            format: 1,
            fields: &[1],
        },
        Array(&[0x1000]),
    ],
    special: 0x100C,
    ..EMPTY
};

/// A dead method may be bad: its field 0 is no integer.
pub const DEAD_BAD_METHOD: TestImage = TestImage {
    chunks: &[
        NIL,
        Short {
            compact: 5,
            format: 12,
            fields: &[0x1000],
        },
        Array(&[0x1000]),
    ],
    special: 0x100C,
    ..EMPTY
};

/// A dead context may be bad: it has no stack pointer.
pub const DEAD_BAD_CONTEXT: TestImage = TestImage {
    chunks: &[
        NIL,
        Short {
            compact: 13,
            format: 3,
            fields: &[1],
        },
        Array(&[0x1000]),
    ],
    special: 0x100C,
    ..EMPTY
};

/// An image that ends at the address 2^32.
pub const HIGHEST_BASE: TestImage = TestImage {
    base: 0xFFFF_FFE8,
    chunks: &[NIL, Array(&[1, 1]), Array(&[0xFFFF_FFE8])],
    special: 0xFFFF_FFF8,
    ..EMPTY
};

/// What `HIGHEST_BASE` is compacted to.
pub const HIGHEST_BASE_ANSWER: TestImage = TestImage {
    base: 0xFFFF_FFE8,
    chunks: &[NIL, Array(&[0xFFFF_FFE8])],
    special: 0xFFFF_FFEC,
    ..EMPTY
};

/// The special objects array is the only object.
pub const SPECIAL_ARRAY_ALONE: TestImage = TestImage {
    chunks: &[Array(&[])],
    ..EMPTY
};

/// The ends of the range of integers are kept.
pub const INTEGERS: TestImage = TestImage {
    chunks: &[NIL, Array(&[0x1000, 0x7FFF_FFFF, 0xFFFF_FFFF, 0x8000_0001])],
    special: 0x1004,
    ..EMPTY
};

/// The bits of a base header above the compact index are kept.
pub const UPPER_HEADER_BITS: TestImage = TestImage {
    chunks: &[NIL, Words(&[0xFFFE_110B, 1]), Array(&[0x1000, 0x1004])],
    special: 0x100C,
    ..EMPTY
};

/// Two dead objects point to each other, and so do two live ones.
pub const DEAD_CYCLE: TestImage = TestImage {
    chunks: &[
        NIL,
        Fixed(&[0x1014]),
        Fixed(&[0x101C]),
        Fixed(&[0x1004]),
        Fixed(&[0x100C]),
        Array(&[0x1000, 0x1004]),
    ],
    special: 0x1024,
    ..EMPTY
};

/// What `DEAD_CYCLE` is compacted to.
pub const DEAD_CYCLE_ANSWER: TestImage = TestImage {
    chunks: &[
        NIL,
        Fixed(&[0x100C]),
        Fixed(&[0x1004]),
        Array(&[0x1000, 0x1004]),
    ],
    special: 0x1014,
    ..EMPTY
};

/// The class histogram of `DEAD_CYCLE`.
pub const DEAD_CYCLE_CENSUS: &str = concat!(
    "         3           20 -------- compact 1\n",
    "         1           12 -------- compact 3\n",
    "         4           32 total\n",
);

/// An object of 63 words, which are all that a size field can say.
pub const LARGEST_SHORT_OBJECT: TestImage = TestImage {
    chunks: &[
        NIL,
        Short {
            compact: 1,
            format: 2,
            fields: &[1; 62],
        },
        Array(&[0x1000, 0x1004]),
    ],
    special: 0x1100,
    ..EMPTY
};

/// An object of 64 words from its base header on, which are more than a size field can say.
pub const THREE_WORD_HEADER: TestImage = TestImage {
    chunks: &[
        NIL,
        Array(&[1, 1]),
        Long {
            class: 0x1000,
            compact: 0,
            format: 2,
            first: &[1; 63],
            others: &[],
        },
        Array(&[0x1000, 0x1018]),
    ],
    special: 0x1118,
    ..EMPTY
};

/// What `THREE_WORD_HEADER` is compacted to.
pub const THREE_WORD_HEADER_ANSWER: TestImage = TestImage {
    chunks: &[
        NIL,
        Long {
            class: 0x1000,
            compact: 0,
            format: 2,
            first: &[1; 63],
            others: &[],
        },
        Array(&[0x1000, 0x100C]),
    ],
    special: 0x110C,
    ..EMPTY
};

/// The worked images among these.
const IMAGES: &[WorkedImage] = &[
    WorkedImage {
        name: "big_endian",
        input: Image(BIG_ENDIAN),
        kept: Compacted(Image(BIG_ENDIAN_ANSWER)),
        census: Some(NIL_ALONE_CENSUS),
        ..ACCEPTED
    },
    WorkedImage {
        name: "dead_array",
        input: Image(DEAD_ARRAY),
        kept: Compacted(Image(NIL_ALONE)),
        census: Some(NIL_ALONE_CENSUS),
        ..ACCEPTED
    },
    WorkedImage {
        name: "dead_bad_context",
        input: Image(DEAD_BAD_CONTEXT),
        kept: Compacted(Image(NIL_ALONE)),
        ..ACCEPTED
    },
    WorkedImage {
        name: "dead_bad_method",
        input: Image(DEAD_BAD_METHOD),
        kept: Compacted(Image(NIL_ALONE)),
        ..ACCEPTED
    },
    WorkedImage {
        name: "dead_bad_pointer",
        input: Image(DEAD_BAD_POINTER),
        kept: Compacted(Image(NIL_ALONE)),
        ..ACCEPTED
    },
    WorkedImage {
        name: "dead_cycle",
        input: Image(DEAD_CYCLE),
        kept: Compacted(Image(DEAD_CYCLE_ANSWER)),
        census: Some(DEAD_CYCLE_CENSUS),
        ..ACCEPTED
    },
    WorkedImage {
        name: "dead_without_class",
        input: Image(DEAD_WITHOUT_CLASS),
        kept: Compacted(Image(NIL_ALONE)),
        ..ACCEPTED
    },
    WorkedImage {
        name: "free_chunk",
        input: Image(FREE_CHUNK),
        kept: Compacted(Image(NIL_ALONE)),
        ..ACCEPTED
    },
    WorkedImage {
        name: "highest_base",
        input: Image(HIGHEST_BASE),
        kept: Compacted(Image(HIGHEST_BASE_ANSWER)),
        ..ACCEPTED
    },
    WorkedImage {
        name: "integers",
        input: Image(INTEGERS),
        kept: Compacted(Image(INTEGERS)),
        ..ACCEPTED
    },
    WorkedImage {
        name: "largest_short_object",
        input: Image(LARGEST_SHORT_OBJECT),
        kept: Compacted(Image(LARGEST_SHORT_OBJECT)),
        ..ACCEPTED
    },
    WorkedImage {
        name: "special_array_alone",
        input: Image(SPECIAL_ARRAY_ALONE),
        kept: Compacted(Image(SPECIAL_ARRAY_ALONE)),
        cleared: Some(Rejected("fault 21: nil not found")),
        ..WEAK
    },
    WorkedImage {
        name: "three_word_header",
        input: Image(THREE_WORD_HEADER),
        kept: Compacted(Image(THREE_WORD_HEADER_ANSWER)),
        ..ACCEPTED
    },
];

/// The worked images of this module.
pub(crate) fn images() -> &'static [WorkedImage] {
    IMAGES
}
