//! Images that show which fields of each format are traced, and what they are compacted to.

use super::chunks::Chunk::{Array, Each, Fixed, Short};
use super::chunks::{LEAF, NIL};
use super::images::{EMPTY, TestImage};
use super::worked::Contents::Image;
use super::worked::Outcome::{Compacted, Rejected};
use super::worked::{ACCEPTED, WEAK, WorkedImage};

/// The literals of a method are traced, and the words after them are kept as they are.
pub const METHOD_LITERALS: TestImage = TestImage {
    chunks: &[
        NIL,
        LEAF,
        LEAF,
        Short {
            compact: 5,
            format: 12,
            fields: &[0x801, 0x100C, 0x1000, 0x100C],
        },
        Array(&[0x1000, 0x1014]),
    ],
    special: 0x1028,
    ..EMPTY
};

/// What `METHOD_LITERALS` is compacted to.
pub const METHOD_LITERALS_ANSWER: TestImage = TestImage {
    chunks: &[
        NIL,
        LEAF,
        Short {
            compact: 5,
            format: 12,
            fields: &[0x801, 0x1004, 0x1000, 0x100C],
        },
        Array(&[0x1000, 0x100C]),
    ],
    special: 0x1020,
    ..EMPTY
};

/// All fields of the formats 0 to 4 are traced.
pub const TRACED_FORMATS: TestImage = TestImage {
    chunks: &[
        NIL,
        Array(&[1, 1]),
        Short {
            compact: 1,
            format: 0,
            fields: &[0x1018],
        },
        Fixed(&[0x1020]),
        Short {
            compact: 1,
            format: 2,
            fields: &[0x1028],
        },
        Short {
            compact: 1,
            format: 3,
            fields: &[0x1030],
        },
        Short {
            compact: 1,
            format: 4,
            fields: &[0x1000],
        },
        Array(&[0x1010]),
    ],
    special: 0x1038,
    ..EMPTY
};

/// What `TRACED_FORMATS` is compacted to if weak slots are kept.
pub const TRACED_FORMATS_ANSWER: TestImage = TestImage {
    chunks: &[
        NIL,
        Short {
            compact: 1,
            format: 0,
            fields: &[0x100C],
        },
        Fixed(&[0x1014]),
        Short {
            compact: 1,
            format: 2,
            fields: &[0x101C],
        },
        Short {
            compact: 1,
            format: 3,
            fields: &[0x1024],
        },
        Short {
            compact: 1,
            format: 4,
            fields: &[0x1000],
        },
        Array(&[0x1004]),
    ],
    special: 0x102C,
    ..EMPTY
};

/// No field of the formats 5 to 11 is traced.
pub const UNTRACED_FORMATS: TestImage = TestImage {
    chunks: &[
        NIL,
        Array(&[1, 1]),
        Each {
            kinds: &[(1, 5), (1, 6), (1, 7), (1, 8), (1, 9), (1, 10), (1, 11)],
            fields: &[0x1010],
        },
        Array(&[
            0x1000, 0x1010, 0x1018, 0x1020, 0x1028, 0x1030, 0x1038, 0x1040,
        ]),
    ],
    special: 0x1048,
    ..EMPTY
};

/// What `UNTRACED_FORMATS` is compacted to.
pub const UNTRACED_FORMATS_ANSWER: TestImage = TestImage {
    chunks: &[
        NIL,
        Each {
            kinds: &[(1, 5), (1, 6), (1, 7), (1, 8), (1, 9), (1, 10), (1, 11)],
            fields: &[0x1010],
        },
        Array(&[
            0x1000, 0x1004, 0x100C, 0x1014, 0x101C, 0x1024, 0x102C, 0x1034,
        ]),
    ],
    special: 0x103C,
    ..EMPTY
};

/// A method of literals to its end.
pub const LITERALS_ALONE: TestImage = TestImage {
    chunks: &[
        NIL,
        LEAF,
        LEAF,
        Short {
            compact: 5,
            format: 12,
            fields: &[0x801, 0x100C, 0x1000],
        },
        Array(&[0x1000, 0x1014]),
    ],
    special: 0x1024,
    ..EMPTY
};

/// What `LITERALS_ALONE` is compacted to.
pub const LITERALS_ALONE_ANSWER: TestImage = TestImage {
    chunks: &[
        NIL,
        LEAF,
        Short {
            compact: 5,
            format: 12,
            fields: &[0x801, 0x1004, 0x1000],
        },
        Array(&[0x1000, 0x100C]),
    ],
    special: 0x101C,
    ..EMPTY
};

/// The fields of a method: a header that states one literal, with all bits set that do not count
/// literals, that literal, and a word after it.
const ONE_LITERAL: &[u32] = &[0xFFFC_07FF, 0x1000, 0x1002];

/// A method in the lowest format of one, whose header counts one literal although its other bits
/// are set too.
pub const LOWEST_METHOD_FORMAT: TestImage = TestImage {
    chunks: &[
        NIL,
        Short {
            compact: 5,
            format: 12,
            fields: ONE_LITERAL,
        },
        Array(&[0x1000, 0x1004]),
    ],
    special: 0x1014,
    ..EMPTY
};

/// A method in the highest format of one, whose header counts one literal.
pub const HIGHEST_METHOD_FORMAT: TestImage = TestImage {
    chunks: &[
        NIL,
        Short {
            compact: 5,
            format: 15,
            fields: ONE_LITERAL,
        },
        Array(&[0x1000, 0x1004]),
    ],
    special: 0x1014,
    ..EMPTY
};

/// The formats 12 to 15 are methods. Only the header of one without literals is traced.
pub const METHODS_WITHOUT_LITERALS: TestImage = TestImage {
    chunks: &[
        NIL,
        Each {
            kinds: &[(5, 12), (5, 13), (5, 14), (5, 15)],
            fields: &[1, 0x1002],
        },
        Array(&[0x1000, 0x1004, 0x1010, 0x101C, 0x1028]),
    ],
    special: 0x1034,
    ..EMPTY
};

/// The worked images among these.
const IMAGES: &[WorkedImage] = &[
    WorkedImage {
        name: "method_literals",
        input: Image(METHOD_LITERALS),
        kept: Compacted(Image(METHOD_LITERALS_ANSWER)),
        ..ACCEPTED
    },
    WorkedImage {
        name: "traced_formats",
        input: Image(TRACED_FORMATS),
        kept: Compacted(Image(TRACED_FORMATS_ANSWER)),
        cleared: Some(Rejected("fault 20: bad weak object 00001030")),
        ..WEAK
    },
    WorkedImage {
        name: "untraced_formats",
        input: Image(UNTRACED_FORMATS),
        kept: Compacted(Image(UNTRACED_FORMATS_ANSWER)),
        ..ACCEPTED
    },
];

/// The worked images of this module.
pub(crate) fn images() -> &'static [WorkedImage] {
    IMAGES
}
