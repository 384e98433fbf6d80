//! Accepted images with class words, and with classes that have names.

use super::chunks::Chunk::{Array, Classed, Fixed, Instance, LongArray, Short, Words};
use super::chunks::{LEAF, NIL};
use super::images::{EMPTY, TestImage};
use super::worked::Contents::Image;
use super::worked::Outcome::Compacted;
use super::worked::{ACCEPTED, WorkedImage};
use sqz_object::Order;

/// A class word keeps a class that no field points to, and is updated as the class moves.
pub const CLASS_EDGE: TestImage = TestImage {
    chunks: &[
        NIL,
        Array(&[1, 1]),
        LEAF,
        Instance {
            class: 0x1010,
            fields: &[1],
        },
        Array(&[0x1000, 0x101C]),
    ],
    special: 0x1024,
    ..EMPTY
};

/// What `CLASS_EDGE` is compacted to.
pub const CLASS_EDGE_ANSWER: TestImage = TestImage {
    chunks: &[
        NIL,
        LEAF,
        Instance {
            class: 0x1004,
            fields: &[1],
        },
        Array(&[0x1000, 0x1010]),
    ],
    special: 0x1018,
    ..EMPTY
};

/// A class word in a header of three words keeps a class too. The base header states 63 words that
/// are not there.
pub const CLASS_EDGE_OF_THREE_WORDS: TestImage = TestImage {
    chunks: &[
        NIL,
        Array(&[1, 1]),
        LEAF,
        Words(&[8, 0x1010, 0x3FC, 1]),
        Array(&[0x1000, 0x1020]),
    ],
    special: 0x1028,
    ..EMPTY
};

/// What `CLASS_EDGE_OF_THREE_WORDS` is compacted to.
pub const CLASS_EDGE_OF_THREE_WORDS_ANSWER: TestImage = TestImage {
    chunks: &[
        NIL,
        LEAF,
        Words(&[8, 0x1004, 0x3FC, 1]),
        Array(&[0x1000, 0x1014]),
    ],
    special: 0x101C,
    ..EMPTY
};

/// The class histogram of `CLASS_EDGE_OF_THREE_WORDS`.
pub const CLASS_EDGE_OF_THREE_WORDS_CENSUS: &str = concat!(
    "         1           16 00001004 ?\n",
    "         2           12 -------- compact 1\n",
    "         1           12 -------- compact 3\n",
    "         4           40 total\n",
);

/// The bytes of an object with a class word come back as they were in a big-endian file.
pub const BIG_ENDIAN_BYTES: TestImage = TestImage {
    order: Order::Big,
    chunks: &[
        NIL,
        Array(&[1, 1]),
        LEAF,
        Classed {
            class: 0x1010,
            compact: 0,
            format: 10,
            fields: &[0x5371_7565, 0x616B_0000],
        },
        Array(&[0x1000, 0x101C]),
    ],
    special: 0x1028,
    ..EMPTY
};

/// What `BIG_ENDIAN_BYTES` is compacted to.
pub const BIG_ENDIAN_BYTES_ANSWER: TestImage = TestImage {
    order: Order::Big,
    chunks: &[
        NIL,
        LEAF,
        Classed {
            class: 0x1004,
            compact: 0,
            format: 10,
            fields: &[0x5371_7565, 0x616B_0000],
        },
        Array(&[0x1000, 0x1010]),
    ],
    special: 0x101C,
    ..EMPTY
};

/// The class of the compact index 1 has a name. The last field of the special objects array points
/// to the array of compact classes.
pub const CLASS_NAMES: TestImage = TestImage {
    chunks: &[
        NIL,
        Fixed(&[1, 1, 1, 1, 1, 1, 0x1024]),
        Short {
            compact: 2,
            format: 10,
            fields: &[0x656A_624F, 0x7463],
        },
        Array(&[0x1004]),
        LongArray {
            first: &[0x1000],
            last: 0x1030,
        },
    ],
    special: 0x1038,
    ..EMPTY
};

/// The class histogram of `CLASS_NAMES`.
pub const CLASS_NAMES_CENSUS: &str = concat!(
    "         2          128 -------- compact 3\n",
    "         2           36 00001004 Object\n",
    "         1           12 -------- compact 2\n",
    "         5          176 total\n",
);

/// The words of `CLASS_NAMES` in a big-endian file, where they spell another name.
pub const BIG_ENDIAN_CLASS_NAMES: TestImage = TestImage {
    order: Order::Big,
    ..CLASS_NAMES
};

/// The class histogram of `BIG_ENDIAN_CLASS_NAMES`.
pub const BIG_ENDIAN_CLASS_NAMES_CENSUS: &str = concat!(
    "         2          128 -------- compact 3\n",
    "         2           36 00001004 ejbO??\n",
    "         1           12 -------- compact 2\n",
    "         5          176 total\n",
);

/// A class without a name of its own is named after its one instance.
pub const METACLASS: TestImage = TestImage {
    chunks: &[
        NIL,
        Fixed(&[1, 1, 1, 1, 1, 0x1024, 1]),
        Fixed(&[1, 1, 1, 1, 1, 1, 0x1044]),
        Short {
            compact: 2,
            format: 10,
            fields: &[0x656A_624F, 0x7463],
        },
        Array(&[0x1004]),
        LongArray {
            first: &[0x1000],
            last: 0x1050,
        },
    ],
    special: 0x1058,
    ..EMPTY
};

/// The class histogram of `METACLASS`.
pub const METACLASS_CENSUS: &str = concat!(
    "         2          128 -------- compact 3\n",
    "         3           68 00001004 Object class\n",
    "         1           12 -------- compact 2\n",
    "         6          208 total\n",
);

/// The bytes of a name, and three more, which its object does not have.
const FORTY_FIVE_BYTES: &[u32] = &[
    0x616E2041, 0x6F20656D, 0x35342066, 0x74796220, 0x203A7365, 0x7F7E201F, 0x6120FF80, 0x6D20646E,
    0x2C65726F, 0x74756320, 0x72656820, 0x7A797865,
];

/// The first 40 bytes of a long name are printed, followed by ` class`, with `?` for each that is
/// not printable.
pub const LONG_NAME: TestImage = TestImage {
    chunks: &[
        NIL,
        Fixed(&[1, 1, 1, 1, 1, 1, 0x1044]),
        Fixed(&[1, 1, 1, 1, 1, 0x1004, 1]),
        Short {
            compact: 2,
            format: 11,
            fields: FORTY_FIVE_BYTES,
        },
        Instance {
            class: 0x1024,
            fields: &[1],
        },
        Array(&[0x1004]),
        LongArray {
            first: &[0x1000, 0x107C],
            last: 0x1084,
        },
    ],
    special: 0x108C,
    ..EMPTY
};

/// The class histogram of `LONG_NAME`.
pub const LONG_NAME_CENSUS: &str = concat!(
    "         2          128 -------- compact 3\n",
    "         3           68 00001004 A name of 45 bytes: ? ~??? and more, cut\n",
    "         1           52 -------- compact 2\n",
    "         1           12 00001024 A name of 45 bytes: ? ~??? and more, cut class\n",
    "         7          260 total\n",
);

/// The worked images among these.
const IMAGES: &[WorkedImage] = &[
    WorkedImage {
        name: "big_endian_bytes",
        input: Image(BIG_ENDIAN_BYTES),
        kept: Compacted(Image(BIG_ENDIAN_BYTES_ANSWER)),
        ..ACCEPTED
    },
    WorkedImage {
        name: "big_endian_class_names",
        input: Image(BIG_ENDIAN_CLASS_NAMES),
        kept: Compacted(Image(BIG_ENDIAN_CLASS_NAMES)),
        census: Some(BIG_ENDIAN_CLASS_NAMES_CENSUS),
        ..ACCEPTED
    },
    WorkedImage {
        name: "class_edge",
        input: Image(CLASS_EDGE),
        kept: Compacted(Image(CLASS_EDGE_ANSWER)),
        ..ACCEPTED
    },
    WorkedImage {
        name: "class_edge_of_three_words",
        input: Image(CLASS_EDGE_OF_THREE_WORDS),
        kept: Compacted(Image(CLASS_EDGE_OF_THREE_WORDS_ANSWER)),
        census: Some(CLASS_EDGE_OF_THREE_WORDS_CENSUS),
        ..ACCEPTED
    },
    WorkedImage {
        name: "class_names",
        input: Image(CLASS_NAMES),
        kept: Compacted(Image(CLASS_NAMES)),
        census: Some(CLASS_NAMES_CENSUS),
        ..ACCEPTED
    },
    WorkedImage {
        name: "long_name",
        input: Image(LONG_NAME),
        kept: Compacted(Image(LONG_NAME)),
        census: Some(LONG_NAME_CENSUS),
        ..ACCEPTED
    },
    WorkedImage {
        name: "metaclass",
        input: Image(METACLASS),
        kept: Compacted(Image(METACLASS)),
        census: Some(METACLASS_CENSUS),
        ..ACCEPTED
    },
];

/// The worked images of this module.
pub(crate) fn images() -> &'static [WorkedImage] {
    IMAGES
}
