//! Images in which a method is bad, or one of its fields.

use super::chunks::Chunk::{Array, Classed, Short, Words};
use super::chunks::NIL;
use super::images::{Change, EMPTY, TestImage};
use super::worked::Contents::Image;
use super::worked::Outcome::Rejected;
use super::worked::{DEFECT, WEAK, WorkedImage};

/// A method whose field 0 is no integer.
pub const METHOD_HEADER: TestImage = TestImage {
    chunks: &[
        NIL,
        Short {
            compact: 5,
            format: 12,
            fields: &[0x1000],
        },
        Array(&[0x1000, 0x1004]),
    ],
    special: 0x100C,
    ..EMPTY
};

/// A method without a class, whose field 0 is no integer.
pub const METHOD_WITHOUT_CLASS: TestImage = TestImage {
    chunks: &[
        NIL,
        Short {
            compact: 0,
            format: 12,
            fields: &[0x1000],
        },
        Array(&[0x1000, 0x1004]),
    ],
    special: 0x100C,
    ..EMPTY
};

/// A method without field 0.
pub const METHOD_WITHOUT_FIELDS: TestImage = TestImage {
    chunks: &[
        NIL,
        Short {
            compact: 5,
            format: 12,
            fields: &[],
        },
        Array(&[0x1000, 0x1004]),
    ],
    special: 0x1008,
    ..EMPTY
};

/// A method that states more literals than it has.
pub const TOO_MANY_LITERALS: TestImage = TestImage {
    chunks: &[
        NIL,
        Short {
            compact: 5,
            format: 12,
            fields: &[0x801],
        },
        Array(&[0x1000, 0x1004]),
    ],
    special: 0x100C,
    ..EMPTY
};

/// A literal that is neither an integer nor an address.
pub const BAD_LITERAL: TestImage = TestImage {
    chunks: &[
        NIL,
        Short {
            compact: 5,
            format: 12,
            fields: &[0x401, 0x1002],
        },
        Array(&[0x1000, 0x1004]),
    ],
    special: 0x1010,
    ..EMPTY
};

/// Words of ones are a method that states more literals than it has.
pub const ALL_ONES: TestImage = TestImage {
    chunks: &[Words(&[0xFFFF_FFFF; 63])],
    ..EMPTY
};

/// A method whose field 0 is neither an integer nor an address.
pub const ODD_METHOD_HEADER: TestImage = TestImage {
    changed: Some(Change {
        index: 2,
        word: 0x1002,
    }),
    ..METHOD_HEADER
};

/// A method of the highest format whose field 0 is no integer.
pub const BAD_METHOD_OF_HIGHEST_FORMAT: TestImage = TestImage {
    chunks: &[
        NIL,
        Short {
            compact: 5,
            format: 15,
            fields: &[0x1000],
        },
        Array(&[0x1000, 0x1004]),
    ],
    special: 0x100C,
    ..EMPTY
};

/// That a method is bad counts before its bad class word.
pub const METHOD_BEFORE_CLASS_WORD: TestImage = TestImage {
    chunks: &[
        NIL,
        Classed {
            class: 0x2000,
            compact: 5,
            format: 12,
            fields: &[0x1000],
        },
        Array(&[0x1000, 0x1008]),
    ],
    special: 0x1010,
    ..EMPTY
};

/// A method that states too many literals is traced, here to an object without a class.
pub const THROUGH_BAD_METHOD: TestImage = TestImage {
    chunks: &[
        NIL,
        Short {
            compact: 0,
            format: 1,
            fields: &[1],
        },
        Short {
            compact: 5,
            format: 12,
            fields: &[0xFC01, 0x1004],
        },
        Array(&[0x1000, 0x100C]),
    ],
    special: 0x1018,
    ..EMPTY
};

/// A method whose field 0 is no integer is not traced, here to an object without a class.
pub const NOT_THROUGH_METHOD_HEADER: TestImage = TestImage {
    chunks: &[
        NIL,
        Short {
            compact: 0,
            format: 1,
            fields: &[1],
        },
        Short {
            compact: 5,
            format: 12,
            fields: &[0x1004],
        },
        Array(&[0x1000, 0x100C]),
    ],
    special: 0x1014,
    ..EMPTY
};

/// The worked images among these.
const IMAGES: &[WorkedImage] = &[
    WorkedImage {
        name: "all_ones",
        input: Image(ALL_ONES),
        kept: Rejected("fault 12: bad method 00001000"),
        cleared: Some(Rejected("fault 21: nil not found")),
        ..WEAK
    },
    WorkedImage {
        name: "bad_literal",
        input: Image(BAD_LITERAL),
        kept: Rejected("fault 14: bad pointer in object 00001004, field 1"),
        ..DEFECT
    },
    WorkedImage {
        name: "method_header",
        input: Image(METHOD_HEADER),
        kept: Rejected("fault 12: bad method 00001004"),
        ..DEFECT
    },
    WorkedImage {
        name: "method_without_class",
        input: Image(METHOD_WITHOUT_CLASS),
        kept: Rejected("fault 11: no class for object 00001004"),
        ..DEFECT
    },
    WorkedImage {
        name: "method_without_fields",
        input: Image(METHOD_WITHOUT_FIELDS),
        kept: Rejected("fault 12: bad method 00001004"),
        ..DEFECT
    },
    WorkedImage {
        name: "too_many_literals",
        input: Image(TOO_MANY_LITERALS),
        kept: Rejected("fault 12: bad method 00001004"),
        ..DEFECT
    },
];

/// The worked images of this module.
pub(crate) fn images() -> &'static [WorkedImage] {
    IMAGES
}
