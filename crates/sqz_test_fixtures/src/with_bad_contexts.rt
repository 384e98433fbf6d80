//! Images in which a context is bad, or one of its fields.

use super::chunks::Chunk::{Array, Classed, Short};
use super::chunks::NIL;
use super::images::{Change, EMPTY, TestImage};
use super::with_contexts::CONTEXT_STACK;
use super::worked::Contents::Image;
use super::worked::Outcome::Rejected;
use super::worked::{DEFECT, WorkedImage};

/// A context without a stack pointer.
pub const SHORT_CONTEXT: TestImage = TestImage {
    chunks: &[
        NIL,
        Short {
            compact: 13,
            format: 3,
            fields: &[1],
        },
        Array(&[0x1000, 0x1004]),
    ],
    special: 0x100C,
    ..EMPTY
};

/// A context without its six fixed fields. Its stack pointer is data word 4.
pub const CONTEXT_OF_FIVE_FIELDS: TestImage = TestImage {
    chunks: &[
        NIL,
        Short {
            compact: 13,
            format: 3,
            fields: &[0x1000, 1, 1, 0x1000, 0x1000],
        },
        Array(&[0x1000, 0x1004]),
    ],
    special: 0x101C,
    ..EMPTY
};

/// A bad context with a class word, and the other compact index.
pub const BAD_CONTEXT_WITH_CLASS_WORD: TestImage = TestImage {
    chunks: &[
        NIL,
        Classed {
            class: 0x1000,
            compact: 14,
            format: 3,
            fields: &[1, 1, 0xFFFF_FFFF],
        },
        Array(&[0x1000, 0x1008]),
    ],
    special: 0x1018,
    ..EMPTY
};

/// A stack pointer that is neither an integer nor an address.
pub const ODD_STACK_POINTER: TestImage = TestImage {
    chunks: &[
        NIL,
        Short {
            compact: 13,
            format: 3,
            fields: &[0x1000, 1, 0x1002, 0x1000, 0x1000, 0x1000],
        },
        Array(&[0x1000, 0x1004]),
    ],
    special: 0x1020,
    ..EMPTY
};

/// A negative stack pointer.
pub const NEGATIVE_STACK: TestImage = TestImage {
    changed: Some(Change {
        index: 10,
        word: 0xFFFF_FFFF,
    }),
    ..CONTEXT_STACK
};

/// A stack that does not end within its context.
pub const STACK_PAST_END: TestImage = TestImage {
    changed: Some(Change {
        index: 10,
        word: 11,
    }),
    ..CONTEXT_STACK
};

/// A stack that ends with the last field, which is a bad pointer, as the one before it.
pub const STACK_TO_END: TestImage = TestImage {
    changed: Some(Change { index: 10, word: 9 }),
    ..CONTEXT_STACK
};

/// A context without fields.
pub const CONTEXT_WITHOUT_FIELDS: TestImage = TestImage {
    chunks: &[
        NIL,
        Short {
            compact: 13,
            format: 3,
            fields: &[],
        },
        Array(&[0x1000, 0x1004]),
    ],
    special: 0x1008,
    ..EMPTY
};

/// A context of two fields, without a stack pointer.
pub const CONTEXT_OF_TWO_FIELDS: TestImage = TestImage {
    chunks: &[
        NIL,
        Short {
            compact: 13,
            format: 3,
            fields: &[1, 1],
        },
        Array(&[0x1000, 0x1004]),
    ],
    special: 0x1010,
    ..EMPTY
};

/// A context without its six fixed fields, whose stack pointer is no integer.
pub const FIVE_FIELDS_WITHOUT_STACK_POINTER: TestImage = TestImage {
    changed: Some(Change {
        index: 4,
        word: 0x1000,
    }),
    ..CONTEXT_OF_FIVE_FIELDS
};

/// That a context is bad counts before its bad class word.
pub const CONTEXT_BEFORE_CLASS_WORD: TestImage = TestImage {
    chunks: &[
        NIL,
        Classed {
            class: 0x2000,
            compact: 13,
            format: 3,
            fields: &[1],
        },
        Array(&[0x1000, 0x1008]),
    ],
    special: 0x1010,
    ..EMPTY
};

/// A context whose stack does not end within it is traced, here to an object without a class.
pub const THROUGH_BAD_CONTEXT: TestImage = TestImage {
    chunks: &[
        NIL,
        Short {
            compact: 0,
            format: 1,
            fields: &[1],
        },
        Short {
            compact: 13,
            format: 3,
            fields: &[0x1004, 1, 3, 1, 1, 1],
        },
        Array(&[0x1000, 0x100C]),
    ],
    special: 0x1028,
    ..EMPTY
};

/// A context with a negative stack pointer is not traced, here to an object without a class.
pub const NOT_THROUGH_NEGATIVE_STACK: TestImage = TestImage {
    chunks: &[
        NIL,
        Short {
            compact: 0,
            format: 1,
            fields: &[1],
        },
        Short {
            compact: 13,
            format: 3,
            fields: &[0x1004, 1, 0xFFFF_FFFF, 1, 1, 1],
        },
        Array(&[0x1000, 0x100C]),
    ],
    special: 0x1028,
    ..EMPTY
};

/// The worked images among these.
const IMAGES: &[WorkedImage] = &[
    WorkedImage {
        name: "bad_context_with_class_word",
        input: Image(BAD_CONTEXT_WITH_CLASS_WORD),
        kept: Rejected("fault 13: bad context 00001008"),
        ..DEFECT
    },
    WorkedImage {
        name: "context_of_five_fields",
        input: Image(CONTEXT_OF_FIVE_FIELDS),
        kept: Rejected("fault 13: bad context 00001004"),
        ..DEFECT
    },
    WorkedImage {
        name: "negative_stack",
        input: Image(NEGATIVE_STACK),
        kept: Rejected("fault 13: bad context 0000101c"),
        ..DEFECT
    },
    WorkedImage {
        name: "odd_stack_pointer",
        input: Image(ODD_STACK_POINTER),
        kept: Rejected("fault 14: bad pointer in object 00001004, field 2"),
        ..DEFECT
    },
    WorkedImage {
        name: "short_context",
        input: Image(SHORT_CONTEXT),
        kept: Rejected("fault 13: bad context 00001004"),
        ..DEFECT
    },
    WorkedImage {
        name: "stack_past_end",
        input: Image(STACK_PAST_END),
        kept: Rejected("fault 13: bad context 0000101c"),
        ..DEFECT
    },
    WorkedImage {
        name: "stack_to_end",
        input: Image(STACK_TO_END),
        kept: Rejected("fault 14: bad pointer in object 0000101c, field 8"),
        ..DEFECT
    },
];

/// The worked images of this module.
pub(crate) fn images() -> &'static [WorkedImage] {
    IMAGES
}
