//! Images that show which fields of contexts are traced, and what they are compacted to.

use super::chunks::Chunk::{Array, Classed, Each, Short};
use super::chunks::{LEAF, NIL, ODD};
use super::images::{EMPTY, TestImage};
use super::worked::Contents::Image;
use super::worked::Outcome::Compacted;
use super::worked::{ACCEPTED, WorkedImage};

/// The fields of a context: six fixed ones, with a stack pointer that says that the stack holds one
/// field, that one, and three above.
const STACK_OF_ONE: &[u32] = &[0x1000, 1, 3, 0x1000, 0x1000, 0x1000, 0x100C, 0x1014, 2, ODD];

/// The fields of a context up to the top of its stack, whose pointer is data word 10, are traced,
/// and those above are kept as they are.
pub const CONTEXT_STACK: TestImage = TestImage {
    chunks: &[
        NIL,
        LEAF,
        LEAF,
        LEAF,
        Short {
            compact: 13,
            format: 3,
            fields: STACK_OF_ONE,
        },
        Array(&[0x1000, 0x101C]),
    ],
    special: 0x1048,
    ..EMPTY
};

/// The fields of the context of `CONTEXT_STACK`. The one on the stack points to an object that has
/// moved.
const MOVED_STACK: &[u32] = &[0x1000, 1, 3, 0x1000, 0x1000, 0x1000, 0x1004, 0x1014, 2, ODD];

/// What `CONTEXT_STACK` is compacted to.
pub const CONTEXT_STACK_ANSWER: TestImage = TestImage {
    chunks: &[
        NIL,
        LEAF,
        Short {
            compact: 13,
            format: 3,
            fields: MOVED_STACK,
        },
        Array(&[0x1000, 0x100C]),
    ],
    special: 0x1038,
    ..EMPTY
};

/// The fields of a context whose stack holds one, and one above.
const STACK_BELOW_ODD: &[u32] = &[0x1000, 1, 3, 0x1000, 0x1000, 0x1000, 0x1010, 0x1002];

/// A context with a class word and the other compact index is traced as one without a class word.
pub const CONTEXT_WITH_CLASS_WORD: TestImage = TestImage {
    chunks: &[
        NIL,
        Array(&[1, 1]),
        LEAF,
        Classed {
            class: 0x1010,
            compact: 14,
            format: 3,
            fields: STACK_BELOW_ODD,
        },
        Array(&[0x1000, 0x101C]),
    ],
    special: 0x1040,
    ..EMPTY
};

/// The fields of the context of `CONTEXT_WITH_CLASS_WORD`, with the address of the object that has
/// moved.
const MOVED_STACK_BELOW_ODD: &[u32] = &[0x1000, 1, 3, 0x1000, 0x1000, 0x1000, 0x1004, 0x1002];

/// What `CONTEXT_WITH_CLASS_WORD` is compacted to.
pub const CONTEXT_WITH_CLASS_WORD_ANSWER: TestImage = TestImage {
    chunks: &[
        NIL,
        LEAF,
        Classed {
            class: 0x1004,
            compact: 14,
            format: 3,
            fields: MOVED_STACK_BELOW_ODD,
        },
        Array(&[0x1000, 0x1010]),
    ],
    special: 0x1034,
    ..EMPTY
};

/// If the stack pointer is no integer, the stack is empty.
pub const CONTEXT_WITHOUT_STACK_POINTER: TestImage = TestImage {
    chunks: &[
        NIL,
        Short {
            compact: 13,
            format: 3,
            fields: &[0x1000, 1, 0x1000, 0x1000, 0x1000, 0x1000, 0x1002],
        },
        Array(&[0x1000, 0x1004]),
    ],
    special: 0x1024,
    ..EMPTY
};

/// Format 3 with other compact indexes, and another format with that of a context, make no
/// contexts.
pub const LIKE_CONTEXTS: TestImage = TestImage {
    chunks: &[
        NIL,
        Each {
            kinds: &[(4, 3), (12, 3), (15, 3), (13, 2)],
            fields: &[1, 1, 0xFFFF_FFFF],
        },
        Array(&[0x1000, 0x1004, 0x1014, 0x1024, 0x1034]),
    ],
    special: 0x1044,
    ..EMPTY
};

/// The worked images among these.
const IMAGES: &[WorkedImage] = &[
    WorkedImage {
        name: "context_stack",
        input: Image(CONTEXT_STACK),
        kept: Compacted(Image(CONTEXT_STACK_ANSWER)),
        ..ACCEPTED
    },
    WorkedImage {
        name: "context_with_class_word",
        input: Image(CONTEXT_WITH_CLASS_WORD),
        kept: Compacted(Image(CONTEXT_WITH_CLASS_WORD_ANSWER)),
        ..ACCEPTED
    },
    WorkedImage {
        name: "context_without_stack_pointer",
        input: Image(CONTEXT_WITHOUT_STACK_POINTER),
        kept: Compacted(Image(CONTEXT_WITHOUT_STACK_POINTER)),
        ..ACCEPTED
    },
    WorkedImage {
        name: "like_contexts",
        input: Image(LIKE_CONTEXTS),
        kept: Compacted(Image(LIKE_CONTEXTS)),
        ..ACCEPTED
    },
];

/// The worked images of this module.
pub(crate) fn images() -> &'static [WorkedImage] {
    IMAGES
}
