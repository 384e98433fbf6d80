//! Images with weak objects whose class is found in several ways, or is bad.

use super::chunks::Chunk::{Array, Fixed, LongArray, Short, Weak};
use super::chunks::{LEAF, NIL};
use super::images::{Change, EMPTY, TestImage};
use super::with_weak_objects::{WEAK_FIELDS, WEAK_FIELDS_CLEARED};
use super::worked::Contents::Image;
use super::worked::Outcome::{Compacted, Rejected};
use super::worked::{WEAK, WorkedImage};

/// A weak object whose class is found by a compact index.
pub const WEAK_COMPACT_CLASS: TestImage = TestImage {
    chunks: &[
        NIL,
        Fixed(&[1, 1, 0x405]),
        LEAF,
        Short {
            compact: 1,
            format: 4,
            fields: &[0x1014],
        },
        Array(&[0x1004]),
        LongArray {
            first: &[0x1000, 0x101C],
            last: 0x1024,
        },
    ],
    special: 0x102C,
    ..EMPTY
};

/// What is left of `WEAK_COMPACT_CLASS`.
pub const WEAK_COMPACT_CLASS_CLEARED: TestImage = TestImage {
    chunks: &[
        NIL,
        Fixed(&[1, 1, 0x405]),
        Short {
            compact: 1,
            format: 4,
            fields: &[0x1000],
        },
        Array(&[0x1004]),
        LongArray {
            first: &[0x1000, 0x1014],
            last: 0x101C,
        },
    ],
    special: 0x1024,
    ..EMPTY
};

/// The class of a weak object is that object.
pub const WEAK_OWN_CLASS: TestImage = TestImage {
    chunks: &[
        NIL,
        LEAF,
        Weak {
            class: 0x1010,
            fields: &[1, 0x1004, 0x409],
        },
        Array(&[0x1000, 0x1010]),
    ],
    special: 0x1020,
    ..EMPTY
};

/// What is left of `WEAK_OWN_CLASS`.
pub const WEAK_OWN_CLASS_CLEARED: TestImage = TestImage {
    chunks: &[
        NIL,
        Weak {
            class: 0x1008,
            fields: &[1, 0x1000, 0x409],
        },
        Array(&[0x1000, 0x1008]),
    ],
    special: 0x1018,
    ..EMPTY
};

/// The class of a weak object is weak itself.
pub const WEAK_WEAK_CLASS: TestImage = TestImage {
    chunks: &[
        NIL,
        Fixed(&[1, 1, 0x405]),
        LEAF,
        Weak {
            class: 0x1004,
            fields: &[1, 0x1014, 0x405],
        },
        Weak {
            class: 0x1020,
            fields: &[0x1014],
        },
        Array(&[0x1000, 0x1034]),
    ],
    special: 0x103C,
    ..EMPTY
};

/// What is left of `WEAK_WEAK_CLASS`.
pub const WEAK_WEAK_CLASS_CLEARED: TestImage = TestImage {
    chunks: &[
        NIL,
        Fixed(&[1, 1, 0x405]),
        Weak {
            class: 0x1004,
            fields: &[1, 0x1000, 0x405],
        },
        Weak {
            class: 0x1018,
            fields: &[0x1000],
        },
        Array(&[0x1000, 0x102C]),
    ],
    special: 0x1034,
    ..EMPTY
};

/// A weak special objects array whose class word leads to its class.
pub const WEAK_SPECIAL_WITH_CLASS_WORD: TestImage = TestImage {
    chunks: &[
        NIL,
        Fixed(&[1, 1, 0x409]),
        Weak {
            class: 0x1004,
            fields: &[0x1000, 1],
        },
    ],
    special: 0x1018,
    ..EMPTY
};

/// A weak special objects array whose class would be found by its own fields.
pub const WEAK_SPECIAL: TestImage = TestImage {
    chunks: &[
        NIL,
        Short {
            compact: 3,
            format: 4,
            fields: &[0x1000],
        },
    ],
    special: 0x1004,
    ..EMPTY
};

/// The class of a weak object has a pointer in the field that states the number of fixed fields.
pub const WEAK_BAD_CLASS: TestImage = TestImage {
    changed: Some(Change {
        index: 4,
        word: 0x1000,
    }),
    ..WEAK_FIELDS
};

/// The class of a weak object has no field that states the number of fixed fields.
pub const WEAK_SMALL_CLASS: TestImage = TestImage {
    chunks: &[
        NIL,
        Fixed(&[1, 1]),
        Weak {
            class: 0x1004,
            fields: &[0x1000],
        },
        Array(&[0x1000, 0x1014]),
    ],
    special: 0x101C,
    ..EMPTY
};

/// The class of a weak object states one fixed field less than none.
pub const WEAK_NEGATIVE_FIXED: TestImage = TestImage {
    changed: Some(Change { index: 4, word: 1 }),
    ..WEAK_FIELDS_CLEARED
};

/// The class of a weak object states more fixed fields than the object has fields.
pub const WEAK_TOO_MANY_FIXED: TestImage = TestImage {
    changed: Some(Change {
        index: 4,
        word: 0x40D,
    }),
    ..WEAK_FIELDS_CLEARED
};

/// An array of compact classes that is weak and has no class word leads to no class.
pub const WEAK_COMPACT_CLASSES: TestImage = TestImage {
    chunks: &[
        NIL,
        Fixed(&[1, 1, 0x405]),
        Short {
            compact: 1,
            format: 4,
            fields: &[0x1000],
        },
        Short {
            compact: 3,
            format: 4,
            fields: &[0x1004],
        },
        LongArray {
            first: &[0x1000, 0x1014],
            last: 0x101C,
        },
    ],
    special: 0x1024,
    ..EMPTY
};

/// The worked images among these.
const IMAGES: &[WorkedImage] = &[
    WorkedImage {
        name: "weak_bad_class",
        input: Image(WEAK_BAD_CLASS),
        kept: Compacted(Image(WEAK_BAD_CLASS)),
        cleared: Some(Rejected("fault 20: bad weak object 00001020")),
        ..WEAK
    },
    WorkedImage {
        name: "weak_compact_class",
        input: Image(WEAK_COMPACT_CLASS),
        kept: Compacted(Image(WEAK_COMPACT_CLASS)),
        cleared: Some(Compacted(Image(WEAK_COMPACT_CLASS_CLEARED))),
        ..WEAK
    },
    WorkedImage {
        name: "weak_compact_classes",
        input: Image(WEAK_COMPACT_CLASSES),
        kept: Compacted(Image(WEAK_COMPACT_CLASSES)),
        cleared: Some(Rejected("fault 20: bad weak object 00001014")),
        ..WEAK
    },
    WorkedImage {
        name: "weak_negative_fixed",
        input: Image(WEAK_NEGATIVE_FIXED),
        kept: Compacted(Image(WEAK_NEGATIVE_FIXED)),
        cleared: Some(Rejected("fault 20: bad weak object 00001018")),
        ..WEAK
    },
    WorkedImage {
        name: "weak_own_class",
        input: Image(WEAK_OWN_CLASS),
        kept: Compacted(Image(WEAK_OWN_CLASS)),
        cleared: Some(Compacted(Image(WEAK_OWN_CLASS_CLEARED))),
        ..WEAK
    },
    WorkedImage {
        name: "weak_small_class",
        input: Image(WEAK_SMALL_CLASS),
        kept: Compacted(Image(WEAK_SMALL_CLASS)),
        cleared: Some(Rejected("fault 20: bad weak object 00001014")),
        ..WEAK
    },
    WorkedImage {
        name: "weak_special",
        input: Image(WEAK_SPECIAL),
        kept: Compacted(Image(WEAK_SPECIAL)),
        cleared: Some(Rejected("fault 21: nil not found")),
        ..WEAK
    },
    WorkedImage {
        name: "weak_special_with_class_word",
        input: Image(WEAK_SPECIAL_WITH_CLASS_WORD),
        kept: Compacted(Image(WEAK_SPECIAL_WITH_CLASS_WORD)),
        ..WEAK
    },
    WorkedImage {
        name: "weak_too_many_fixed",
        input: Image(WEAK_TOO_MANY_FIXED),
        kept: Compacted(Image(WEAK_TOO_MANY_FIXED)),
        cleared: Some(Rejected("fault 20: bad weak object 00001018")),
        ..WEAK
    },
    WorkedImage {
        name: "weak_weak_class",
        input: Image(WEAK_WEAK_CLASS),
        kept: Compacted(Image(WEAK_WEAK_CLASS)),
        cleared: Some(Compacted(Image(WEAK_WEAK_CLASS_CLEARED))),
        ..WEAK
    },
];

/// The worked images of this module.
pub(crate) fn images() -> &'static [WorkedImage] {
    IMAGES
}
