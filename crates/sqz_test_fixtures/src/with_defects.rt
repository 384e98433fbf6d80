//! Images in which an object has a defect, or which lack nil although it is needed.

use super::accepted::NIL_ALONE;
use super::chunks::Chunk::{Array, Fixed, Free, Instance, Long, Short, Weak};
use super::chunks::NIL;
use super::images::{Change, EMPTY, TestImage};
use super::with_classes::CLASS_EDGE;
use super::with_weak_objects::WEAK_FIELDS_CLEARED;
use super::worked::Contents::Image;
use super::worked::Outcome::Rejected;
use super::worked::{DEFECT, WEAK, WorkedImage};

/// A header of one word with compact index 0.
pub const NO_CLASS: TestImage = TestImage {
    chunks: &[
        NIL,
        Array(&[0x100C]),
        Short {
            compact: 0,
            format: 1,
            fields: &[1],
        },
    ],
    special: 0x1004,
    ..EMPTY
};

/// That an object has no class counts before its bad field.
pub const NO_CLASS_BEFORE_FIELD: TestImage = TestImage {
    chunks: &[
        NIL,
        Short {
            compact: 0,
            format: 2,
            fields: &[0x1002],
        },
        Array(&[0x1000, 0x1004]),
    ],
    special: 0x100C,
    ..EMPTY
};

/// The lower of two objects with a defect counts.
pub const LOWER_OF_TWO: TestImage = TestImage {
    chunks: &[
        NIL,
        Array(&[0x1002, 0x1010]),
        Short {
            compact: 0,
            format: 1,
            fields: &[1],
        },
    ],
    special: 0x1004,
    ..EMPTY
};

/// The lower object counts even if the higher one points to it.
pub const LOWER_IS_NAMED: TestImage = TestImage {
    chunks: &[
        NIL,
        Short {
            compact: 0,
            format: 1,
            fields: &[1],
        },
        Array(&[0x1002, 0x1004]),
    ],
    special: 0x100C,
    ..EMPTY
};

/// A field that is neither an integer nor an address.
pub const ODD_FIELD: TestImage = TestImage {
    changed: Some(Change {
        index: 2,
        word: 0x1002,
    }),
    ..NIL_ALONE
};

/// A field with the address of a field.
pub const FIELD_NAMES_FIELD: TestImage = TestImage {
    changed: Some(Change {
        index: 2,
        word: 0x1008,
    }),
    ..NIL_ALONE
};

/// A field with the address after the last word.
pub const FIELD_NAMES_END: TestImage = TestImage {
    changed: Some(Change {
        index: 2,
        word: 0x100C,
    }),
    ..NIL_ALONE
};

/// A field with an address below the first word.
pub const FIELD_BELOW_BASE: TestImage = TestImage {
    changed: Some(Change { index: 2, word: 0 }),
    ..NIL_ALONE
};

/// The first of two bad fields counts.
pub const TWO_ODD_FIELDS: TestImage = TestImage {
    chunks: &[NIL, Array(&[0x1000, 0x1002, 0x1006])],
    special: 0x1004,
    ..EMPTY
};

/// A field with the address of a free chunk.
pub const FIELD_NAMES_FREE_CHUNK: TestImage = TestImage {
    chunks: &[NIL, Free(&[1, 1]), Array(&[0x1004])],
    special: 0x1010,
    ..EMPTY
};

/// A field with the address of a class word.
pub const FIELD_NAMES_CLASS_WORD: TestImage = TestImage {
    changed: Some(Change {
        index: 11,
        word: 0x1018,
    }),
    ..CLASS_EDGE
};

/// A class word with an address at which no object is.
pub const BAD_CLASS_WORD: TestImage = TestImage {
    changed: Some(Change {
        index: 6,
        word: 0x1015,
    }),
    ..CLASS_EDGE
};

/// A class word in a header of three words with an address at which no object is.
pub const BAD_CLASS_WORD_OF_THREE: TestImage = TestImage {
    chunks: &[
        NIL,
        Long {
            class: 0x1004,
            compact: 0,
            format: 2,
            first: &[1],
            others: &[],
        },
        Array(&[0x1000, 0x100C]),
    ],
    special: 0x1014,
    ..EMPTY
};

/// A bad class word counts before a bad field.
pub const CLASS_WORD_BEFORE_FIELD: TestImage = TestImage {
    chunks: &[
        NIL,
        Instance {
            class: 0x2000,
            fields: &[0x1002],
        },
        Array(&[0x1000, 0x1008]),
    ],
    special: 0x1010,
    ..EMPTY
};

/// That there is no nil counts before an object without a class.
pub const WEAK_NO_NIL_BEFORE_NO_CLASS: TestImage = TestImage {
    chunks: &[
        Short {
            compact: 0,
            format: 4,
            fields: &[1],
        },
        Array(&[1, 0x1000]),
    ],
    special: 0x1008,
    ..EMPTY
};

/// That a weak object has no class counts before that it is bad.
pub const WEAK_WITHOUT_CLASS: TestImage = TestImage {
    chunks: &[
        NIL,
        Short {
            compact: 0,
            format: 4,
            fields: &[0x1000],
        },
        Array(&[0x1000, 0x1004]),
    ],
    special: 0x100C,
    ..EMPTY
};

/// That a weak object is bad counts before its bad field.
pub const WEAK_BAD_BEFORE_FIELD: TestImage = TestImage {
    chunks: &[
        NIL,
        Fixed(&[1, 1, 0x1000]),
        Weak {
            class: 0x1004,
            fields: &[0x1002],
        },
        Array(&[0x1000, 0x1018]),
    ],
    special: 0x1020,
    ..EMPTY
};

/// A weak slot with a word that is neither an integer nor an address.
pub const WEAK_ODD_SLOT: TestImage = TestImage {
    changed: Some(Change {
        index: 7,
        word: 0x1002,
    }),
    ..WEAK_FIELDS_CLEARED
};

/// A weak slot with an address of no object.
pub const WEAK_SLOT_NAMES_NOTHING: TestImage = TestImage {
    changed: Some(Change {
        index: 7,
        word: 0x1008,
    }),
    ..WEAK_FIELDS_CLEARED
};

/// The worked images among these.
const IMAGES: &[WorkedImage] = &[
    WorkedImage {
        name: "bad_class_word",
        input: Image(BAD_CLASS_WORD),
        kept: Rejected("fault 14: bad pointer in object 0000101c, class"),
        ..DEFECT
    },
    WorkedImage {
        name: "class_word_before_field",
        input: Image(CLASS_WORD_BEFORE_FIELD),
        kept: Rejected("fault 14: bad pointer in object 00001008, class"),
        ..DEFECT
    },
    WorkedImage {
        name: "field_names_class_word",
        input: Image(FIELD_NAMES_CLASS_WORD),
        kept: Rejected("fault 14: bad pointer in object 00001024, field 1"),
        ..DEFECT
    },
    WorkedImage {
        name: "field_names_field",
        input: Image(FIELD_NAMES_FIELD),
        kept: Rejected("fault 14: bad pointer in object 00001004, field 0"),
        cleared: Some(Rejected("fault 21: nil not found")),
        ..WEAK
    },
    WorkedImage {
        name: "field_names_free_chunk",
        input: Image(FIELD_NAMES_FREE_CHUNK),
        kept: Rejected("fault 14: bad pointer in object 00001010, field 0"),
        cleared: Some(Rejected("fault 21: nil not found")),
        ..WEAK
    },
    WorkedImage {
        name: "lower_is_named",
        input: Image(LOWER_IS_NAMED),
        kept: Rejected("fault 11: no class for object 00001004"),
        cleared: Some(Rejected("fault 21: nil not found")),
        ..WEAK
    },
    WorkedImage {
        name: "lower_of_two",
        input: Image(LOWER_OF_TWO),
        kept: Rejected("fault 14: bad pointer in object 00001004, field 0"),
        cleared: Some(Rejected("fault 21: nil not found")),
        ..WEAK
    },
    WorkedImage {
        name: "no_class",
        input: Image(NO_CLASS),
        kept: Rejected("fault 11: no class for object 0000100c"),
        ..DEFECT
    },
    WorkedImage {
        name: "odd_field",
        input: Image(ODD_FIELD),
        kept: Rejected("fault 14: bad pointer in object 00001004, field 0"),
        cleared: Some(Rejected("fault 21: nil not found")),
        ..WEAK
    },
    WorkedImage {
        name: "weak_bad_before_field",
        input: Image(WEAK_BAD_BEFORE_FIELD),
        kept: Rejected("fault 14: bad pointer in object 00001018, field 0"),
        cleared: Some(Rejected("fault 20: bad weak object 00001018")),
        ..WEAK
    },
    WorkedImage {
        name: "weak_no_nil_before_no_class",
        input: Image(WEAK_NO_NIL_BEFORE_NO_CLASS),
        kept: Rejected("fault 11: no class for object 00001000"),
        cleared: Some(Rejected("fault 21: nil not found")),
        ..WEAK
    },
    WorkedImage {
        name: "weak_odd_slot",
        input: Image(WEAK_ODD_SLOT),
        kept: Rejected("fault 14: bad pointer in object 00001018, field 0"),
        ..WEAK
    },
    WorkedImage {
        name: "weak_slot_names_nothing",
        input: Image(WEAK_SLOT_NAMES_NOTHING),
        kept: Rejected("fault 14: bad pointer in object 00001018, field 0"),
        ..WEAK
    },
    WorkedImage {
        name: "weak_without_class",
        input: Image(WEAK_WITHOUT_CLASS),
        kept: Rejected("fault 11: no class for object 00001004"),
        ..WEAK
    },
];

/// The worked images of this module.
pub(crate) fn images() -> &'static [WorkedImage] {
    IMAGES
}
