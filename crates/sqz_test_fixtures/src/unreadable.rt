//! Images with a chunk that cannot be read, mostly the second, and images without a special objects
//! array.

use super::accepted::{FREE_CHUNK, NIL_ALONE, SPECIAL_ARRAY_ALONE};
use super::chunks::Chunk::{Array, Words};
use super::chunks::NIL;
use super::images::{EMPTY, TestImage};
use super::with_classes::CLASS_EDGE;
use super::worked::Contents::Image;
use super::worked::Outcome::Rejected;
use super::worked::{UNREADABLE, WorkedImage};

/// A size of 0 in a base header.
pub const ZERO_SIZE: TestImage = TestImage {
    chunks: &[NIL, Words(&[0x3203])],
    ..EMPTY
};

/// A size of 0 in a base header after a class word.
pub const ZERO_SIZE_OF_TWO: TestImage = TestImage {
    chunks: &[NIL, Words(&[0x1001, 0x101])],
    ..EMPTY
};

/// A size of 0 in a size word.
pub const ZERO_SIZE_OF_THREE: TestImage = TestImage {
    chunks: &[NIL, Words(&[0, 0x1000, 0x200])],
    ..EMPTY
};

/// A size of 0 in a free chunk.
pub const FREE_ZERO_SIZE: TestImage = TestImage {
    chunks: &[NIL, Words(&[2])],
    ..EMPTY
};

/// A class word and a base header of different types.
pub const MIXED_CLASS_HEADER: TestImage = TestImage {
    chunks: &[NIL, Words(&[0x11, 0x1000, 0x109, 1])],
    ..EMPTY
};

/// Three header words, the last of another type.
pub const MIXED_HEADER: TestImage = TestImage {
    chunks: &[NIL, Words(&[8, 0x1000, 0x20B, 1])],
    ..EMPTY
};

/// Three header words, the second of another type.
pub const MIXED_SECOND_HEADER: TestImage = TestImage {
    chunks: &[NIL, Words(&[8, 0x1001, 0x200, 1])],
    ..EMPTY
};

/// Header words that disagree count before a size of 0.
pub const MIXED_BEFORE_SIZE: TestImage = TestImage {
    chunks: &[NIL, Words(&[0, 0x1000, 0x203])],
    ..EMPTY
};

/// Header words that disagree count before a size that states more words than there are.
pub const MIXED_BEFORE_OVERRUN: TestImage = TestImage {
    chunks: &[NIL, Words(&[0xC, 0x1000, 0x20B, 1])],
    ..EMPTY
};

/// A class word without a base header.
pub const LONE_CLASS_WORD: TestImage = TestImage {
    chunks: &[NIL, Words(&[0x1001])],
    ..EMPTY
};

/// A size word without the other header words.
pub const LONE_SIZE_WORD: TestImage = TestImage {
    chunks: &[NIL, Words(&[8])],
    ..EMPTY
};

/// A size word and a class word without a base header.
pub const HEADER_OVERRUN: TestImage = TestImage {
    chunks: &[NIL, Words(&[8, 0x1000])],
    ..EMPTY
};

/// That header words are not all there counts before that they disagree.
pub const HEADER_OVERRUN_BEFORE_MIXED: TestImage = TestImage {
    chunks: &[NIL, Words(&[8, 0x1001])],
    ..EMPTY
};

/// A base header states more words than there are.
pub const OVERRUN: TestImage = TestImage {
    chunks: &[NIL, Words(&[0x320F, 1])],
    ..EMPTY
};

/// A base header after a class word states more words than there are.
pub const OVERRUN_OF_TWO: TestImage = TestImage {
    chunks: &[NIL, Words(&[0x1001, 0x10D, 1])],
    ..EMPTY
};

/// A size word states more words than there are.
pub const OVERRUN_OF_THREE: TestImage = TestImage {
    chunks: &[NIL, Words(&[0xC, 0x1000, 0x200, 1])],
    ..EMPTY
};

/// A free chunk states more words than there are.
pub const FREE_OVERRUN: TestImage = TestImage {
    chunks: &[NIL, Words(&[0x12, 1])],
    ..EMPTY
};

/// The first of two chunks that cannot be read counts.
pub const FIRST_UNREADABLE_CHUNK: TestImage = TestImage {
    chunks: &[NIL, Array(&[1, 1]), Words(&[0x3203, 0x320F])],
    ..EMPTY
};

/// A chunk that cannot be read counts before the special objects array is sought.
pub const UNREADABLE_BEFORE_SPECIAL: TestImage = TestImage {
    special: 0x1004,
    ..ZERO_SIZE
};

/// The address of the special objects array is after the data.
pub const NO_OBJECT_AT_SPECIAL: TestImage = TestImage {
    special: 0x1004,
    ..SPECIAL_ARRAY_ALONE
};

/// At the address of the special objects array is a free chunk.
pub const FREE_CHUNK_AT_SPECIAL: TestImage = TestImage {
    special: 0x1004,
    ..FREE_CHUNK
};

/// At the address of the special objects array is a class word.
pub const CLASS_WORD_AT_SPECIAL: TestImage = TestImage {
    special: 0x1018,
    ..CLASS_EDGE
};

/// At the address of the special objects array is a field.
pub const FIELD_AT_SPECIAL: TestImage = TestImage {
    special: 0x1008,
    ..NIL_ALONE
};

/// The address of the special objects array is that of no word.
pub const ODD_SPECIAL: TestImage = TestImage {
    special: 0x1005,
    ..NIL_ALONE
};

/// The worked images among these.
const IMAGES: &[WorkedImage] = &[
    WorkedImage {
        name: "class_word_at_special",
        input: Image(CLASS_WORD_AT_SPECIAL),
        kept: Rejected("fault 10: special objects array not found"),
        ..UNREADABLE
    },
    WorkedImage {
        name: "first_unreadable_chunk",
        input: Image(FIRST_UNREADABLE_CHUNK),
        kept: Rejected("fault 7: size 0 at word 4"),
        ..UNREADABLE
    },
    WorkedImage {
        name: "free_chunk_at_special",
        input: Image(FREE_CHUNK_AT_SPECIAL),
        kept: Rejected("fault 10: special objects array not found"),
        ..UNREADABLE
    },
    WorkedImage {
        name: "free_overrun",
        input: Image(FREE_OVERRUN),
        kept: Rejected("fault 9: chunk runs past the end at word 1"),
        ..UNREADABLE
    },
    WorkedImage {
        name: "free_zero_size",
        input: Image(FREE_ZERO_SIZE),
        kept: Rejected("fault 7: size 0 at word 1"),
        ..UNREADABLE
    },
    WorkedImage {
        name: "header_overrun",
        input: Image(HEADER_OVERRUN),
        kept: Rejected("fault 9: chunk runs past the end at word 1"),
        ..UNREADABLE
    },
    WorkedImage {
        name: "lone_class_word",
        input: Image(LONE_CLASS_WORD),
        kept: Rejected("fault 9: chunk runs past the end at word 1"),
        ..UNREADABLE
    },
    WorkedImage {
        name: "lone_size_word",
        input: Image(LONE_SIZE_WORD),
        kept: Rejected("fault 9: chunk runs past the end at word 1"),
        ..UNREADABLE
    },
    WorkedImage {
        name: "mixed_before_size",
        input: Image(MIXED_BEFORE_SIZE),
        kept: Rejected("fault 8: header words disagree at word 1"),
        ..UNREADABLE
    },
    WorkedImage {
        name: "mixed_class_header",
        input: Image(MIXED_CLASS_HEADER),
        kept: Rejected("fault 8: header words disagree at word 1"),
        ..UNREADABLE
    },
    WorkedImage {
        name: "mixed_header",
        input: Image(MIXED_HEADER),
        kept: Rejected("fault 8: header words disagree at word 1"),
        ..UNREADABLE
    },
    WorkedImage {
        name: "mixed_second_header",
        input: Image(MIXED_SECOND_HEADER),
        kept: Rejected("fault 8: header words disagree at word 1"),
        ..UNREADABLE
    },
    WorkedImage {
        name: "no_data",
        input: Image(EMPTY),
        kept: Rejected("fault 10: special objects array not found"),
        ..UNREADABLE
    },
    WorkedImage {
        name: "no_object_at_special",
        input: Image(NO_OBJECT_AT_SPECIAL),
        kept: Rejected("fault 10: special objects array not found"),
        ..UNREADABLE
    },
    WorkedImage {
        name: "overrun",
        input: Image(OVERRUN),
        kept: Rejected("fault 9: chunk runs past the end at word 1"),
        ..UNREADABLE
    },
    WorkedImage {
        name: "overrun_of_three",
        input: Image(OVERRUN_OF_THREE),
        kept: Rejected("fault 9: chunk runs past the end at word 1"),
        ..UNREADABLE
    },
    WorkedImage {
        name: "overrun_of_two",
        input: Image(OVERRUN_OF_TWO),
        kept: Rejected("fault 9: chunk runs past the end at word 1"),
        ..UNREADABLE
    },
    WorkedImage {
        name: "zero_size",
        input: Image(ZERO_SIZE),
        kept: Rejected("fault 7: size 0 at word 1"),
        ..UNREADABLE
    },
    WorkedImage {
        name: "zero_size_of_three",
        input: Image(ZERO_SIZE_OF_THREE),
        kept: Rejected("fault 7: size 0 at word 1"),
        ..UNREADABLE
    },
    WorkedImage {
        name: "zero_size_of_two",
        input: Image(ZERO_SIZE_OF_TWO),
        kept: Rejected("fault 7: size 0 at word 1"),
        ..UNREADABLE
    },
];

/// The worked images of this module.
pub(crate) fn images() -> &'static [WorkedImage] {
    IMAGES
}
