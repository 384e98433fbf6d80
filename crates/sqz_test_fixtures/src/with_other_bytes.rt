//! Files with bytes before or after an image, and files that end before the image does.

use super::accepted::{BIG_ENDIAN, BIG_ENDIAN_ANSWER, DEAD_ARRAY, NIL_ALONE, NIL_ALONE_CENSUS};
use super::files::Before::{Filler, Rising};
use super::files::{Before, PLAIN, TestFile};
use super::images::EMPTY;
use super::unreadable::FIRST_UNREADABLE_CHUNK;
use super::with_bad_headers::{OTHER_HEADER_SIZE, OTHER_VERSION, UNEVEN_BASE};
use super::with_classes::{BIG_ENDIAN_CLASS_NAMES, BIG_ENDIAN_CLASS_NAMES_CENSUS};
use super::with_defects::ODD_FIELD;
use super::with_weak_objects::{
    WEAK_ARRAY, WEAK_ARRAY_CENSUS, WEAK_ARRAY_CLEARED, WEAK_ARRAY_CLEARED_CENSUS, WEAK_FIELDS,
    WEAK_FIELDS_CLEARED,
};
use super::worked::Contents::{File, Image};
use super::worked::Outcome::{Compacted, Rejected};
use super::worked::{ACCEPTED, UNREADABLE, WEAK, WorkedImage};

/// Bytes after the data are left out.
pub const BYTES_AFTER_DATA: TestFile = TestFile {
    image: NIL_ALONE,
    after: &[1, 2, 3, 4, 5],
    ..PLAIN
};

/// 512 bytes before an image are kept.
pub const BEHIND_512_BYTES: TestFile = TestFile {
    before: Filler(512),
    image: DEAD_ARRAY,
    ..PLAIN
};

/// What `BEHIND_512_BYTES` is compacted to.
pub const BEHIND_512_BYTES_ANSWER: TestFile = TestFile {
    before: Filler(512),
    image: NIL_ALONE,
    ..PLAIN
};

/// 512 bytes before a big-endian image are kept.
pub const BIG_ENDIAN_AFTER_FILLER: TestFile = TestFile {
    before: Filler(512),
    image: BIG_ENDIAN,
    ..PLAIN
};

/// What `BIG_ENDIAN_AFTER_FILLER` is compacted to.
pub const BIG_ENDIAN_AFTER_FILLER_ANSWER: TestFile = TestFile {
    before: Filler(512),
    image: BIG_ENDIAN_ANSWER,
    ..PLAIN
};

/// 512 bytes before an image are kept, and those after it are left out.
pub const BYTES_ON_BOTH_SIDES: TestFile = TestFile {
    before: Filler(512),
    image: DEAD_ARRAY,
    after: &[1, 2, 3, 4, 5],
    ..PLAIN
};

/// The text after the image is left out.
pub const BIG_ENDIAN_BEHIND_512_BYTES: TestFile = TestFile {
    before: Rising,
    image: BIG_ENDIAN_CLASS_NAMES,
    after: b"more",
    ..PLAIN
};

/// What `BIG_ENDIAN_BEHIND_512_BYTES` is compacted to.
pub const BIG_ENDIAN_BEHIND_512_BYTES_ANSWER: TestFile = TestFile {
    before: Rising,
    image: BIG_ENDIAN_CLASS_NAMES,
    ..PLAIN
};

/// An image at the front counts before one after 512 bytes.
pub const VERSION_AT_BOTH: TestFile = TestFile {
    before: Before::Image(DEAD_ARRAY),
    image: BIG_ENDIAN,
    ..PLAIN
};

/// An image at the front counts before a smaller one after 512 bytes.
pub const NIL_AFTER_ARRAY: TestFile = TestFile {
    before: Before::Image(DEAD_ARRAY),
    image: BIG_ENDIAN_ANSWER,
    ..PLAIN
};

/// A version at the front counts even if the header after it is bad.
pub const BROKEN_HEADER_BEFORE_512_BYTES: TestFile = TestFile {
    before: Before::Image(OTHER_HEADER_SIZE),
    image: DEAD_ARRAY,
    ..PLAIN
};

/// An image after 511 bytes is not found.
pub const BEHIND_511_BYTES: TestFile = TestFile {
    before: Filler(511),
    image: DEAD_ARRAY,
    ..PLAIN
};

/// An image after 513 bytes is not found.
pub const BEHIND_513_BYTES: TestFile = TestFile {
    before: Filler(513),
    image: DEAD_ARRAY,
    ..PLAIN
};

/// Another version after 512 bytes.
pub const OTHER_VERSION_BEHIND_512_BYTES: TestFile = TestFile {
    before: Filler(512),
    image: OTHER_VERSION,
    ..PLAIN
};

/// The words of the data are counted from the first one, not from the front of the file.
pub const FIRST_UNREADABLE_CHUNK_BEHIND_512_BYTES: TestFile = TestFile {
    before: Filler(512),
    image: FIRST_UNREADABLE_CHUNK,
    ..PLAIN
};

/// A bad field after 512 bytes.
pub const ODD_FIELD_BEHIND_512_BYTES: TestFile = TestFile {
    before: Filler(512),
    image: ODD_FIELD,
    ..PLAIN
};

/// A weak object after 512 bytes.
pub const WEAK_FIELDS_BEHIND_512_BYTES: TestFile = TestFile {
    before: Filler(512),
    image: WEAK_FIELDS,
    ..PLAIN
};

/// What is left of `WEAK_FIELDS_BEHIND_512_BYTES` if weak slots are cleared.
pub const WEAK_FIELDS_BEHIND_512_BYTES_CLEARED: TestFile = TestFile {
    before: Filler(512),
    image: WEAK_FIELDS_CLEARED,
    ..PLAIN
};

/// A weak array after 512 bytes.
pub const WEAK_ARRAY_BEHIND_512_BYTES: TestFile = TestFile {
    before: Rising,
    image: WEAK_ARRAY,
    ..PLAIN
};

/// What is left of `WEAK_ARRAY_BEHIND_512_BYTES` if weak slots are cleared.
pub const WEAK_ARRAY_BEHIND_512_BYTES_CLEARED: TestFile = TestFile {
    before: Rising,
    image: WEAK_ARRAY_CLEARED,
    ..PLAIN
};

/// A file without bytes.
pub const NO_BYTES: TestFile = TestFile {
    image: EMPTY,
    length: Some(0),
    ..PLAIN
};

/// A file that ends within its header.
pub const CUT_IN_HEADER: TestFile = TestFile {
    image: DEAD_ARRAY,
    length: Some(63),
    ..PLAIN
};

/// A file that ends within its data.
pub const CUT_IN_DATA: TestFile = TestFile {
    image: DEAD_ARRAY,
    length: Some(87),
    ..PLAIN
};

/// A big-endian file that ends within its data.
pub const BIG_ENDIAN_CUT_IN_DATA: TestFile = TestFile {
    image: BIG_ENDIAN,
    length: Some(87),
    ..PLAIN
};

/// A file that ends within its header, which states another version.
pub const SHORT_OF_ANOTHER_VERSION: TestFile = TestFile {
    image: OTHER_VERSION,
    length: Some(63),
    ..PLAIN
};

/// A file that ends within its data, whose base is no multiple of four.
pub const UNEVEN_BASE_OF_TRUNCATED_DATA: TestFile = TestFile {
    image: UNEVEN_BASE,
    length: Some(87),
    ..PLAIN
};

/// A file that ends within the version after 512 bytes.
pub const CUT_IN_VERSION_BEHIND_512_BYTES: TestFile = TestFile {
    before: Filler(512),
    image: DEAD_ARRAY,
    length: Some(515),
    ..PLAIN
};

/// A file that ends after the version after 512 bytes.
pub const VERSION_ALONE_BEHIND_512_BYTES: TestFile = TestFile {
    before: Filler(512),
    image: DEAD_ARRAY,
    length: Some(516),
    ..PLAIN
};

/// A file that ends within the header after 512 bytes.
pub const CUT_IN_HEADER_BEHIND_512_BYTES: TestFile = TestFile {
    before: Filler(512),
    image: DEAD_ARRAY,
    length: Some(575),
    ..PLAIN
};

/// A file that ends after the header after 512 bytes.
pub const HEADER_ALONE_BEHIND_512_BYTES: TestFile = TestFile {
    before: Filler(512),
    image: DEAD_ARRAY,
    length: Some(576),
    ..PLAIN
};

/// A file that ends within the data after 512 bytes and a header.
pub const CUT_IN_DATA_BEHIND_512_BYTES: TestFile = TestFile {
    before: Filler(512),
    image: DEAD_ARRAY,
    length: Some(599),
    ..PLAIN
};

/// The worked images among these.
const IMAGES: &[WorkedImage] = &[
    WorkedImage {
        name: "behind_511_bytes",
        input: File(BEHIND_511_BYTES),
        kept: Rejected("fault 2: version is not 6502"),
        ..UNREADABLE
    },
    WorkedImage {
        name: "behind_512_bytes",
        input: File(BEHIND_512_BYTES),
        kept: Compacted(File(BEHIND_512_BYTES_ANSWER)),
        census: Some(NIL_ALONE_CENSUS),
        ..ACCEPTED
    },
    WorkedImage {
        name: "behind_513_bytes",
        input: File(BEHIND_513_BYTES),
        kept: Rejected("fault 2: version is not 6502"),
        ..UNREADABLE
    },
    WorkedImage {
        name: "big_endian_behind_512_bytes",
        input: File(BIG_ENDIAN_BEHIND_512_BYTES),
        kept: Compacted(File(BIG_ENDIAN_BEHIND_512_BYTES_ANSWER)),
        census: Some(BIG_ENDIAN_CLASS_NAMES_CENSUS),
        ..ACCEPTED
    },
    WorkedImage {
        name: "big_endian_cut_in_data",
        input: File(BIG_ENDIAN_CUT_IN_DATA),
        kept: Rejected("fault 6: data are truncated"),
        ..UNREADABLE
    },
    WorkedImage {
        name: "broken_header_before_512_bytes",
        input: File(BROKEN_HEADER_BEFORE_512_BYTES),
        kept: Rejected("fault 3: header size is not 64"),
        ..UNREADABLE
    },
    WorkedImage {
        name: "bytes_after_data",
        input: File(BYTES_AFTER_DATA),
        kept: Compacted(Image(NIL_ALONE)),
        ..ACCEPTED
    },
    WorkedImage {
        name: "cut_in_data",
        input: File(CUT_IN_DATA),
        kept: Rejected("fault 6: data are truncated"),
        ..UNREADABLE
    },
    WorkedImage {
        name: "cut_in_data_behind_512_bytes",
        input: File(CUT_IN_DATA_BEHIND_512_BYTES),
        kept: Rejected("fault 6: data are truncated"),
        ..UNREADABLE
    },
    WorkedImage {
        name: "cut_in_header",
        input: File(CUT_IN_HEADER),
        kept: Rejected("fault 1: image is shorter than its header"),
        ..UNREADABLE
    },
    WorkedImage {
        name: "cut_in_header_behind_512_bytes",
        input: File(CUT_IN_HEADER_BEHIND_512_BYTES),
        kept: Rejected("fault 1: image is shorter than its header"),
        ..UNREADABLE
    },
    WorkedImage {
        name: "cut_in_version_behind_512_bytes",
        input: File(CUT_IN_VERSION_BEHIND_512_BYTES),
        kept: Rejected("fault 2: version is not 6502"),
        ..UNREADABLE
    },
    WorkedImage {
        name: "empty",
        input: File(NO_BYTES),
        kept: Rejected("fault 1: image is shorter than its header"),
        ..UNREADABLE
    },
    WorkedImage {
        name: "first_unreadable_chunk_behind_512_bytes",
        input: File(FIRST_UNREADABLE_CHUNK_BEHIND_512_BYTES),
        kept: Rejected("fault 7: size 0 at word 4"),
        ..UNREADABLE
    },
    WorkedImage {
        name: "header_alone_behind_512_bytes",
        input: File(HEADER_ALONE_BEHIND_512_BYTES),
        kept: Rejected("fault 6: data are truncated"),
        ..UNREADABLE
    },
    WorkedImage {
        name: "odd_field_behind_512_bytes",
        input: File(ODD_FIELD_BEHIND_512_BYTES),
        kept: Rejected("fault 14: bad pointer in object 00001004, field 0"),
        cleared: Some(Rejected("fault 21: nil not found")),
        ..WEAK
    },
    WorkedImage {
        name: "other_version_behind_512_bytes",
        input: File(OTHER_VERSION_BEHIND_512_BYTES),
        kept: Rejected("fault 2: version is not 6502"),
        ..UNREADABLE
    },
    WorkedImage {
        name: "short_of_another_version",
        input: File(SHORT_OF_ANOTHER_VERSION),
        kept: Rejected("fault 1: image is shorter than its header"),
        ..UNREADABLE
    },
    WorkedImage {
        name: "uneven_base_of_truncated_data",
        input: File(UNEVEN_BASE_OF_TRUNCATED_DATA),
        kept: Rejected("fault 5: base address is not valid"),
        ..UNREADABLE
    },
    WorkedImage {
        name: "version_alone_behind_512_bytes",
        input: File(VERSION_ALONE_BEHIND_512_BYTES),
        kept: Rejected("fault 1: image is shorter than its header"),
        ..UNREADABLE
    },
    WorkedImage {
        name: "version_at_both",
        input: File(VERSION_AT_BOTH),
        kept: Compacted(Image(NIL_ALONE)),
        ..ACCEPTED
    },
    WorkedImage {
        name: "weak_array_behind_512_bytes",
        input: File(WEAK_ARRAY_BEHIND_512_BYTES),
        kept: Compacted(File(WEAK_ARRAY_BEHIND_512_BYTES)),
        cleared: Some(Compacted(File(WEAK_ARRAY_BEHIND_512_BYTES_CLEARED))),
        census: Some(WEAK_ARRAY_CENSUS),
        cleared_census: Some(WEAK_ARRAY_CLEARED_CENSUS),
        ..WEAK
    },
];

/// The worked images of this module.
pub(crate) fn images() -> &'static [WorkedImage] {
    IMAGES
}
