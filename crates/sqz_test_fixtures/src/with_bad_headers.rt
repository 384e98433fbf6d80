//! Images whose headers state what no image may state.

use super::accepted::{DEAD_ARRAY, HIGHEST_BASE};
use super::images::{EMPTY, TestImage};
use super::worked::Contents::Image;
use super::worked::Outcome::Rejected;
use super::worked::{UNREADABLE, WorkedImage};

/// Another version.
pub const OTHER_VERSION: TestImage = TestImage {
    version: 6504,
    ..DEAD_ARRAY
};

/// Another size of the header.
pub const OTHER_HEADER_SIZE: TestImage = TestImage {
    header_size: 68,
    ..DEAD_ARRAY
};

/// A size of the data that is no multiple of four.
pub const UNEVEN_DATA_SIZE: TestImage = TestImage {
    data_size: Some(22),
    ..DEAD_ARRAY
};

/// A base that is no multiple of four.
pub const UNEVEN_BASE: TestImage = TestImage {
    base: 0x1002,
    ..DEAD_ARRAY
};

/// The image with the highest base, with a base that is higher by a word: the data reach past the
/// last address.
pub const BASE_TOO_HIGH: TestImage = TestImage {
    base: 0xFFFF_FFEC,
    ..HIGHEST_BASE
};

/// Another version counts before another size of the header.
pub const OTHER_VERSION_AND_HEADER_SIZE: TestImage = TestImage {
    version: 6504,
    ..OTHER_HEADER_SIZE
};

/// Another size of the header counts before the size of the data.
pub const OTHER_HEADER_SIZE_AND_UNEVEN_DATA_SIZE: TestImage = TestImage {
    header_size: 68,
    ..UNEVEN_DATA_SIZE
};

/// The size of the data counts before their base.
pub const UNEVEN_DATA_SIZE_AND_BASE: TestImage = TestImage {
    data_size: Some(22),
    ..UNEVEN_BASE
};

/// The worked images among these.
const IMAGES: &[WorkedImage] = &[
    WorkedImage {
        name: "base_too_high",
        input: Image(BASE_TOO_HIGH),
        kept: Rejected("fault 5: base address is not valid"),
        ..UNREADABLE
    },
    WorkedImage {
        name: "other_header_size",
        input: Image(OTHER_HEADER_SIZE),
        kept: Rejected("fault 3: header size is not 64"),
        ..UNREADABLE
    },
    WorkedImage {
        name: "other_header_size_and_uneven_data_size",
        input: Image(OTHER_HEADER_SIZE_AND_UNEVEN_DATA_SIZE),
        kept: Rejected("fault 3: header size is not 64"),
        ..UNREADABLE
    },
    WorkedImage {
        name: "other_version",
        input: Image(OTHER_VERSION),
        kept: Rejected("fault 2: version is not 6502"),
        ..UNREADABLE
    },
    WorkedImage {
        name: "other_version_and_header_size",
        input: Image(OTHER_VERSION_AND_HEADER_SIZE),
        kept: Rejected("fault 2: version is not 6502"),
        ..UNREADABLE
    },
    WorkedImage {
        name: "uneven_base",
        input: Image(UNEVEN_BASE),
        kept: Rejected("fault 5: base address is not valid"),
        ..UNREADABLE
    },
    WorkedImage {
        name: "uneven_data_size",
        input: Image(UNEVEN_DATA_SIZE),
        kept: Rejected("fault 4: data size is not a multiple of 4"),
        ..UNREADABLE
    },
    WorkedImage {
        name: "uneven_data_size_and_base",
        input: Image(UNEVEN_DATA_SIZE_AND_BASE),
        kept: Rejected("fault 4: data size is not a multiple of 4"),
        ..UNREADABLE
    },
];

/// The worked images of this module.
pub(crate) fn images() -> &'static [WorkedImage] {
    IMAGES
}
