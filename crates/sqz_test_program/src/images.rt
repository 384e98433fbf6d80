//! The images of these tests, in little-endian files.

use sqz_test_fixtures::accepted::{DEAD_ARRAY, NIL_ALONE};
use sqz_test_fixtures::file_of;
use std::alloc::{AllocError, Global};

/// The image of three objects, one of them dead.
pub(crate) fn whole_image(alloc: Global) -> Result<Vec<u8>, AllocError> {
    file_of(alloc, &DEAD_ARRAY)
}

/// The image without its dead object.
pub(crate) fn compacted_image(alloc: Global) -> Result<Vec<u8>, AllocError> {
    file_of(alloc, &NIL_ALONE)
}
