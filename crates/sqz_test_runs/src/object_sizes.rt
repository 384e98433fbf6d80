//! The largest object that a short header can state, and an object one word larger.

use super::compacted::assert_left;
use sqz_test_fixtures::accepted::{
    LARGEST_SHORT_OBJECT, THREE_WORD_HEADER, THREE_WORD_HEADER_ANSWER,
};
use std::test::Fail;

/// A header word of its own states the size, and the object moves with its three header words.
#[test]
fn object_of_64_words(rt: HostRuntime) -> Result<(), Fail> {
    assert_left(&rt, &THREE_WORD_HEADER, &THREE_WORD_HEADER_ANSWER)
}

#[test]
fn object_of_63_words(rt: HostRuntime) -> Result<(), Fail> {
    assert_left(&rt, &LARGEST_SHORT_OBJECT, &LARGEST_SHORT_OBJECT)
}
