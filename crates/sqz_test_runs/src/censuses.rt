//! Censuses of small images.

use super::runs::{Outcome, assert_bytes, run_by_two};
use sqz_test_fixtures::accepted::{DEAD_ARRAY, NIL_ALONE_CENSUS};
use sqz_test_fixtures::with_classes::{
    BIG_ENDIAN_CLASS_NAMES, BIG_ENDIAN_CLASS_NAMES_CENSUS, CLASS_NAMES, CLASS_NAMES_CENSUS,
    METACLASS, METACLASS_CENSUS,
};
use sqz_test_fixtures::{Change, TestImage, file_of};
use sqz_trace::Weak;
use std::process::Abort;
use std::sync::Wait;
use std::test::Fail;
use std::thread::Threads;

/// Asserts that the census of an image has this text.
pub(crate) fn assert_census<R: Threads + Wait + Sync + Abort + AllocGlobal>(
    rt: &R,
    weak: Weak,
    image: &TestImage,
    text: &str,
) -> Result<(), Fail> {
    let outcome = run_by_two(rt, weak, true, file_of(rt.alloc(), image)?)?;
    assert_census_text(rt, &outcome, text);
    Ok(())
}

/// Asserts that a run wrote a census of this text.
fn assert_census_text<R: Abort>(rt: &R, outcome: &Outcome, text: &str) {
    assert!(rt; outcome.answer.is_ok());
    assert_bytes(rt, &outcome.census, text.as_bytes());
}

#[test]
fn objects_without_a_class(rt: HostRuntime) -> Result<(), Fail> {
    assert_census(&rt, Weak::Keep, &DEAD_ARRAY, NIL_ALONE_CENSUS)
}

#[test]
fn class_with_a_name(rt: HostRuntime) -> Result<(), Fail> {
    assert_census(&rt, Weak::Keep, &CLASS_NAMES, CLASS_NAMES_CENSUS)?;
    let text = BIG_ENDIAN_CLASS_NAMES_CENSUS;
    assert_census(&rt, Weak::Keep, &BIG_ENDIAN_CLASS_NAMES, text)
}

/// The class has an integer in place of a name.
const CLASS_WITHOUT_NAME: TestImage = TestImage {
    changed: Some(Change { index: 8, word: 1 }),
    ..CLASS_NAMES
};

#[test]
fn class_without_a_name(rt: HostRuntime) -> Result<(), Fail> {
    let text = concat!(
        "         2          128 -------- compact 3\n",
        "         2           36 00001004 ?\n",
        "         4          164 total\n",
    );
    assert_census(&rt, Weak::Keep, &CLASS_WITHOUT_NAME, text)
}

#[test]
fn metaclass(rt: HostRuntime) -> Result<(), Fail> {
    assert_census(&rt, Weak::Keep, &METACLASS, METACLASS_CENSUS)
}
