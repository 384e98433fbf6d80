//! Images with weak objects, and what is left of them if weak slots are cleared and if they are
//! kept.

use super::runs::assert_compacts;
use sqz_test_fixtures::TestImage;
use sqz_test_fixtures::with_weak_classes::{
    WEAK_COMPACT_CLASS, WEAK_COMPACT_CLASS_CLEARED, WEAK_OWN_CLASS, WEAK_OWN_CLASS_CLEARED,
    WEAK_SPECIAL_WITH_CLASS_WORD, WEAK_WEAK_CLASS, WEAK_WEAK_CLASS_CLEARED,
};
use sqz_test_fixtures::with_weak_objects::{
    WEAK_FIELDS, WEAK_FIELDS_CLEARED, WEAK_FIXED_FIELD, WEAK_FIXED_FIELD_CLEARED,
    WEAK_SIXTY_FOUR_FIXED, WEAK_SIXTY_FOUR_FIXED_CLEARED, WEAK_SLOT_OF_LIVE_OBJECT,
    WEAK_SLOT_OF_LIVE_OBJECT_ANSWER,
};
use sqz_trace::Weak;
use std::process::Abort;
use std::sync::Wait;
use std::test::Fail;
use std::thread::Threads;

/// Asserts what is left of an image if weak slots are cleared, and that it stays as it is if they
/// are kept.
fn assert_cleared<R: Threads + Wait + Sync + Abort + AllocGlobal>(
    rt: &R,
    image: &TestImage,
    cleared: &TestImage,
) -> Result<(), Fail> {
    assert_compacts(rt, Weak::Clear, image, cleared)?;
    assert_compacts(rt, Weak::Keep, image, image)
}

/// Images with weak objects, and what is left of each if weak slots are cleared.
const CLEARED: &[(TestImage, TestImage)] = &[
    (WEAK_FIELDS, WEAK_FIELDS_CLEARED),
    (WEAK_FIXED_FIELD, WEAK_FIXED_FIELD_CLEARED),
    (WEAK_OWN_CLASS, WEAK_OWN_CLASS_CLEARED),
    (WEAK_WEAK_CLASS, WEAK_WEAK_CLASS_CLEARED),
    (WEAK_SPECIAL_WITH_CLASS_WORD, WEAK_SPECIAL_WITH_CLASS_WORD),
];

#[test]
fn cleared_and_kept(rt: HostRuntime) -> Result<(), Fail> {
    for (image, cleared) in CLEARED {
        assert_cleared(&rt, image, cleared)?;
    }
    Ok(())
}

#[test]
fn weak_slot_of_live_object(rt: HostRuntime) -> Result<(), Fail> {
    for weak in [Weak::Keep, Weak::Clear] {
        assert_compacts(
            &rt,
            weak,
            &WEAK_SLOT_OF_LIVE_OBJECT,
            &WEAK_SLOT_OF_LIVE_OBJECT_ANSWER,
        )?;
    }
    Ok(())
}

#[test]
fn sixty_four_fixed_fields(rt: HostRuntime) -> Result<(), Fail> {
    assert_cleared(&rt, &WEAK_SIXTY_FOUR_FIXED, &WEAK_SIXTY_FOUR_FIXED_CLEARED)
}

#[test]
fn weak_object_of_compact_class(rt: HostRuntime) -> Result<(), Fail> {
    assert_cleared(&rt, &WEAK_COMPACT_CLASS, &WEAK_COMPACT_CLASS_CLEARED)
}
