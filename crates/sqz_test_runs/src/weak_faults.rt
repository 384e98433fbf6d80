//! Images with weak objects that are refused, and images without nil.

use super::runs::{assert_compacts, assert_image_refused};
use sqz_image::{Fault, Slot};
use sqz_test_fixtures::TestImage;
use sqz_test_fixtures::accepted::SPECIAL_ARRAY_ALONE;
use sqz_test_fixtures::with_defects::{
    WEAK_BAD_BEFORE_FIELD, WEAK_NO_NIL_BEFORE_NO_CLASS, WEAK_ODD_SLOT, WEAK_SLOT_NAMES_NOTHING,
    WEAK_WITHOUT_CLASS,
};
use sqz_test_fixtures::with_weak_classes::{
    WEAK_BAD_CLASS, WEAK_COMPACT_CLASSES, WEAK_NEGATIVE_FIXED, WEAK_SMALL_CLASS, WEAK_SPECIAL,
    WEAK_TOO_MANY_FIXED,
};
use sqz_trace::Weak;
use std::process::Abort;
use std::sync::Wait;
use std::test::Fail;
use std::thread::Threads;

/// Asserts that an image is refused with this fault if weak slots are cleared, and that it stays as
/// it is if they are kept.
fn assert_not_cleared<R: Threads + Wait + Sync + Abort + AllocGlobal>(
    rt: &R,
    image: &TestImage,
    fault: Fault,
) -> Result<(), Fail> {
    assert_image_refused(rt, Weak::Clear, image, fault)?;
    assert_compacts(rt, Weak::Keep, image, image)
}

/// Images with a bad weak object, and the address of that.
const BAD_WEAK_OBJECTS: &[(TestImage, u32)] = &[
    (WEAK_BAD_CLASS, 0x1020),
    (WEAK_SMALL_CLASS, 0x1014),
    (WEAK_NEGATIVE_FIXED, 0x1018),
    (WEAK_TOO_MANY_FIXED, 0x1018),
];

#[test]
fn bad_weak_objects(rt: HostRuntime) -> Result<(), Fail> {
    for (image, address) in BAD_WEAK_OBJECTS {
        assert_not_cleared(&rt, image, Fault::BadWeak { address: *address })?;
    }
    Ok(())
}

#[test]
fn weak_compact_classes(rt: HostRuntime) -> Result<(), Fail> {
    let bad_weak = Fault::BadWeak { address: 0x1014 };
    assert_not_cleared(&rt, &WEAK_COMPACT_CLASSES, bad_weak)
}

#[test]
fn nil_is_missing(rt: HostRuntime) -> Result<(), Fail> {
    assert_not_cleared(&rt, &WEAK_SPECIAL, Fault::NoNil)?;
    assert_not_cleared(&rt, &SPECIAL_ARRAY_ALONE, Fault::NoNil)
}

/// An object without a class.
const NO_CLASS: Fault = Fault::NoClass { address: 0x1004 };

/// A weak object with a bad field.
const BAD_FIELD: Fault = Fault::BadPointer {
    address: 0x1018,
    slot: Slot::Field(0),
};

/// Images that are refused under both policies, and the faults if weak slots are cleared and if
/// they are kept: a missing nil counts before a missing class, this before a bad weak object, that
/// before a bad field, and a weak slot may not be bad.
const REFUSED_BY_BOTH: &[(TestImage, Fault, Fault)] = &[
    (
        WEAK_NO_NIL_BEFORE_NO_CLASS,
        Fault::NoNil,
        Fault::NoClass { address: 0x1000 },
    ),
    (WEAK_WITHOUT_CLASS, NO_CLASS, NO_CLASS),
    (
        WEAK_BAD_BEFORE_FIELD,
        Fault::BadWeak { address: 0x1018 },
        BAD_FIELD,
    ),
    (WEAK_ODD_SLOT, BAD_FIELD, BAD_FIELD),
    (WEAK_SLOT_NAMES_NOTHING, BAD_FIELD, BAD_FIELD),
];

#[test]
fn first_of_two_faults(rt: HostRuntime) -> Result<(), Fail> {
    for (image, cleared, kept) in REFUSED_BY_BOTH {
        assert_image_refused(&rt, Weak::Clear, image, *cleared)?;
        assert_image_refused(&rt, Weak::Keep, image, *kept)?;
    }
    Ok(())
}
