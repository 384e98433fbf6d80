//! Images in which a reachable object has a defect: the lowest such object counts, and its first
//! defect.

use super::runs::assert_image_refused;
use sqz_image::{Fault, Slot};
use sqz_test_fixtures::accepted::NIL_ALONE;
use sqz_test_fixtures::with_bad_contexts::{
    CONTEXT_OF_FIVE_FIELDS, CONTEXT_OF_TWO_FIELDS, FIVE_FIELDS_WITHOUT_STACK_POINTER, SHORT_CONTEXT,
};
use sqz_test_fixtures::with_bad_methods::{
    ALL_ONES, BAD_LITERAL, METHOD_HEADER, METHOD_WITHOUT_CLASS, METHOD_WITHOUT_FIELDS,
    ODD_METHOD_HEADER, TOO_MANY_LITERALS,
};
use sqz_test_fixtures::with_contexts::CONTEXT_STACK;
use sqz_test_fixtures::with_defects::{
    BAD_CLASS_WORD, BAD_CLASS_WORD_OF_THREE, CLASS_WORD_BEFORE_FIELD, FIELD_NAMES_CLASS_WORD,
    FIELD_NAMES_FREE_CHUNK, LOWER_IS_NAMED, LOWER_OF_TWO, NO_CLASS, NO_CLASS_BEFORE_FIELD,
    TWO_ODD_FIELDS,
};
use sqz_test_fixtures::{TestImage, with_word};
use sqz_trace::Weak;
use std::process::Abort;
use std::sync::Wait;
use std::test::Fail;
use std::thread::Threads;

/// The fault of a bad field.
const fn bad_field(address: u32, index: u32) -> Fault {
    Fault::BadPointer {
        address,
        slot: Slot::Field(index),
    }
}

/// Asserts that images are refused with these faults.
fn assert_all_refused<R: Threads + Wait + Sync + Abort + AllocGlobal>(
    rt: &R,
    some: &[(TestImage, Fault)],
) -> Result<(), Fail> {
    for (image, fault) in some {
        assert_image_refused(rt, Weak::Keep, image, *fault)?;
    }
    Ok(())
}

/// Asserts that images are refused for a bad slot of the object at this address.
fn assert_bad_slots<R: Threads + Wait + Sync + Abort + AllocGlobal>(
    rt: &R,
    some: &[(TestImage, u32, Slot)],
) -> Result<(), Fail> {
    for (image, address, slot) in some {
        let (address, slot) = (*address, *slot);
        assert_image_refused(rt, Weak::Keep, image, Fault::BadPointer { address, slot })?;
    }
    Ok(())
}

/// Images with a bad field, and the address of the object that has it.
const BAD_FIELDS: &[(TestImage, u32, Slot)] = &[
    (FIELD_NAMES_FREE_CHUNK, 0x1010, Slot::Field(0)),
    (FIELD_NAMES_CLASS_WORD, 0x1024, Slot::Field(1)),
    (TWO_ODD_FIELDS, 0x1004, Slot::Field(1)),
    (LOWER_OF_TWO, 0x1004, Slot::Field(0)),
];

/// Asserts that `NIL_ALONE` is refused if this is the field of its array.
fn assert_field_refused<R: Threads + Wait + Sync + Abort + AllocGlobal>(
    rt: &R,
    word: u32,
) -> Result<(), Fail> {
    let image = with_word(NIL_ALONE, 2, word);
    assert_image_refused(rt, Weak::Keep, &image, bad_field(0x1004, 0))
}

#[test]
fn bad_fields(rt: HostRuntime) -> Result<(), Fail> {
    for word in [0x1002, 0x1006, 0x1008, 0x100C, 0xFFC, 0, 0xFFFF_FFFE] {
        assert_field_refused(&rt, word)?;
    }
    assert_bad_slots(&rt, BAD_FIELDS)
}

/// Images with a bad class word, and the address of the object that has it.
const BAD_CLASS_WORDS: &[(TestImage, u32, Slot)] = &[
    (BAD_CLASS_WORD, 0x101C, Slot::ClassWord),
    (BAD_CLASS_WORD_OF_THREE, 0x100C, Slot::ClassWord),
    (CLASS_WORD_BEFORE_FIELD, 0x1008, Slot::ClassWord),
];

/// Images with an object that has no class, and the fault of each.
const MISSING_CLASSES: &[(TestImage, Fault)] = &[
    (NO_CLASS, Fault::NoClass { address: 0x100C }),
    (METHOD_WITHOUT_CLASS, Fault::NoClass { address: 0x1004 }),
    (NO_CLASS_BEFORE_FIELD, Fault::NoClass { address: 0x1004 }),
    (LOWER_IS_NAMED, Fault::NoClass { address: 0x1004 }),
];

#[test]
fn bad_or_missing_classes(rt: HostRuntime) -> Result<(), Fail> {
    assert_bad_slots(&rt, BAD_CLASS_WORDS)?;
    assert_all_refused(&rt, MISSING_CLASSES)
}

/// Images with a bad method, and the fault of each.
const BAD_METHODS: &[(TestImage, Fault)] = &[
    (METHOD_HEADER, Fault::BadMethod { address: 0x1004 }),
    (ODD_METHOD_HEADER, Fault::BadMethod { address: 0x1004 }),
    (TOO_MANY_LITERALS, Fault::BadMethod { address: 0x1004 }),
    (METHOD_WITHOUT_FIELDS, Fault::BadMethod { address: 0x1004 }),
    (ALL_ONES, Fault::BadMethod { address: 0x1000 }),
];

#[test]
fn bad_methods(rt: HostRuntime) -> Result<(), Fail> {
    assert_all_refused(&rt, BAD_METHODS)?;
    assert_image_refused(&rt, Weak::Keep, &BAD_LITERAL, bad_field(0x1004, 1))
}

#[test]
fn short_contexts(rt: HostRuntime) -> Result<(), Fail> {
    let fault = Fault::BadContext { address: 0x1004 };
    let some = [
        (SHORT_CONTEXT, fault),
        (CONTEXT_OF_TWO_FIELDS, fault),
        (CONTEXT_OF_FIVE_FIELDS, fault),
        (FIVE_FIELDS_WITHOUT_STACK_POINTER, fault),
    ];
    assert_all_refused(&rt, &some)
}

#[test]
fn stack_pointers(rt: HostRuntime) -> Result<(), Fail> {
    let bad_context = Fault::BadContext { address: 0x101C };
    let some = [
        (0xB, bad_context),
        (0xFFFF_FFFF, bad_context),
        (0x7FFF_FFFF, bad_context),
        (0x8000_0001, bad_context),
        (9, bad_field(0x101C, 8)),
        (0x1002, bad_field(0x101C, 2)),
    ];
    for (top, fault) in some {
        let image = with_word(CONTEXT_STACK, 10, top);
        assert_image_refused(&rt, Weak::Keep, &image, fault)?;
    }
    Ok(())
}
