//! What points to an object.

use super::images::{DEAD_REFERRER, DIAMOND, ROOT_IN_CYCLE, THREE_SLOTS};
use sqz_facts::{Referrer, referrers_of};
use sqz_image::{Fault, Slot};
use sqz_object::ObjectIndex;
use sqz_test_fixtures::accepted::DEAD_CYCLE;
use sqz_test_fixtures::with_weak_objects::WEAK_FIELDS;
use sqz_test_fixtures::{TestImage, image_of};
use sqz_trace::{Live, ObjectGraph, Weak};
use std::alloc::{AllocError, Global};
use std::test::Fail;

/// An object of an image, the policy on weak slots, and the live references to the object: the
/// object that holds each, and the slot.
struct Case {
    image: &'static TestImage,
    weak: Weak,
    object: ObjectIndex,
    wanted: &'static [(ObjectIndex, Slot)],
}

/// Slots of two objects, slots of one object, a weak slot that is kept or cleared, slots that point
/// to the special objects array, and slots of dead objects.
const CASES: &[Case] = &[
    Case {
        image: &DIAMOND,
        weak: Weak::Keep,
        object: 4,
        wanted: &[(2, Slot::Field(0)), (3, Slot::Field(0))],
    },
    Case {
        image: &THREE_SLOTS,
        weak: Weak::Keep,
        object: 1,
        wanted: &[
            (2, Slot::ClassWord),
            (2, Slot::Field(0)),
            (2, Slot::Field(2)),
        ],
    },
    Case {
        image: &WEAK_FIELDS,
        weak: Weak::Keep,
        object: 2,
        wanted: &[(3, Slot::Field(0))],
    },
    Case {
        image: &WEAK_FIELDS,
        weak: Weak::Clear,
        object: 2,
        wanted: &[],
    },
    Case {
        image: &DIAMOND,
        weak: Weak::Keep,
        object: 5,
        wanted: &[],
    },
    Case {
        image: &ROOT_IN_CYCLE,
        weak: Weak::Keep,
        object: 2,
        wanted: &[(1, Slot::Field(0))],
    },
    Case {
        image: &DEAD_CYCLE,
        weak: Weak::Keep,
        object: 2,
        wanted: &[],
    },
    Case {
        image: &DEAD_REFERRER,
        weak: Weak::Keep,
        object: 1,
        wanted: &[(3, Slot::Field(1))],
    },
];

/// The references as pairs.
fn pairs_of(alloc: Global, referrers: &[Referrer]) -> Result<Vec<(ObjectIndex, Slot)>, AllocError> {
    let mut pairs = Vec::new(alloc);
    for referrer in referrers {
        pairs.push((referrer.object, referrer.slot))?;
    }
    Ok(pairs)
}

/// The live references to an object.
fn referrers_in(alloc: Global, case: &Case) -> Result<Vec<(ObjectIndex, Slot)>, Fault> {
    let image = image_of(alloc, case.image)?;
    let heap = image.heap();
    let weak = case.weak;
    let live = Live::of(alloc, ObjectGraph { heap, weak })?;
    let found = referrers_of(alloc, &live, case.object)?;
    Ok(pairs_of(alloc, &found)?)
}

#[test]
fn live_references(rt: HostRuntime) -> Result<(), Fail> {
    for case in CASES {
        let found = referrers_in(rt.alloc(), case)?;
        assert_eq!(rt; found.as_slice(), case.wanted, "object {}", case.object);
    }
    Ok(())
}
