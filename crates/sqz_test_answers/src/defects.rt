//! All defects of an image.

use super::images::DIAMOND;
use sqz_facts::defects_of;
use sqz_image::{Fault, Slot};
use sqz_test_fixtures::accepted::{DEAD_BAD_POINTER, DEAD_WITHOUT_CLASS};
use sqz_test_fixtures::with_defects::LOWER_OF_TWO;
use sqz_test_fixtures::with_weak_classes::WEAK_TOO_MANY_FIXED;
use sqz_test_fixtures::{TestImage, image_of};
use sqz_trace::{Live, ObjectGraph, Weak};
use std::alloc::Global;
use std::test::Fail;

/// The defects of the objects 1 and 2 of `LOWER_OF_TWO`. Object 1 is its special objects array.
const TWO_DEFECTS: &[Fault] = &[
    Fault::BadPointer {
        address: 0x1004,
        slot: Slot::Field(0),
    },
    Fault::NoClass { address: 0x1010 },
];

/// An image, the policy on weak slots, and the defects of the reachable objects.
type Case = (&'static TestImage, Weak, &'static [Fault]);

/// Images without a defect, with two, with one of a weak object, and with defects of dead objects.
const CASES: &[Case] = &[
    (&DIAMOND, Weak::Keep, &[]),
    (&LOWER_OF_TWO, Weak::Keep, TWO_DEFECTS),
    (&LOWER_OF_TWO, Weak::Clear, TWO_DEFECTS),
    (&WEAK_TOO_MANY_FIXED, Weak::Keep, &[]),
    (
        &WEAK_TOO_MANY_FIXED,
        Weak::Clear,
        &[Fault::BadWeak { address: 0x1018 }],
    ),
    (&DEAD_BAD_POINTER, Weak::Keep, &[]),
    (&DEAD_WITHOUT_CLASS, Weak::Keep, &[]),
];

/// The defects of the reachable objects.
fn defects_in(alloc: Global, image: &TestImage, weak: Weak) -> Result<Vec<Fault>, Fault> {
    let image = image_of(alloc, image)?;
    let heap = image.heap();
    let live = Live::of(alloc, ObjectGraph { heap, weak })?;
    Ok(defects_of(alloc, &live)?)
}

#[test]
fn defects_of_reachable_objects(rt: HostRuntime) -> Result<(), Fail> {
    for (image, weak, wanted) in CASES {
        let found = defects_in(rt.alloc(), image, *weak)?;
        assert_eq!(rt; found.as_slice(), *wanted);
    }
    Ok(())
}
