//! What dominates an object.

use super::images::{CHAIN, CYCLE_WITH_TWO_ENTRIES, DIAMOND, ROOT_IN_CYCLE};
use sqz_dominators::{Dominators, dominators_of};
use sqz_image::Fault;
use sqz_object::ObjectIndex;
use sqz_test_fixtures::accepted::{DEAD_CYCLE, SPECIAL_ARRAY_ALONE};
use sqz_test_fixtures::with_classes::CLASS_EDGE;
use sqz_test_fixtures::with_weak_objects::WEAK_FIELDS;
use sqz_test_fixtures::{TestImage, image_of};
use sqz_trace::{ObjectGraph, Weak};
use std::alloc::{AllocError, Global};
use std::test::Fail;

/// An image, the policy on weak slots, and the immediate dominator of each object.
type Case = (&'static TestImage, Weak, &'static [Option<ObjectIndex>]);

/// A diamond, a chain, a class word, two cycles, dead objects, one object, and a weak slot that is
/// kept or cleared.
const CASES: &[Case] = &[
    (
        &DIAMOND,
        Weak::Keep,
        &[Some(5), Some(5), Some(1), Some(1), Some(1), None],
    ),
    (
        &CHAIN,
        Weak::Keep,
        &[Some(4), Some(4), Some(1), Some(2), None],
    ),
    (
        &CLASS_EDGE,
        Weak::Keep,
        &[Some(4), None, Some(3), Some(4), None],
    ),
    (
        &CYCLE_WITH_TWO_ENTRIES,
        Weak::Keep,
        &[Some(3), Some(3), Some(3), None],
    ),
    (&ROOT_IN_CYCLE, Weak::Keep, &[Some(2), Some(2), None]),
    (
        &DEAD_CYCLE,
        Weak::Keep,
        &[Some(5), Some(5), None, Some(1), None, None],
    ),
    (&SPECIAL_ARRAY_ALONE, Weak::Keep, &[None]),
    (
        &WEAK_FIELDS,
        Weak::Keep,
        &[Some(4), Some(3), Some(3), Some(4), None],
    ),
    (
        &WEAK_FIELDS,
        Weak::Clear,
        &[Some(4), Some(3), None, Some(4), None],
    ),
];

/// The immediate dominator of each object.
fn listed(alloc: Global, dominators: &Dominators) -> Result<Vec<Option<ObjectIndex>>, AllocError> {
    let mut found = Vec::new(alloc);
    for object in 0..dominators.count() {
        found.push(dominators.immediate(object))?;
    }
    Ok(found)
}

/// The immediate dominator of each object of an image, and that of the index after the last one.
fn immediate_in(
    alloc: Global,
    image: &TestImage,
    weak: Weak,
) -> Result<(Vec<Option<ObjectIndex>>, Option<ObjectIndex>), Fault> {
    let image = image_of(alloc, image)?;
    let heap = image.heap();
    let dominators = dominators_of(alloc, ObjectGraph { heap, weak })?;
    let found = listed(alloc, &dominators)?;
    Ok((found, dominators.immediate(heap.len())))
}

#[test]
fn immediate_dominators(rt: HostRuntime) -> Result<(), Fail> {
    for (k, (image, weak, wanted)) in CASES.iter().enumerate() {
        let (found, last) = immediate_in(rt.alloc(), image, *weak)?;
        assert_eq!(rt; (found.as_slice(), last), (*wanted, None), "case {k}");
    }
    Ok(())
}
