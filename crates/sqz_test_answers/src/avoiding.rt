//! What is reachable without some objects.

use super::images::{CHAIN, CYCLE_WITH_TWO_ENTRIES, DIAMOND, ROOT_IN_CYCLE};
use sqz_image::{Fault, Heap};
use sqz_object::ObjectIndex;
use sqz_test_fixtures::accepted::DEAD_CYCLE;
use sqz_test_fixtures::with_weak_objects::WEAK_FIXED_FIELD;
use sqz_test_fixtures::{TestImage, image_of};
use sqz_trace::{Marks, ObjectGraph, Weak, reachable_without};
use std::alloc::{AllocError, Global};
use std::test::Fail;

/// An image, the policy on weak slots, the objects that are avoided, and those that are reachable
/// without them.
struct Case {
    image: &'static TestImage,
    weak: Weak,
    avoided: &'static [ObjectIndex],
    wanted: &'static [ObjectIndex],
}

/// Images of which one object is avoided.
const ONE_OBJECT: &[Case] = &[
    Case {
        image: &DIAMOND,
        weak: Weak::Keep,
        avoided: &[1],
        wanted: &[0, 5],
    },
    Case {
        image: &DIAMOND,
        weak: Weak::Keep,
        avoided: &[2],
        wanted: &[0, 1, 3, 4, 5],
    },
    Case {
        image: &CHAIN,
        weak: Weak::Keep,
        avoided: &[2],
        wanted: &[0, 1, 4],
    },
    Case {
        image: &CYCLE_WITH_TWO_ENTRIES,
        weak: Weak::Keep,
        avoided: &[1],
        wanted: &[0, 2, 3],
    },
    Case {
        image: &ROOT_IN_CYCLE,
        weak: Weak::Keep,
        avoided: &[1],
        wanted: &[0, 2],
    },
];

/// An image of which two objects are avoided.
const TWO_OBJECTS: &[Case] = &[Case {
    image: &DIAMOND,
    weak: Weak::Keep,
    avoided: &[2, 3],
    wanted: &[0, 1, 5],
}];

/// An image of which no object, dead objects or an index after the last object is avoided.
const NOT_REACHABLE: &[Case] = &[
    Case {
        image: &DEAD_CYCLE,
        weak: Weak::Keep,
        avoided: &[],
        wanted: &[0, 1, 3, 5],
    },
    Case {
        image: &DEAD_CYCLE,
        weak: Weak::Keep,
        avoided: &[2, 4],
        wanted: &[0, 1, 3, 5],
    },
    Case {
        image: &DEAD_CYCLE,
        weak: Weak::Keep,
        avoided: &[6],
        wanted: &[0, 1, 3, 5],
    },
];

/// Images of which the special objects array is avoided.
const SPECIAL_OBJECTS: &[Case] = &[
    Case {
        image: &DIAMOND,
        weak: Weak::Keep,
        avoided: &[5],
        wanted: &[],
    },
    Case {
        image: &ROOT_IN_CYCLE,
        weak: Weak::Keep,
        avoided: &[1, 2],
        wanted: &[],
    },
];

/// An image of which an object is avoided that a weak slot points to.
const PAST_WEAK_SLOTS: &[Case] = &[
    Case {
        image: &WEAK_FIXED_FIELD,
        weak: Weak::Keep,
        avoided: &[2],
        wanted: &[0, 1, 3, 4, 5],
    },
    Case {
        image: &WEAK_FIXED_FIELD,
        weak: Weak::Clear,
        avoided: &[2],
        wanted: &[0, 1, 4, 5],
    },
];

/// The marked objects of a heap.
fn objects_in(alloc: Global, heap: &Heap, marks: &Marks) -> Result<Vec<ObjectIndex>, AllocError> {
    let mut objects = Vec::new(alloc);
    for object in 0..heap.len() {
        if marks.has(object) {
            objects.push(object)?;
        }
    }
    Ok(objects)
}

/// The objects that are reachable without the avoided ones, and how many are marked.
fn reachable(alloc: Global, case: &Case) -> Result<(Vec<ObjectIndex>, u32), Fault> {
    let image = image_of(alloc, case.image)?;
    let heap = image.heap();
    let weak = case.weak;
    let set = Marks::listed(alloc, heap, case.avoided)?;
    let marks = reachable_without(alloc, ObjectGraph { heap, weak }, &set)?;
    Ok((objects_in(alloc, heap, &marks)?, marks.count()))
}

#[test]
fn reachable_without_objects(rt: HostRuntime) -> Result<(), Fail> {
    for cases in [
        ONE_OBJECT,
        TWO_OBJECTS,
        NOT_REACHABLE,
        SPECIAL_OBJECTS,
        PAST_WEAK_SLOTS,
    ] {
        for case in cases {
            let (found, count) = reachable(rt.alloc(), case)?;
            assert_eq!(rt; found.as_slice(), case.wanted, "without {:?}", case.avoided);
            assert_eq!(rt; count as usize, case.wanted.len());
        }
    }
    Ok(())
}
