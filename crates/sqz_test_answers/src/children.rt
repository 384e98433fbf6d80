//! What objects retain, and the children of each object in the dominator tree.

use super::images::DIAMOND;
use sqz_dominators::{Children, Retained, children_of, dominators_of};
use sqz_image::Fault;
use sqz_object::ObjectIndex;
use sqz_test_fixtures::accepted::DEAD_CYCLE;
use sqz_test_fixtures::{TestImage, image_of};
use sqz_trace::{ObjectGraph, Weak};
use std::alloc::{AllocError, Global};
use std::test::Fail;

/// An object of an image, what it retains, and its children.
struct Case {
    image: &'static TestImage,
    object: ObjectIndex,
    retained: Retained,
    children: &'static [ObjectIndex],
}

/// The special objects array, the top and a side of the diamond, and a dead object.
const CASES: &[Case] = &[
    Case {
        image: &DIAMOND,
        object: 5,
        retained: Retained {
            objects: 6,
            bytes: 52,
        },
        children: &[1, 0],
    },
    Case {
        image: &DIAMOND,
        object: 1,
        retained: Retained {
            objects: 4,
            bytes: 36,
        },
        children: &[2, 3, 4],
    },
    Case {
        image: &DIAMOND,
        object: 2,
        retained: Retained {
            objects: 1,
            bytes: 8,
        },
        children: &[],
    },
    Case {
        image: &DEAD_CYCLE,
        object: 2,
        retained: Retained {
            objects: 0,
            bytes: 0,
        },
        children: &[],
    },
];

/// The children of an object. Those of another parent are left out.
fn listed(
    alloc: Global,
    children: &Children,
    object: ObjectIndex,
) -> Result<Vec<ObjectIndex>, AllocError> {
    let mut found = Vec::new(alloc);
    for child in children.of(object) {
        if child.parent == object {
            found.push(child.object)?;
        }
    }
    Ok(found)
}

/// What an object retains, and its children.
fn kept_by(alloc: Global, case: &Case) -> Result<(Retained, Vec<ObjectIndex>), Fault> {
    let image = image_of(alloc, case.image)?;
    let graph = ObjectGraph {
        heap: image.heap(),
        weak: Weak::Keep,
    };
    let dominators = dominators_of(alloc, graph)?;
    let children = children_of(alloc, &dominators)?;
    let found = listed(alloc, &children, case.object)?;
    Ok((dominators.retained(case.object), found))
}

#[test]
fn retained_objects_and_children(rt: HostRuntime) -> Result<(), Fail> {
    for case in CASES {
        let (retained, children) = kept_by(rt.alloc(), case)?;
        assert_eq!(rt;
            (retained, children.as_slice()),
            (case.retained, case.children),
            "object {}",
            case.object
        );
    }
    Ok(())
}
