//! Candidates for the dominator tree: the check accepts right ones alone.

use super::images::{CHAIN, CYCLE_WITH_TWO_ENTRIES, DIAMOND, ROOT_IN_CYCLE};
use sqz_dominators::{PlacedTree, dominator_candidate, is_dominator_tree};
use sqz_image::Fault;
use sqz_object::ObjectIndex;
use sqz_test_fixtures::accepted::{DEAD_CYCLE, SPECIAL_ARRAY_ALONE};
use sqz_test_fixtures::with_classes::CLASS_EDGE;
use sqz_test_fixtures::{TestImage, image_of};
use sqz_trace::{ObjectGraph, Weak};
use std::alloc::Global;
use std::test::Fail;

/// The objects of the diamond: what leads to both sides, the sides, and what they lead to.
const TOP: ObjectIndex = 1;

const SIDES: [ObjectIndex; 2] = [2, 3];

const BOTTOM: ObjectIndex = 4;
/// The special objects array of the diamond.
const ROOT: ObjectIndex = 5;

/// Returns the place of an object.
fn place_of(tree: &PlacedTree, object: ObjectIndex) -> u32 {
    match tree.places.get(object as usize) {
        Some(place) => *place,
        None => 0,
    }
}

/// Writes a number into a list.
fn write(list: &mut [u32], index: u32, number: u32) {
    if let Some(old) = list.get_mut(index as usize) {
        *old = number;
    }
}

/// Exchanges the places of two objects.
fn swap(tree: &mut PlacedTree, one: ObjectIndex, other: ObjectIndex) {
    let first = place_of(tree, one);
    let second = place_of(tree, other);
    write(&mut tree.found, first, other);
    write(&mut tree.found, second, one);
    write(&mut tree.places, one, second);
    write(&mut tree.places, other, first);
}

/// A change of a candidate.
#[derive(Clone, Copy)]
enum Change {
    /// The places of two objects are exchanged.
    Swap(ObjectIndex, ObjectIndex),
    /// The places of two objects are exchanged, and then exchanged again.
    SwapTwice(ObjectIndex, ObjectIndex),
    /// The first object's place holds the second one.
    Found(ObjectIndex, ObjectIndex),
    /// The first object's parent is the second one.
    Parent(ObjectIndex, ObjectIndex),
}

/// Makes a change of a candidate.
fn make_change(tree: &mut PlacedTree, change: Change) {
    match change {
        Change::Swap(one, other) => swap(tree, one, other),
        Change::SwapTwice(one, other) => {
            swap(tree, one, other);
            swap(tree, one, other);
        }
        Change::Found(object, other) => {
            let place = place_of(tree, object);
            write(&mut tree.found, place, other);
        }
        Change::Parent(object, parent) => {
            let place = place_of(tree, object);
            let above = place_of(tree, parent);
            write(&mut tree.parents, place, above);
        }
    }
}

/// Returns whether the check accepts the candidate for an image after changes.
fn is_accepted(alloc: Global, image: &TestImage, changes: &[Change]) -> Result<bool, Fault> {
    let image = image_of(alloc, image)?;
    let graph = ObjectGraph {
        heap: image.heap(),
        weak: Weak::Keep,
    };
    let mut tree = dominator_candidate(alloc, graph)?;
    for change in changes {
        make_change(&mut tree, *change);
    }
    Ok(is_dominator_tree(alloc, graph, &tree)?)
}

/// Images, each with a candidate that is the dominator tree.
const IMAGES: [&TestImage; 7] = [
    &DIAMOND,
    &CHAIN,
    &CLASS_EDGE,
    &CYCLE_WITH_TWO_ENTRIES,
    &ROOT_IN_CYCLE,
    &DEAD_CYCLE,
    &SPECIAL_ARRAY_ALONE,
];

#[test]
fn accepted(rt: HostRuntime) -> Result<(), Fail> {
    for (k, image) in IMAGES.iter().enumerate() {
        assert!(rt; is_accepted(rt.alloc(), image, &[])?, "image {k}");
    }
    Ok(())
}

/// Changes of the candidate for the diamond, and whether it is accepted after each: a swapped pair,
/// an object at another place, a parent too high, and one too low.
const CHANGES: &[(Change, bool)] = &[
    (Change::Swap(SIDES[0], BOTTOM), false),
    (Change::SwapTwice(SIDES[0], BOTTOM), true),
    (Change::Swap(SIDES[1], BOTTOM), false),
    (Change::SwapTwice(SIDES[1], BOTTOM), true),
    (Change::Found(BOTTOM, TOP), false),
    (Change::Parent(SIDES[0], ROOT), false),
    (Change::Parent(SIDES[1], ROOT), false),
    (Change::Parent(BOTTOM, ROOT), false),
    (Change::Parent(BOTTOM, SIDES[0]), false),
    (Change::Parent(BOTTOM, SIDES[1]), false),
];

#[test]
fn changed(rt: HostRuntime) -> Result<(), Fail> {
    for (k, (change, wanted)) in CHANGES.iter().enumerate() {
        let found = is_accepted(rt.alloc(), &DIAMOND, &[*change])?;
        assert_eq!(rt; found, *wanted, "change {k}");
    }
    Ok(())
}
