//! What objects point to, which of them are reachable, and what is wrong with them, in small
//! images.

ghost use Rattle.std.specs.Prelude.{◌≡◌, length};
ghost use Rattle.sqz_image.specs.Objects.{object_count};

use super::images::{CONTEXT_AND_METHOD, FIXED_FIELD_BY_INDEX, dead_cycle_image};
use sqz_image::{Fault, Heap, Slot};
use sqz_test_fixtures::accepted::{DEAD_CYCLE, SPECIAL_ARRAY_ALONE};
use sqz_test_fixtures::with_classes::CLASS_EDGE;
use sqz_test_fixtures::with_defects::LOWER_OF_TWO;
use sqz_test_fixtures::with_weak_classes::{WEAK_SPECIAL, WEAK_TOO_MANY_FIXED};
use sqz_test_fixtures::with_weak_objects::WEAK_FIXED_FIELD;
use sqz_test_fixtures::{TestImage, image_of};
use sqz_trace::{
    Marks, Weak, defect, finish, first_defect, first_shades, lacks_nil, mark_plain, strong, target,
    traced,
};
use std::alloc::{AllocError, Global};
use std::test::Fail;
use std::thread::Threads;

/// Which objects of the dead cycle's image are reachable.
pub(crate) const DEAD_CYCLE_MARKS: [bool; 6] = [true, true, false, true, false, true];

/// Which objects are marked.
pub(crate) fn flags_of(alloc: Global, heap: &Heap, marks: &Marks) -> Result<Vec<bool>, AllocError>
    requires { length marks.now ≡ object_count heap.now }
{
    let mut flags = Vec::new(alloc);
    for object in 0..heap.len() {
        flags.push(marks.has(object))?;
    }
    Ok(flags)
}

/// Whether this many objects are marked, which are all.
pub(crate) fn are_all(flags: &[bool], count: usize) -> bool {
    flags.len() == count && flags.iter().all(|flag| *flag)
}

/// Which objects are marked without a lock.
pub(crate) fn marked(alloc: Global, heap: &Heap, weak: Weak) -> Result<Vec<bool>, Fault> {
    let marks = mark_plain(alloc, heap, weak)?;
    Ok(flags_of(alloc, heap, &marks)?)
}

/// Which objects are marked if all is left to the end.
pub(crate) fn finished(alloc: Global, heap: &Heap, weak: Weak) -> Result<Vec<bool>, Fault> {
    let marks = finish(heap, weak, first_shades(alloc, heap)?);
    Ok(flags_of(alloc, heap, &marks)?)
}

/// Whether the objects of a heap that are reachable in the dead cycle's image are marked without a
/// lock, and whether they are if all is left to the end.
fn mark_four_in(alloc: Global, heap: &Heap) -> Result<(bool, bool), Fault> {
    let plain = marked(alloc, heap, Weak::Keep)?;
    let finished = finished(alloc, heap, Weak::Keep)?;
    let wanted = DEAD_CYCLE_MARKS.as_slice();
    Ok((plain.as_slice() == wanted, finished.as_slice() == wanted))
}

/// The same, for that image.
fn mark_four(alloc: Global) -> Result<(bool, bool), Fault> {
    let image = dead_cycle_image(alloc)?;
    mark_four_in(alloc, image.heap())
}

#[test]
fn marks_of_a_dead_cycle(rt: HostRuntime) -> Result<(), Fail> {
    assert_eq!(rt; mark_four(rt.alloc())?, (true, true));
    Ok(())
}

/// Objects, their slots, and what these point to.
const TARGETS: &[(u32, Slot, Option<u32>)] = &[
    (3, Slot::ClassWord, Some(2)),
    (3, Slot::Field(0), None),
    (4, Slot::Field(1), Some(3)),
    (4, Slot::Field(2), None),
    (4, Slot::ClassWord, None),
];

/// What a slot of an object points to. None if there is no such object.
fn target_of(alloc: Global, object: u32, slot: Slot) -> Result<Option<Option<u32>>, Fault> {
    let image = image_of(alloc, &CLASS_EDGE)?;
    let heap = image.heap();
    if object < heap.len() {
        Ok(Some(target(heap, object, slot)))
    } else {
        Ok(None)
    }
}

#[test]
fn targets_of_slots(rt: HostRuntime) -> Result<(), Fail> {
    for (object, slot, wanted) in TARGETS {
        let found = target_of(rt.alloc(), *object, *slot)?;
        assert_eq!(rt; found, Some(*wanted), "object {object}, {slot:?}");
    }
    Ok(())
}

/// How many fields of an object are traced, how many of these are strong if weak slots are kept,
/// and how many if they are cleared. None if there is no such object.
fn fields_of(
    alloc: Global,
    image: &TestImage,
    object: u32,
) -> Result<Option<(u32, u32, u32)>, Fault> {
    let image = image_of(alloc, image)?;
    let heap = image.heap();
    if object < heap.len() {
        Ok(Some((
            traced(heap, object),
            strong(heap, Weak::Keep, object),
            strong(heap, Weak::Clear, object),
        )))
    } else {
        Ok(None)
    }
}

/// Objects of images, how many of their fields are traced, which are all strong if weak slots are
/// kept, and how many are strong if these are cleared: a context, a method, the special objects
/// array, and four weak objects.
const FIELDS: &[(&TestImage, u32, u32, u32)] = &[
    (&CONTEXT_AND_METHOD, 1, 7, 7),
    (&CONTEXT_AND_METHOD, 2, 3, 3),
    (&CONTEXT_AND_METHOD, 3, 2, 2),
    (&WEAK_FIXED_FIELD, 4, 2, 1),
    (&WEAK_FIXED_FIELD, 5, 2, 2),
    (&FIXED_FIELD_BY_INDEX, 4, 2, 1),
    (&WEAK_TOO_MANY_FIXED, 2, 1, 0),
];

#[test]
fn traced_and_strong_fields(rt: HostRuntime) -> Result<(), Fail> {
    for (k, (image, object, count, cleared)) in FIELDS.iter().enumerate() {
        let found = fields_of(rt.alloc(), image, *object)?;
        assert_eq!(rt; found, Some((*count, *count, *cleared)), "row {k}");
    }
    Ok(())
}

/// An image, the policy on weak slots, the defect of each object, and that of the lowest reachable
/// object that has one.
struct Defects {
    image: &'static TestImage,
    weak: Weak,
    of_each: &'static [Option<Fault>],
    lowest: Option<Fault>,
}

/// The defects of two objects.
const BAD_POINTER: Fault = Fault::BadPointer {
    address: 0x1004,
    slot: Slot::Field(0),
};

const NO_CLASS: Fault = Fault::NoClass { address: 0x1010 };

/// The defect of a weak object.
const BAD_WEAK: Fault = Fault::BadWeak { address: 0x1018 };

/// Images without a defect, with two, and with one of a weak object.
const DEFECTS: &[Defects] = &[
    Defects {
        image: &DEAD_CYCLE,
        weak: Weak::Keep,
        of_each: &[None; 6],
        lowest: None,
    },
    Defects {
        image: &LOWER_OF_TWO,
        weak: Weak::Keep,
        of_each: &[None, Some(BAD_POINTER), Some(NO_CLASS)],
        lowest: Some(BAD_POINTER),
    },
    Defects {
        image: &LOWER_OF_TWO,
        weak: Weak::Clear,
        of_each: &[None, Some(BAD_POINTER), Some(NO_CLASS)],
        lowest: Some(BAD_POINTER),
    },
    Defects {
        image: &WEAK_TOO_MANY_FIXED,
        weak: Weak::Keep,
        of_each: &[None; 4],
        lowest: None,
    },
    Defects {
        image: &WEAK_TOO_MANY_FIXED,
        weak: Weak::Clear,
        of_each: &[None, None, Some(BAD_WEAK), None],
        lowest: Some(BAD_WEAK),
    },
];

/// Whether objects have these defects.
fn have_defects(heap: &Heap, weak: Weak, wanted: &[Option<Fault>]) -> bool {
    if heap.len() as usize != wanted.len() {
        return false;
    }
    for (object, wanted) in wanted.iter().enumerate() {
        if defect(heap, weak, object as u32) != *wanted {
            return false;
        }
    }
    true
}

/// The defect of the lowest reachable object that has one.
fn lowest_in<R: Threads + Sync + AllocGlobal>(
    rt: &R,
    heap: &Heap,
    weak: Weak,
) -> Result<Option<Fault>, Fault> {
    let marks = mark_plain(rt.alloc(), heap, weak)?;
    Ok(first_defect(rt, heap, weak, &marks))
}

/// Whether the objects of a heap have these defects, and the defect of the lowest reachable one
/// that has one.
fn defects_of<R: Threads + Sync + AllocGlobal>(
    rt: &R,
    heap: &Heap,
    case: &Defects,
) -> Result<(bool, Option<Fault>), Fault> {
    let lowest = lowest_in(rt, heap, case.weak)?;
    Ok((have_defects(heap, case.weak, case.of_each), lowest))
}

/// The same, for an image.
fn defects_in<R: Threads + Sync + AllocGlobal>(
    rt: &R,
    case: &Defects,
) -> Result<(bool, Option<Fault>), Fault> {
    let image = image_of(rt.alloc(), case.image)?;
    defects_of(rt, image.heap(), case)
}

#[test]
fn defects_of_objects(rt: HostRuntime) -> Result<(), Fail> {
    for (k, case) in DEFECTS.iter().enumerate() {
        let found = defects_in(&rt, case)?;
        assert_eq!(rt; found, (true, case.lowest), "row {k}");
    }
    Ok(())
}

/// Images, and whether nil is missing if weak slots are cleared.
const NILS: &[(&TestImage, bool)] = &[
    (&SPECIAL_ARRAY_ALONE, true),
    (&WEAK_SPECIAL, true),
    (&WEAK_TOO_MANY_FIXED, false),
];

/// Whether nil is missing if weak slots are kept, where it is not needed, and if they are cleared.
fn lacks(alloc: Global, image: &TestImage) -> Result<(bool, bool), Fault> {
    let image = image_of(alloc, image)?;
    let heap = image.heap();
    Ok((lacks_nil(heap, Weak::Keep), lacks_nil(heap, Weak::Clear)))
}

#[test]
fn images_without_nil(rt: HostRuntime) -> Result<(), Fail> {
    for (k, (image, wanted)) in NILS.iter().enumerate() {
        assert_eq!(rt; lacks(rt.alloc(), image)?, (false, *wanted), "row {k}");
    }
    Ok(())
}
