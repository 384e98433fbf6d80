//! The four ways to mark give equal marks.

ghost use Rattle.std.specs.Prelude.{◌≡◌, length};
ghost use Rattle.sqz_image.specs.Objects.{object_count};

use super::images::{FIXED_FIELD_BY_INDEX, FREE_AT_THE_END, THREE_WEAK_SLOTS};
use super::marking::marked_by;
use super::tracing::{finished, flags_of, marked};
use sqz_image::{Fault, Heap};
use sqz_marks::Workers;
use sqz_regions::{Cut, Regions, live_words};
use sqz_test_fixtures::with_weak_classes::WEAK_TOO_MANY_FIXED;
use sqz_test_fixtures::with_weak_objects::WEAK_FIXED_FIELD;
use sqz_test_fixtures::{Folder, TestImage, image_of, worked_tables};
use sqz_trace::{Marks, Weak};
use sqz_workers::{Marked, OpenGate, mark};
use std::alloc::{AllocError, Global};
use std::process::Abort;
use std::sync::Wait;
use std::test::Fail;
use std::thread::Threads;

/// Whether these objects are marked.
fn has_flags(alloc: Global, heap: &Heap, marks: &Marks, wanted: &[bool]) -> Result<bool, AllocError>
    requires { length marks.now ≡ object_count heap.now }
{
    Ok(flags_of(alloc, heap, marks)?.as_slice() == wanted)
}

/// Whether the words that workers counted in each region are those of the marked objects there.
fn has_sums(
    alloc: Global,
    heap: &Heap,
    regions: &Regions<'_>,
    marked: &Marked,
) -> Result<bool, Fault>
    requires regions { regions.now.memory ≡ heap.now }
    requires sized { length marked.now.marks ≡ object_count heap.now }
{
    let sums = live_words(alloc, heap, regions, &marked.marks)?;
    Ok(marked.live_words.as_slice() == sums.as_slice())
}

/// Whether three workers who steal mark these objects, and whether the words that they counted in
/// each region are those of the marked objects there.
fn is_stolen_in<R: Threads + Sync + AllocGlobal>(
    rt: &R,
    heap: &Heap,
    weak: Weak,
    regions: &Regions<'_>,
    wanted: &[bool],
) -> Result<(bool, bool), Fault>
    requires { regions.now.memory ≡ heap.now }
{
    let workers = Workers::new(3)?;
    let marked = mark(rt, rt.alloc(), heap, weak, regions, workers, &OpenGate)?;
    let has_flags = has_flags(rt.alloc(), heap, &marked.marks, wanted)?;
    Ok((has_flags, has_sums(rt.alloc(), heap, regions, &marked)?))
}

/// The same, for regions of four words.
fn is_stolen<R: Threads + Sync + AllocGlobal>(
    rt: &R,
    heap: &Heap,
    weak: Weak,
    wanted: &[bool],
) -> Result<(bool, bool), Fault> {
    let cut = Cut::every(4)?;
    let regions = Regions::of(rt.alloc(), heap, &cut)?;
    is_stolen_in(rt, heap, weak, &regions, wanted)
}

/// Whether these objects are marked from the first shades on without memory.
fn is_finished(alloc: Global, heap: &Heap, weak: Weak, wanted: &[bool]) -> Result<bool, Fault> {
    Ok(finished(alloc, heap, weak)?.as_slice() == wanted)
}

/// Whether three workers mark these objects under a lock.
fn is_locked<R: Threads + Wait + Sync + AllocGlobal>(
    rt: &R,
    heap: &Heap,
    weak: Weak,
    wanted: &[bool],
) -> Result<bool, Fault> {
    Ok(marked_by(rt, heap, weak, 3, &OpenGate)?.as_slice() == wanted)
}

/// Whether objects are marked as by a worklist: without memory, under a lock, and by workers who
/// steal, who count the words in each region.
type Equal = (bool, bool, (bool, bool));

/// Whether the objects of a heap are marked alike.
fn are_equal<R: Threads + Wait + Sync + AllocGlobal>(
    rt: &R,
    heap: &Heap,
    weak: Weak,
) -> Result<Equal, Fault> {
    let plain = marked(rt.alloc(), heap, weak)?;
    Ok((
        is_finished(rt.alloc(), heap, weak, &plain)?,
        is_locked(rt, heap, weak, &plain)?,
        is_stolen(rt, heap, weak, &plain)?,
    ))
}

/// Whether the objects of an image are marked alike.
fn are_equal_in<R: Threads + Wait + Sync + AllocGlobal>(
    rt: &R,
    image: &TestImage,
    weak: Weak,
) -> Result<Equal, Fault> {
    let image = image_of(rt.alloc(), image)?;
    are_equal(rt, image.heap(), weak)
}

/// Asserts that the objects of an image are marked alike under both policies on weak slots.
fn assert_equal<R: Threads + Wait + Sync + Abort + AllocGlobal>(
    rt: &R,
    name: &str,
    image: &TestImage,
) -> Result<(), Fail> {
    for weak in [Weak::Keep, Weak::Clear] {
        let found = are_equal_in(rt, image, weak)?;
        assert_eq!(rt; found, (true, true, (true, true)), "{name}, {weak:?}");
    }
    Ok(())
}

/// Those of the folder `unreadable` have no objects.
#[test]
fn of_all_images(rt: HostRuntime) -> Result<(), Fail> {
    for table in &worked_tables() {
        for worked in *table {
            if !matches!(worked.folder, Folder::Unreadable) {
                assert_equal(&rt, worked.name, worked.input.image())?;
            }
        }
    }
    Ok(())
}

/// More weak objects, and free chunks after all objects.
const MORE: &[(&str, &TestImage)] = &[
    ("three weak slots", &THREE_WEAK_SLOTS),
    ("weak object with a fixed field", &WEAK_FIXED_FIELD),
    ("fixed field by compact index", &FIXED_FIELD_BY_INDEX),
    ("too many fixed fields", &WEAK_TOO_MANY_FIXED),
    ("free chunks at the end", &FREE_AT_THE_END),
];

#[test]
fn of_weak_objects_and_of_free_chunks_at_the_end(rt: HostRuntime) -> Result<(), Fail> {
    for (name, image) in MORE {
        assert_equal(&rt, name, image)?;
    }
    Ok(())
}
