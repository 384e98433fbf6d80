//! What is counted of each object.

ghost use Rattle.std.specs.Prelude.{◌≡◌, ◌<◌, length, IfOk};
ghost use Rattle.sqz_image.specs.Objects.{object_count};
ghost use Rattle.sqz_trace.specs.declared.weak.Weak.{Weak};
ghost use Rattle.sqz_histogram.specs.Groups.{compact_indexes};
ghost use Rattle.sqz_histogram.specs.Keys.{AreCompactClasses, IsEntryOf, AreEntries};

use crate::classes::class_by_table;
use rayon::prelude::*;
use sqz_image::Heap;
use sqz_object::{ObjectIndex, base_of};
use sqz_trace::Marks;
use std::alloc::{AllocError, Global};
use std::thread::Threads;

/// The key of an object that is not marked. No group has this key.
pub(crate) const NO_GROUP: u32 = u32::MAX;

/// What is counted of an object.
#[derive(Clone, Copy)]
pub(crate) struct Entry {
    /// The group that counts it: the index of its class, or, without a class, the number of
    /// objects plus its compact index. `NO_GROUP` if no group counts it.
    pub(crate) key: u32,
    /// The length of its chunk in words.
    pub(crate) words: u32,
}

/// Returns one entry per object. The policy on weak slots is that of `classes`. Several threads
/// make the entries.
pub(crate) fn entries_of(
    rt: &(impl Threads + Sync),
    alloc: Global,
    heap: &Heap,
    marks: &Marks,
    classes: &[Option<ObjectIndex>],
) -> Result<Vec<Entry>, AllocError>
    requires sized { length marks.now ≡ object_count heap.now }
    requires classes { length classes.now ≡ compact_indexes }
    ensures { IfOk result (λ entries. (weak : Weak) → AreCompactClasses heap.now weak classes.now
        → AreEntries heap.now weak marks.now entries.items) }
{
    (0..heap.len())
        .into_par_iter()
        .map(
            |object: ObjectIndex| -> Entry
                requires inside { object < object_count heap.now }
                requires sized { length marks.now ≡ object_count heap.now }
                requires classes { length classes.now ≡ compact_indexes }
                ensures { (weak : Weak) → AreCompactClasses heap.entry.now weak classes.entry.now
                    → IsEntryOf heap.entry.now weak marks.entry.now object result }
            { entry_of(heap, marks, classes, object) },
        )
        .collect::<Vec<Entry>>(rt, alloc)
}

/// Returns the entry of an object.
fn entry_of(
    heap: &Heap,
    marks: &Marks,
    classes: &[Option<ObjectIndex>],
    object: ObjectIndex,
) -> Entry
    requires inside { object < object_count heap.now }
    requires sized { length marks.now ≡ object_count heap.now }
    requires classes { length classes.now ≡ compact_indexes }
    ensures { (weak : Weak) → AreCompactClasses heap.now weak classes.now
        → IsEntryOf heap.now weak marks.now object result }
{
    if !marks.has(object) {
        return Entry {
            key: NO_GROUP,
            words: 0,
        };
    }
    let object = heap.object(object);
    let header = object.header();
    let key = match class_by_table(heap, classes, &object) {
        Some(class) => class,
        None => heap.len() + base_of(header.base).compact,
    };
    Entry {
        key,
        words: header.length,
    }
}
