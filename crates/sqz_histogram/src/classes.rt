//! The class of an object.

ghost use Rattle.std.specs.Prelude.{◌≡◌, length, IfOk};
ghost use Rattle.sqz_trace.specs.declared.weak.Weak.{Weak};
ghost use Rattle.sqz_trace.specs.Strong.{class_of};
ghost use Rattle.sqz_histogram.specs.Groups.{compact_indexes};
ghost use Rattle.sqz_histogram.specs.Keys.{AreCompactClasses};

use sqz_image::{Heap, Object};
use sqz_object::{Kind, ObjectIndex, base_of};
use sqz_trace::{ObjectGraph, class_address, compact_class, named_by};
use std::alloc::{AllocError, Global};

/// The number of compact indexes.
pub(crate) const COMPACT_INDEXES: u32 = 32;

/// Returns the class that each compact index stands for, by index.
pub(crate) fn class_table(
    alloc: Global,
    graph: ObjectGraph<'_>,
) -> Result<Vec<Option<ObjectIndex>>, AllocError>
    ensures { IfOk result (λ classes.
        AreCompactClasses graph.entry.heap.now graph.entry.weak classes.items) }
{
    let mut classes = Vec::with_capacity(alloc, COMPACT_INDEXES as usize)?;
    for index in 0..COMPACT_INDEXES {
        classes.push(compact_class(graph.heap, graph.weak, index))?;
    }
    Ok(classes)
}

/// Returns the class of an object. `classes` are the classes of the compact indexes; an object's
/// compact index counts only if it has no class word.
pub(crate) fn class_by_table(
    heap: &Heap,
    classes: &[Option<ObjectIndex>],
    object: &Object<'_>,
) -> Option<ObjectIndex>
    requires { length classes.now ≡ compact_indexes }
    ensures { (weak : Weak) → AreCompactClasses heap.now weak classes.now → result
        ≡ class_of heap.now weak object.now }
{
    let header = object.header();
    match header.kind {
        Kind::Three | Kind::Two => named_by(heap, class_address(object)?),
        Kind::Short => classes[base_of(header.base).compact as usize],
        Kind::Free => None,
    }
}
