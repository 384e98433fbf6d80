//! The groups of objects, as numbers.

ghost use Rattle.std.specs.Prelude.{◌≡◌, ◌<◌, ◌^◌, All, IfOk};
ghost use Rattle.sqz_image.specs.Objects.{object_count};
ghost use Rattle.sqz_histogram.specs.Groups.{IsInside};
ghost use Rattle.sqz_histogram.specs.Keys.{key_of, key_count};
ghost use Rattle.sqz_answers.specs.Together.{AreGroupKeys};

use sqz_facts::group_of;
use sqz_histogram::{Group, ObjectClasses};
use sqz_image::laws::heap_bounds;
use sqz_trace::ObjectGraph;
use std::alloc::{AllocError, Global};

/// The number of compact indexes.
pub(crate) const COMPACT_INDEXES: u32 = 32;

/// Returns the number of the group of each object, by object index: the index of its class; for an
/// object without a class, the number of objects plus its compact index.
pub(crate) fn class_keys(alloc: Global, graph: ObjectGraph<'_>) -> Result<Vec<u32>, AllocError>
    ensures keys { IfOk result (λ keys.
        AreGroupKeys graph.entry.heap.now graph.entry.weak keys.items) }
    ensures inside { IfOk result (λ keys.
        All (λ key. key < key_count graph.entry.heap.now) keys.items) }
{
    heap_bounds(graph.heap); // fewer than 2^30 objects
    let count = graph.heap.len();
    let classes = ObjectClasses::of(alloc, graph)?;
    let mut keys = Vec::with_capacity(alloc, count as usize)?;
    for object in 0..count {
        keys.push(key_of(count, group_of(&classes, object)))?;
    }
    Ok(keys)
}

/// Returns the number of a group, given the number of objects: the index of the class, or the
/// number of objects plus the compact index.
pub(crate) fn key_of(count: u32, group: Group) -> u32
    requires few { count < 2 ^ 30 }
    requires inside { IsInside count group }
    ensures { result ≡ key_of count group }
{
    match group {
        Group::Class(class) => class,
        Group::Compact(index) => count + index,
    }
}
