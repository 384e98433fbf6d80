//! The objects that are marked in one place and not in another.

ghost use Rattle.std.specs.Prelude.{IfOk};
ghost use Rattle.sqz_image.specs.Objects.{object_count};
ghost use Rattle.sqz_trace.specs.Dead.{IsDifference};

use crate::marks::Marks;
use sqz_image::Heap;
use std::alloc::{AllocError, Global};

/// Returns one mark per object of a heap: an object is marked if `marks` marks it and `others` does
/// not. The list of the objects to mark takes four bytes each while the call runs.
pub fn difference(
    alloc: Global,
    heap: &Heap,
    marks: &Marks,
    others: &Marks,
) -> Result<Marks, AllocError>
    ensures { IfOk result (λ rest.
        IsDifference (object_count heap.now) marks.now others.now rest) }
{
    let mut objects = Vec::new(alloc);
    for object in 0..heap.len() {
        let is_left = marks.has(object) && !others.has(object);
        if is_left {
            objects.push(object)?;
        }
    }
    Marks::listed(alloc, heap, &objects)
}
