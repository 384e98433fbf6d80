//! The objects that are not marked.

ghost use Rattle.std.specs.Prelude.{◌≡◌, IfOk};
ghost use Rattle.sqz_image.specs.Objects.{object_count};
ghost use Rattle.sqz_trace.specs.Live.{live};
ghost use Rattle.sqz_trace.specs.Dead.{IsComplement, dead};

use crate::marks::Marks;
use sqz_image::Heap;
use std::alloc::{AllocError, Global};

/// Returns one mark per object of a heap: an object is marked if `marks` does not mark it. Given
/// the marks of the reachable objects, these are the marks of the garbage. The list of the objects
/// to mark takes four bytes each while the call runs.
pub fn complement(alloc: Global, heap: &Heap, marks: &Marks) -> Result<Marks, AllocError>
    ensures complement { IfOk result (λ others.
        IsComplement (object_count heap.now) marks.now others) }
    ensures dead { IfOk result (λ others. live heap.now others ≡ dead heap.now marks.now) }
{
    let mut objects = Vec::new(alloc);
    for object in 0..heap.len() {
        if !marks.has(object) {
            objects.push(object)?;
        }
    }
    Marks::listed(alloc, heap, &objects)
}
