//! Whether two methods have different bytecodes.

ghost use Rattle.std.specs.Prelude.{◌≡◌, ◌<◌, IfOk};
ghost use Rattle.sqz_image.specs.Objects.{chunk_words, object_count};
ghost use Rattle.sqz_changes.specs.Words.{bytecodes_differ};

use sqz_code::method_parts;
use sqz_image::Heap;
use sqz_object::ObjectIndex;
use std::alloc::{AllocError, Global};

/// Returns whether two methods have different bytecodes.
pub(crate) fn bytecodes_differ(
    alloc: Global,
    heap: &Heap,
    method: ObjectIndex,
    other_heap: &Heap,
    other: ObjectIndex,
) -> Result<bool, AllocError>
    requires method { method < object_count heap.now }
    requires other { other < object_count other_heap.now }
    ensures { IfOk result (λ found. found ≡ bytecodes_differ heap.now.order other_heap.now.order
        (chunk_words heap.now method) (chunk_words other_heap.now other)) }
{
    let one = method_parts(alloc, heap, method)?;
    let two = method_parts(alloc, other_heap, other)?;
    Ok(one.bytecodes != two.bytecodes)
}
