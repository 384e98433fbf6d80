//! The contexts of processes, and those to which they return.

ghost use Rattle.std.specs.Prelude.{◌≡◌, ◌<◌, IfSome};
ghost use Rattle.sqz_image.specs.Objects.{object_count};
ghost use Rattle.sqz_code.specs.Contexts.{context_in, innermost, sender};

use crate::stacks::field_values::field_of;
use crate::stacks::fields::{SENDER, SUSPENDED_CONTEXT};
use sqz_image::Heap;
use sqz_object::{Layout, ObjectIndex};

/// Returns the context that a traced field of an object points to, given its number from 0. None if
/// the object has no such field, or if it points to no context.
pub(crate) fn context_in(heap: &Heap, object: ObjectIndex, field: u32) -> Option<ObjectIndex>
    requires { object < object_count heap.now }
    ensures context { result ≡ context_in heap.now object field }
    ensures inside { IfSome result (λ context. context < object_count heap.now) }
{
    let found = field_of(heap, object, field)?;
    match heap.object(found).layout() {
        Layout::Context => Some(found),
        _ => None,
    }
}

/// Returns the context to which a context returns. None if its field 0 points to no context.
pub(crate) fn sender_of(heap: &Heap, context: ObjectIndex) -> Option<ObjectIndex>
    requires { context < object_count heap.now }
    ensures sender { result ≡ sender heap.now context }
    ensures inside { IfSome result (λ found. found < object_count heap.now) }
{
    context_in(heap, context, SENDER)
}

/// Returns the innermost context of a process. None if it has none.
pub fn innermost_of(heap: &Heap, process: ObjectIndex) -> Option<ObjectIndex>
    requires { process < object_count heap.now }
    ensures innermost { result ≡ innermost heap.now process }
    ensures inside { IfSome result (λ context. context < object_count heap.now) }
{
    context_in(heap, process, SUSPENDED_CONTEXT)
}
