//! Byte objects and compiled methods.

ghost use Rattle.std.specs.Prelude.{◌≡◌, ◌<◌, IfOk, IsTrue};
ghost use Rattle.sqz_image.specs.Objects.{object_count};
ghost use Rattle.sqz_names.specs.Structures.{is_bytes, is_method, HasText};

use sqz_histogram::first_bytes;
use sqz_image::Heap;
use sqz_object::{Layout, ObjectIndex};
use std::alloc::{AllocError, Global};

/// Returns whether an object is a byte object.
pub(crate) fn is_bytes(heap: &Heap, object: ObjectIndex) -> bool
    requires { object < object_count heap.now }
    ensures { result ≡ is_bytes heap.now object }
{
    matches!(heap.object(object).layout(), Layout::Bytes { .. })
}

/// Returns whether an object is a compiled method.
pub(crate) fn is_method(heap: &Heap, object: ObjectIndex) -> bool
    requires { object < object_count heap.now }
    ensures { result ≡ is_method heap.now object }
{
    matches!(heap.object(object).layout(), Layout::Method)
}

/// Returns whether an object is a byte object with these bytes.
pub fn spells(
    alloc: Global,
    heap: &Heap,
    object: ObjectIndex,
    text: &str,
) -> Result<bool, AllocError>
    requires { object < object_count heap.now }
    ensures sound { IfOk result (λ is. IsTrue is → HasText heap.now text.now object) }
    ensures complete { IfOk result (λ is. HasText heap.now text.now object → IsTrue is) }
{
    let text = text.as_bytes();
    // one byte more tells a longer object apart
    match first_bytes(alloc, heap.order(), &heap.object(object), text.len() + 1)? {
        Some(bytes) => Ok(bytes.as_slice() == text),
        None => Ok(false),
    }
}
