//! The strong slots of an object: those that marking follows.

ghost use Rattle.std.specs.Prelude.{◌≡◌, ◌<◌, ◌≤◌, length};
ghost use Rattle.sqz_object.specs.Chunk.{fields};
ghost use Rattle.sqz_image.specs.Objects.{object_count, chunk_words};
ghost use Rattle.sqz_trace.specs.Strong.{strong};

use crate::classes::class_of;
use crate::fixed::{fixed_of, is_weak};
use crate::slots::traced_fields;
use crate::weak::Weak;
use sqz_image::{Heap, Object};
use sqz_object::ObjectIndex;

/// Returns the number of strong fields of the object, from field 0 on. These are the traced
/// fields. For an object whose weak slots are cleared they are the fixed fields, as its class
/// states them, or none if the class states no number, or more than the object has.
pub fn strong_fields(heap: &Heap, weak: Weak, object: &Object<'_>) -> u32
    ensures strong { result ≡ strong heap.now weak object.now }
    ensures inside { result ≤ length (fields object.now) }
{
    if is_weak(weak, object) {
        fixed_of(heap, class_of(heap, weak, object), object)
    } else {
        traced_fields(object)
    }
}

/// Returns the number of strong fields of the object, from field 0 on: at most the number of its
/// fields.
pub fn strong(heap: &Heap, weak: Weak, object: ObjectIndex) -> u32
    requires { object < object_count heap.now }
    ensures strong { result ≡ strong heap.now weak (chunk_words heap.now object) }
    ensures inside { result ≤ length (fields (chunk_words heap.now object)) }
{
    strong_fields(heap, weak, &heap.object(object))
}
