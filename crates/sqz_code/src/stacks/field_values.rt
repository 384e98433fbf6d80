//! What fields of objects hold.

ghost use Rattle.std.specs.Prelude.{◌≡◌, ◌<◌, IfSome, Some};
ghost use Rattle.sqz_image.specs.Objects.{object_count};
ghost use Rattle.sqz_code.specs.FieldValues.{along, integer_in};

use sqz_image::{Heap, Slot};
use sqz_object::{ObjectIndex, Value, value_of};
use sqz_trace::{slot_word, target};

/// Returns the SmallInteger in a traced field of an object, given its number from 0. None if the
/// object has no such field, and if it holds something else.
pub(crate) fn integer_in(heap: &Heap, object: ObjectIndex, field: u32) -> Option<i32>
    requires { object < object_count heap.now }
    ensures { result ≡ integer_in heap.now object field }
{
    match value_of(slot_word(heap, object, Slot::Field(field))?) {
        Value::Int(number) => Some(number),
        Value::Pointer(_) | Value::Odd(_) => None,
    }
}

/// Returns the object that a traced field of an object points to, given its number from 0. None if
/// the object has no such field, and if it points to no object.
pub(crate) fn field_of(heap: &Heap, object: ObjectIndex, field: u32) -> Option<ObjectIndex>
    requires { object < object_count heap.now }
    ensures along { result ≡ along heap.now field (Some object) }
    ensures inside { IfSome result (λ found. found < object_count heap.now) }
{
    target(heap, object, Slot::Field(field))
}
