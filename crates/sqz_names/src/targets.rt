//! What the fields of objects point to.

ghost use Rattle.std.specs.Prelude.{◌≡◌, ◌<◌, IfSome};
ghost use Rattle.sqz_image.specs.declared.slot.Slot.TheVariants.{Field};
ghost use Rattle.sqz_image.specs.Objects.{object_count};
ghost use Rattle.sqz_trace.specs.Targets.{target};

use sqz_image::{Heap, Slot};
use sqz_object::ObjectIndex;
use sqz_trace::target;

/// Returns the object that a traced field of an object points to. None also if the object has no
/// such field.
pub(crate) fn field_target(heap: &Heap, object: ObjectIndex, field: u32) -> Option<ObjectIndex>
    requires { object < object_count heap.now }
    ensures target { result ≡ target heap.now object (Field field) }
    ensures inside { IfSome result (λ found. found < object_count heap.now) }
{
    target(heap, object, Slot::Field(field))
}
