//! Objects by their addresses, and by the fields that point to them.

ghost use Rattle.std.specs.Prelude.{◌≡◌, ◌<◌, IfSome};
ghost use Rattle.sqz_image.specs.Objects.{find, object_count};
ghost use Rattle.sqz_look_view.specs.Inspectors.{IsObjectOf};

use crate::inspector::Inspector;
use sqz_image::{Heap, Slot};
use sqz_object::{Address, ObjectIndex};
use sqz_trace::target;

/// Returns the object with an address.
pub fn object_at(heap: &Heap, address: Address) -> Option<ObjectIndex>
    ensures object { result ≡ find heap.now address }
    ensures inside { IfSome result (λ object. object < object_count heap.now) }
{
    heap.find(address)
}

/// Returns the object that a field of an object points to, given its number from 0. None if there
/// is no such field, and if it points to no object.
pub fn field_of(inspector: &Inspector<'_>, object: ObjectIndex, field: u32) -> Option<ObjectIndex>
    requires { IsObjectOf inspector.now object }
    ensures { IfSome result (λ found. IsObjectOf inspector.now found) }
{
    target(inspector.live.graph.heap, object, Slot::Field(field))
}
