//! Objects by their addresses.

ghost use Rattle.std.specs.Prelude.{◌≡◌, ◌<◌, IfSome};
ghost use Rattle.sqz_image.specs.Objects.{find, object_count};

use sqz_image::Heap;
use sqz_object::{Address, ObjectIndex};

/// Returns the object with an address.
pub(crate) fn object_at(heap: &Heap, address: Address) -> Option<ObjectIndex>
    ensures object { result ≡ find heap.now address }
    ensures inside { IfSome result (λ object. object < object_count heap.now) }
{
    heap.find(address)
}
