//! Weak slots.

ghost use Rattle.std.specs.Prelude.{◌≡◌, ◌<◌};
ghost use Rattle.sqz_image.specs.Objects.{object_count};
ghost use Rattle.sqz_dominators.specs.Weakness.{is_weak_slot};

use sqz_image::{Heap, Slot};
use sqz_object::ObjectIndex;
use sqz_trace::{ObjectGraph, Weak};

/// Returns whether a slot of an object is weak: whether it leads nowhere if weak slots are cleared.
pub fn is_weak_slot(heap: &Heap, object: ObjectIndex, slot: Slot) -> bool
    requires { object < object_count heap.now }
    ensures { result ≡ is_weak_slot heap.now object slot }
{
    let weak = Weak::Clear;
    let cleared = ObjectGraph { heap, weak };
    cleared.edges(object).target(slot).is_none()
}
