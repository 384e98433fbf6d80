//! What slots lead to.

ghost use Rattle.std.specs.Prelude.{◌≡◌, ◌<◌, true, IfSome};
ghost use Rattle.sqz_image.specs.Objects.{object_count};
ghost use Rattle.sqz_trace.specs.Graph.{is_marked};
ghost use Rattle.sqz_alike.specs.Seen.{seen, seen_target};

use sqz_image::Slot;
use sqz_object::ObjectIndex;
use sqz_trace::{Live, nil};

/// Returns the object that a slot leads to: the live object that it points to, or nil if that is
/// dead. None if the slot points to no object.
pub fn seen_target(live: &Live<'_>, object: ObjectIndex, slot: Slot) -> Option<ObjectIndex>
    requires { object < object_count live.now.graph.heap.now }
    ensures target { result ≡ seen_target (seen live.now) object slot }
    ensures live { IfSome result (λ found. is_marked live.now.marks found ≡ true) }
{
    let found = live.graph.target(object, slot)?;
    if live.marks.has(found) {
        Some(found)
    } else {
        nil(live.graph.heap, live.graph.weak)
    }
}
