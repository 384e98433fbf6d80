//! The slot along which one object leads to another.

ghost use Rattle.std.specs.Prelude.{IfSome, IfNone};
ghost use Rattle.sqz_trace.specs.Edges.{strong_slots, IsTargetAmong};
ghost use Rattle.sqz_dominators.specs.Paths.{IsFirstSlotTo};

use sqz_image::Slot;
use sqz_object::ObjectIndex;
use sqz_trace::OutEdges;

/// Returns the first strong slot of an object that points to another: its class word, or else the
/// first of its fields. None if no strong slot does.
pub(crate) fn slot_between(edges: &OutEdges<'_>, to: ObjectIndex) -> Option<Slot>
    ensures first { IfSome result (IsFirstSlotTo edges.now to) }
    ensures none { IfNone result (IsTargetAmong edges.now (strong_slots edges.now) to → ⊥) }
{
    for slot in edges.slots() {
        if edges.target(slot) == Some(to) {
            return Some(slot);
        }
    }
    None
}
