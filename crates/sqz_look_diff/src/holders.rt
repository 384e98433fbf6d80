//! The objects without names that retain more.

ghost use Rattle.std.specs.Prelude.{◌<◌, All, IfOk};
ghost use Rattle.sqz_image.specs.Objects.{object_count};

use crate::matched::Matched;
use sqz_alike::{Growth, Holder, find_holders};
use sqz_look_view::Inspector;
use sqz_names::Label;
use sqz_object::ObjectIndex;
use sqz_trace::Marks;
use std::alloc::AllocError;

/// Returns the live objects of the new image that have no name and retain more than their partners,
/// or are new, those that grew most first.
pub(crate) fn holders_in(new: &Inspector<'_>, matched: &Matched) -> Result<Vec<Holder>, AllocError>
    ensures { IfOk result (λ holders. All (λ holder.
        holder.object < object_count new.now.live.graph.heap.now) holders.items) }
{
    let named = named_in(new, matched)?;
    let growth = Growth {
        live: &new.live,
        named: &named,
        partners: &matched.partners,
        old: &matched.old,
        new: &matched.new.dominators,
    };
    find_holders(new.alloc, &growth)
}

/// Returns one mark per object: a live object is marked if it has a name, and is new or retains
/// more than its partner. No other can be a holder, or hold one that is left out.
fn named_in(inspector: &Inspector<'_>, matched: &Matched) -> Result<Marks, AllocError> {
    let heap = inspector.live.graph.heap;
    let mut named = Vec::new(inspector.alloc);
    for object in 0..heap.len() {
        if inspector.live.marks.has(object)
            && has_grown(matched, object)
            && inspector.names.label_of(object)? != Label::Other
        {
            named.push(object)?;
        }
    }
    Marks::listed(inspector.alloc, heap, &named)
}

/// Returns whether an object of the new image has no partner, or retains more than its partner.
fn has_grown(matched: &Matched, object: ObjectIndex) -> bool {
    match matched.partners.old_of(object) {
        Some(partner) => {
            let (old, new) = (&matched.old, &matched.new.dominators);
            old.retained(partner).bytes < new.retained(object).bytes
        }
        None => true,
    }
}
