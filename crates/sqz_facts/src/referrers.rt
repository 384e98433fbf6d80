//! What points to an object.

ghost use Rattle.std.specs.Prelude.{◌≡◌, ◌<◌, ◌++◌, All, IfOk, OnOk};
ghost use Rattle.sqz_image.specs.Objects.{object_count};
ghost use Rattle.sqz_trace.specs.Edges.{strong_slots};
ghost use Rattle.sqz_facts.specs.Referrers.{referrers, referrers_among};

use sqz_image::Slot;
use sqz_object::ObjectIndex;
use sqz_trace::{Live, OutEdges};
use std::alloc::{AllocError, Global};

/// A reference to an object.
#[derive(Clone, Copy, Debug, PartialEq, Eq)]
pub struct Referrer {
    /// The index of the object that holds the reference.
    pub object: ObjectIndex,
    /// Its slot.
    pub slot: Slot,
}

/// Returns the strong slots of live objects that point to the object with this index, each once: by
/// index, and the class word of an object before its fields.
pub fn referrers_of(
    alloc: Global,
    live: &Live<'_>,
    object: ObjectIndex,
) -> Result<Vec<Referrer>, AllocError>
    ensures referrers { IfOk result (λ found. found.items
        ≡ referrers live.now.graph.heap.now live.now.graph.weak live.now.marks object) }
    ensures inside { IfOk result (λ found. All (λ referrer.
        referrer.object < object_count live.now.graph.heap.now) found.items) }
{
    let mut found = Vec::new(alloc);
    for from in 0..live.graph.heap.len() {
        if live.marks.has(from) {
            push_referrers(&live.graph.edges(from), from, object, &mut found)?;
        }
    }
    Ok(found)
}

/// Appends the slots of an object that point to another one.
fn push_referrers(
    edges: &OutEdges<'_>,
    from: ObjectIndex,
    to: ObjectIndex,
    found: &mut Vec<Referrer>,
) -> Result<(), AllocError>
    ensures { OnOk result (found.new.items
        ≡ found.old.items ++ referrers_among edges.now from to (strong_slots edges.now)) }
{
    for slot in edges.slots() {
        if edges.target(slot) == Some(to) {
            found.push(Referrer { object: from, slot })?;
        }
    }
    Ok(())
}
