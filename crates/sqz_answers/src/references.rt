//! What points to an object.

ghost use Rattle.std.specs.Prelude.{◌≡◌, ◌<◌, All, IfOk, map};
ghost use Rattle.sqz_image.specs.Objects.{object_count};
ghost use Rattle.sqz_facts.specs.Referrers.{referrers};
ghost use Rattle.sqz_answers.specs.References.{reference_of};

use sqz_dominators::is_weak_slot;
use sqz_facts::referrers_of;
use sqz_image::Slot;
use sqz_object::ObjectIndex;
use sqz_trace::Live;
use std::alloc::{AllocError, Global};

/// A reference to an object.
#[derive(Clone, Copy, Debug, PartialEq, Eq)]
pub struct Reference {
    /// The index of the object that holds the reference.
    pub object: ObjectIndex,
    /// Its slot.
    pub slot: Slot,
    /// Whether the slot is weak.
    pub is_weak: bool,
}

/// Returns the references that live objects hold to an object, each once: by index, and the class
/// word of an object before its fields.
pub fn references_to(
    alloc: Global,
    live: &Live<'_>,
    object: ObjectIndex,
) -> Result<Vec<Reference>, AllocError>
    ensures references { IfOk result (λ found. found.items
        ≡ map (reference_of live.now.graph.heap.now)
        (referrers live.now.graph.heap.now live.now.graph.weak live.now.marks object)) }
    ensures inside { IfOk result (λ found. All (λ reference.
        reference.object < object_count live.now.graph.heap.now) found.items) }
{
    let mut found = Vec::new(alloc);
    for referrer in &referrers_of(alloc, live, object)? {
        found.push(Reference {
            object: referrer.object,
            slot: referrer.slot,
            is_weak: is_weak_slot(live.graph.heap, referrer.object, referrer.slot),
        })?;
    }
    Ok(found)
}
