//! Byte objects by their characters.

ghost use Rattle.std.specs.Prelude.{◌<◌, All, IfOk};
ghost use Rattle.sqz_image.specs.Objects.{object_count};
ghost use Rattle.sqz_names.specs.Picks.{AreObjectsThat};
ghost use Rattle.sqz_names.specs.Structures.{HasText};

use sqz_image::Heap;
use sqz_names::spells;
use sqz_object::ObjectIndex;
use std::alloc::{AllocError, Global};

/// Returns the byte objects whose bytes are those of a text, by index.
pub fn spelled(alloc: Global, heap: &Heap, text: &str) -> Result<Vec<ObjectIndex>, AllocError>
    ensures spelled { IfOk result (λ found.
        AreObjectsThat heap.now (HasText heap.now text.now) found.items) }
    ensures inside { IfOk result (λ found.
        All (λ object. object < object_count heap.now) found.items) }
{
    let mut found = Vec::new(alloc);
    for object in 0..heap.len() {
        if spells(alloc, heap, object, text)? {
            found.push(object)?;
        }
    }
    Ok(found)
}
