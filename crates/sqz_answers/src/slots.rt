//! The slots of an object that are shown.

ghost use Rattle.std.specs.Prelude.{◌≡◌, ◌<◌, length, Some};
ghost use Rattle.sqz_object.specs.Chunk.{fields};
ghost use Rattle.sqz_image.specs.Objects.{object_count, chunk_words};
ghost use Rattle.sqz_trace.specs.Slots.{word_among};
ghost use Rattle.sqz_facts.specs.Held.{IsHeld, PointsBelow};
ghost use Rattle.sqz_answers.specs.Shown.{shown_count, shown_slot};

use sqz_facts::{SlotFacts, slot_facts};
use sqz_image::{Heap, Slot};
use sqz_object::{Layout, ObjectIndex};
use sqz_trace::class_address;

/// A slot of an object, and what it holds.
#[derive(Clone, Copy, Debug, PartialEq, Eq)]
pub struct ShownSlot {
    pub slot: Slot,
    pub facts: SlotFacts,
}

/// Returns the number of slots of an object: its class word if its header has one, and its fields
/// unless they are bytes.
pub fn slot_count(heap: &Heap, object: ObjectIndex) -> u32
    requires { object < object_count heap.now }
    ensures { result ≡ shown_count (chunk_words heap.now object) }
{
    let chunk = heap.object(object);
    let fields = match chunk.layout() {
        Layout::Bytes { .. } => 0,
        _ => heap.fields(object),
    };
    u32::from(class_address(&chunk).is_some()) + fields
}

/// Returns the slot of an object at a place among its slots, and what it holds. The class word comes
/// before the fields.
pub fn slot_at(heap: &Heap, object: ObjectIndex, place: u32) -> ShownSlot
    requires inside { object < object_count heap.now }
    requires place { place < shown_count (chunk_words heap.now object) }
    ensures slot { result.slot ≡ shown_slot (chunk_words heap.now object) place }
    ensures word { let chunk = chunk_words heap.now object in
        word_among (length (fields chunk)) chunk result.slot ≡ Some result.facts.word }
    ensures held { IsHeld heap.now object result.slot result.facts.held }
    ensures below { PointsBelow (object_count heap.now) result.facts.held }
{
    let slot = slot_in(heap, object, place);
    match slot_facts(heap, object, slot) {
        Some(facts) => ShownSlot { slot, facts },
        None => unreachable!(),
    }
}

/// Returns the slot of an object at a place among its slots.
fn slot_in(heap: &Heap, object: ObjectIndex, place: u32) -> Slot
    requires { object < object_count heap.now }
    ensures { result ≡ shown_slot (chunk_words heap.now object) place }
{
    match class_address(&heap.object(object)) {
        Some(_) if place == 0 => Slot::ClassWord,
        Some(_) => Slot::Field(place - 1),
        None => Slot::Field(place),
    }
}
