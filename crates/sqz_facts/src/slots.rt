//! What a slot holds.

ghost use Rattle.std.specs.Prelude.{◌≡◌, ◌<◌, length, option_map, IfSome};
ghost use Rattle.sqz_object.specs.Value.{value_of};
ghost use Rattle.sqz_object.specs.Chunk.{fields};
ghost use Rattle.sqz_image.specs.Objects.{object_count, chunk_words};
ghost use Rattle.sqz_trace.specs.Slots.{word_among};
ghost use Rattle.sqz_facts.specs.Held.{IsHeld, PointsBelow, held_in, held_by, held_at};

use sqz_image::{Heap, Object, Slot};
use sqz_object::{ObjectIndex, Value, value_of};
use sqz_trace::{Weak, class_address, strong_fields, traced_fields};

/// What a slot of an object holds.
#[derive(Clone, Copy, Debug, PartialEq, Eq)]
pub enum Held {
    /// A strong pointer to an object.
    Pointer(ObjectIndex),
    /// A weak pointer to an object: the slot is a field of an object of format 4 that is not fixed,
    /// whether weak slots are cleared or not.
    Weak(ObjectIndex),
    /// A SmallInteger.
    Integer(i32),
    /// A word that is not traced: bytes or words, or a field after the top of a context's stack or
    /// after a method's literals.
    Untraced,
    /// A traced word that is neither a SmallInteger nor the address of an object.
    Bad,
}

/// The word of a slot, and what it holds.
#[derive(Clone, Copy, Debug, PartialEq, Eq)]
pub struct SlotFacts {
    /// The word; for a class word the address in it, without the header type.
    pub word: u32,
    /// What the word means.
    pub held: Held,
}

/// Returns the word of a slot of an object, and what it holds. None if the object has no such
/// slot: its header has no class word, or it has fewer fields.
pub fn slot_facts(heap: &Heap, object: ObjectIndex, slot: Slot) -> Option<SlotFacts>
    requires { object < object_count heap.now }
    ensures word { let chunk = chunk_words heap.now object in
        option_map (λ facts. facts.word) result ≡ word_among (length (fields chunk)) chunk slot }
    ensures held { IfSome result (λ facts. IsHeld heap.now object slot facts.held) }
    ensures inside { IfSome result (λ facts. PointsBelow (object_count heap.now) facts.held) }
{
    let object = heap.object(object);
    match slot {
        Slot::ClassWord => {
            let word = class_address(&object)?;
            let held = held_by(heap, false, word);
            Some(SlotFacts { word, held })
        }
        Slot::Field(field) => {
            let word = object.fields().get(field as usize)?;
            let held = held_in(heap, &object, field, word);
            Some(SlotFacts { word, held })
        }
    }
}

/// Returns what the word of a field of an object means.
fn held_in(heap: &Heap, object: &Object<'_>, field: u32, word: u32) -> Held
    ensures held { result ≡ held_in heap.now object.now field word }
    ensures inside { PointsBelow (object_count heap.now) result }
{
    if field >= traced_fields(object) {
        return Held::Untraced;
    }
    let weak = field >= strong_fields(heap, Weak::Clear, object);
    held_by(heap, weak, word)
}

/// Returns what the word of a traced slot means. `weak` says whether the slot is weak.
fn held_by(heap: &Heap, weak: bool, word: u32) -> Held
    ensures held { result ≡ held_by heap.now weak (value_of word) }
    ensures inside { PointsBelow (object_count heap.now) result }
{
    match value_of(word) {
        Value::Int(number) => Held::Integer(number),
        Value::Pointer(address) => held_at(weak, heap.find(address)),
        Value::Odd(_) => Held::Bad,
    }
}

/// Returns what a slot holds whose word is an address. `found` is the object at the address, and
/// `weak` says whether the slot is weak.
fn held_at(weak: bool, found: Option<ObjectIndex>) -> Held
    ensures { result ≡ held_at weak found }
{
    match found {
        Some(object) if weak => Held::Weak(object),
        Some(object) => Held::Pointer(object),
        None => Held::Bad,
    }
}
