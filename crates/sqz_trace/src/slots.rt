//! The slots of an object, and what they point to.

ghost use Rattle.std.specs.Prelude.{◌≡◌, ◌<◌, ◌≤◌, length, IfSome};
ghost use Rattle.sqz_object.specs.Chunk.{fields};
ghost use Rattle.sqz_image.specs.declared.slot.Slot.TheVariants.{ClassWord};
ghost use Rattle.sqz_image.specs.Objects.{object_count, chunk_words};
ghost use Rattle.sqz_trace.specs.Slots.{word_among, slot_word, traced, clip};
ghost use Rattle.sqz_trace.specs.Targets.{named_by, named_among, target};

use crate::contexts::context_fields;
use crate::methods::method_fields;
use sqz_image::{Heap, Object, Slot};
use sqz_object::{Address, Kind, Layout, ObjectIndex, Value, value_of};

/// Returns the address in the object's class word, if its header has one.
pub fn class_address(object: &Object<'_>) -> Option<Address>
    ensures { result ≡ slot_word object.now ClassWord }
{
    let word = match object.header().kind {
        Kind::Three => object.words().at(1),
        Kind::Two => object.words().at(0),
        Kind::Free | Kind::Short => return None,
    };
    Some(word - word % 4)
}

/// Returns the number of traced fields of the object, from field 0 on: at most the number of its
/// fields, even if a context or a method states more.
pub fn traced_fields(object: &Object<'_>) -> u32
    ensures traced { result ≡ traced object.now }
    ensures inside { result ≤ length (fields object.now) }
{
    let fields = object.fields();
    let count = fields.len() as u32;
    match object.layout() {
        Layout::Fields | Layout::Weak => count,
        Layout::Context => clip(context_fields(&fields), count),
        Layout::Method => clip(method_fields(&fields), count),
        Layout::Words | Layout::Bytes { .. } => 0,
    }
}

/// Returns the stated number, but at most `count`; 0 if no number is stated.
fn clip(stated: Option<u32>, count: u32) -> u32
    ensures { result ≡ clip stated count }
{
    stated.map_or(0, |stated| stated.min(count))
}

/// Returns the object that the word of a slot points to, if the word is the address of one.
pub fn named_by(heap: &Heap, word: u32) -> Option<ObjectIndex>
    ensures named { result ≡ named_by heap.now word }
    ensures inside { IfSome result (λ found. found < object_count heap.now) }
{
    match value_of(word) {
        Value::Pointer(address) => heap.find(address),
        Value::Int(_) | Value::Odd(_) => None,
    }
}

/// Returns the object that a slot points to, among the class word of an object and its first
/// `count` fields. None also if there is no such slot.
pub(crate) fn named_among(
    heap: &Heap,
    object: &Object<'_>,
    count: u32,
    slot: Slot,
) -> Option<ObjectIndex>
    requires { count ≤ length (fields object.now) }
    ensures named { result ≡ named_among heap.now count object.now slot }
    ensures inside { IfSome result (λ found. found < object_count heap.now) }
{
    named_by(heap, word_among(object, count, slot)?)
}

/// Returns the word that a slot holds, among the class word of an object and its first `count`
/// fields. For the class word this is the address in it. None if there is no such slot.
pub(crate) fn word_among(object: &Object<'_>, count: u32, slot: Slot) -> Option<u32>
    requires { count ≤ length (fields object.now) }
    ensures { result ≡ word_among count object.now slot }
{
    match slot {
        Slot::ClassWord => class_address(object),
        Slot::Field(index) if index < count => Some(object.fields().at(index as usize)),
        Slot::Field(_) => None,
    }
}

/// Returns the object that a traced slot of an object points to; None also if the object has no
/// such slot.
pub fn target(heap: &Heap, object: ObjectIndex, slot: Slot) -> Option<ObjectIndex>
    requires { object < object_count heap.now }
    ensures named { result ≡ target heap.now object slot }
    ensures inside { IfSome result (λ found. found < object_count heap.now) }
{
    let object = heap.object(object);
    named_among(heap, &object, traced_fields(&object), slot)
}

/// Returns the word that a slot of an object holds: its class word, or one of its traced fields.
/// For the class word this is the address in it. None if the object has no such slot.
pub fn slot_word(heap: &Heap, object: ObjectIndex, slot: Slot) -> Option<u32>
    requires { object < object_count heap.now }
    ensures { result ≡ slot_word (chunk_words heap.now object) slot }
{
    let object = heap.object(object);
    word_among(&object, traced_fields(&object), slot)
}

/// Returns the number of traced fields of the object, from field 0 on: at most the number of its
/// fields.
pub fn traced(heap: &Heap, object: ObjectIndex) -> u32
    requires { object < object_count heap.now }
    ensures traced { result ≡ traced (chunk_words heap.now object) }
    ensures inside { result ≤ length (fields (chunk_words heap.now object)) }
{
    traced_fields(&heap.object(object))
}
