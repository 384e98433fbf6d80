//! The object that a bad pointer may have led to.

ghost use Rattle.std.specs.Prelude.{◌≡◌, ◌<◌, IfSome};
ghost use Rattle.sqz_image.specs.Objects.{object_count};
ghost use Rattle.sqz_damage.specs.Near.{if_asked, near_object, object_near, only_near};

use sqz_facts::can_be_class;
use sqz_image::{Heap, Slot};
use sqz_object::ObjectIndex;

/// The number of bits of a word.
const WORD_BITS: u32 = 32;

/// Returns the only object whose address differs from the word of a slot in one bit; for a class
/// word the only one of these that can be a class, if there is one. None if there is no such object,
/// and if there are several.
pub fn near_object(heap: &Heap, slot: Slot, word: u32) -> Option<ObjectIndex>
    ensures near { result ≡ near_object heap.now slot word }
    ensures inside { IfSome result (λ object. object < object_count heap.now) }
{
    if slot == Slot::ClassWord {
        let class = only_near(heap, true, word);
        if class.is_some() {
            return class;
        }
    }
    only_near(heap, false, word)
}

/// Returns the only object whose address differs from a word in one bit; if `classes`, the only one
/// of these that can be a class.
fn only_near(heap: &Heap, classes: bool, word: u32) -> Option<ObjectIndex>
    ensures near { result ≡ only_near heap.now classes word }
    ensures inside { IfSome result (λ object. object < object_count heap.now) }
{
    let mut found = None;
    for bit in 0..WORD_BITS {
        if let Some(object) = object_near(heap, classes, word, bit) {
            if found.is_some() {
                return None;
            }
            found = Some(object);
        }
    }
    found
}

/// Returns the object whose address differs from a word in one bit; if `classes`, only if it can be
/// a class.
fn object_near(heap: &Heap, classes: bool, word: u32, bit: u32) -> Option<ObjectIndex>
    requires { bit < 32 }
    ensures near { result ≡ object_near heap.now classes word bit }
    ensures inside { IfSome result (λ object. object < object_count heap.now) }
{
    if_asked(heap, classes, heap.find(word ^ (1 << bit)))
}

/// Returns an object that was found; if `classes`, only if it can be a class.
fn if_asked(heap: &Heap, classes: bool, found: Option<ObjectIndex>) -> Option<ObjectIndex>
    requires { IfSome found (λ object. object < object_count heap.now) }
    ensures near { result ≡ if_asked heap.now classes found }
    ensures inside { IfSome result (λ object. object < object_count heap.now) }
{
    let object = found?;
    if classes && !can_be_class(heap, object) {
        return None;
    }
    Some(object)
}
