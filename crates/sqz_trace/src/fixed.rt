//! The fixed fields of weak objects.

ghost use Rattle.std.specs.Prelude.{◌≡◌, ◌<◌, ◌≤◌, length, IfSome};
ghost use Rattle.sqz_object.specs.Chunk.{fields};
ghost use Rattle.sqz_image.specs.Objects.{object_count};
ghost use Rattle.sqz_trace.specs.Strong.{is_weak, fixed_in, fixed_by, unless_above};

use crate::weak::Weak;
use sqz_image::{Heap, Object};
use sqz_object::{BitField, Layout, ObjectIndex};

/// The field of a class that states the number of fixed fields of its instances.
const INSTANCE_SHAPE: usize = 2;

/// The bits of that word with the lower six bits of one more than the number of fixed fields.
const LOWER_BITS: BitField = BitField {
    lowest: 2,
    width: 6,
};

/// The bits of that word with the two bits above these.
const HIGHER_BITS: BitField = BitField {
    lowest: 17,
    width: 2,
};

/// Returns whether the object has weak slots that are cleared.
pub fn is_weak(weak: Weak, object: &Object<'_>) -> bool
    ensures { result ≡ is_weak weak object.now }
{
    match weak {
        Weak::Keep => false,
        Weak::Clear => matches!(object.layout(), Layout::Weak),
    }
}

/// Returns the number of fixed fields that a class states for its instances. None if there is no
/// class, or if it states no number.
pub fn fixed_by(heap: &Heap, class: Option<ObjectIndex>) -> Option<u32>
    requires { IfSome class (λ class. class < object_count heap.now) }
    ensures { result ≡ fixed_by heap.now class }
{
    let class = heap.object(class?);
    fixed_in(class.fields().get(INSTANCE_SHAPE)?)
}

/// Returns the number of fixed fields that the word of a class's field 2 states. The word is a
/// SmallInteger, and two groups of its bits hold one more than that number. None if it is not a
/// SmallInteger, or if these bits are all 0.
fn fixed_in(word: u32) -> Option<u32>
    ensures { result ≡ fixed_in word }
{
    if word % 2 != 1 {
        return None;
    }
    let stated = HIGHER_BITS.get(word) * 64 + LOWER_BITS.get(word);
    stated.checked_sub(1)
}

/// Returns the number of fixed fields of a weak object, by its class: the number that the class
/// states, or 0 if it states no number, or more than the object has.
pub(crate) fn fixed_of(heap: &Heap, class: Option<ObjectIndex>, object: &Object<'_>) -> u32
    requires { IfSome class (λ class. class < object_count heap.now) }
    ensures fixed { result ≡ unless_above (length (fields object.now)) (fixed_by heap.now class) }
    ensures inside { result ≤ length (fields object.now) }
{
    let count = object.fields().len() as u32;
    match fixed_by(heap, class) {
        Some(stated) if stated <= count => stated,
        _ => 0,
    }
}
