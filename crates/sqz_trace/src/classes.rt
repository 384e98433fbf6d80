//! The class of an object.

ghost use Rattle.std.specs.Prelude.{◌≡◌, ◌<◌, IfSome};
ghost use Rattle.sqz_image.specs.declared.slot.Slot.TheVariants.{ClassWord};
ghost use Rattle.sqz_image.specs.Objects.{object_count};
ghost use Rattle.sqz_trace.specs.Targets.{named_in};
ghost use Rattle.sqz_trace.specs.Strong.{compact_class, class_of};

use crate::out_edges::OutEdges;
use crate::slots::{class_address, named_by};
use crate::weak::Weak;
use sqz_image::{Heap, Object, Slot};
use sqz_object::{Kind, ObjectIndex, base_of};

/// The field of the special objects array that points to the array of compact classes.
const COMPACT_CLASSES: u32 = 28;

/// Returns the class of the object: the object that its class word points to, or else the class
/// with its compact index. None if there is no such object.
pub fn class_of(heap: &Heap, weak: Weak, object: &Object<'_>) -> Option<ObjectIndex>
    ensures class { result ≡ class_of heap.now weak object.now }
    ensures inside { IfSome result (λ class. class < object_count heap.now) }
{
    let header = object.header();
    match header.kind {
        Kind::Three | Kind::Two => class_named(heap, object),
        Kind::Short => compact_class(heap, weak, base_of(header.base).compact),
        Kind::Free => None,
    }
}

/// Returns the class with a compact index: the object that strong field `index - 1` of the array
/// of compact classes points to. The array is found along a strong field of the special objects
/// array. None if there is no such object, and for index 0.
pub fn compact_class(heap: &Heap, weak: Weak, index: u32) -> Option<ObjectIndex>
    ensures class { result ≡ compact_class heap.now weak index }
    ensures inside { IfSome result (λ class. class < object_count heap.now) }
{
    let field = index.checked_sub(1)?;
    let special = OutEdges::by_class_word(heap, weak, heap.special());
    let classes = special.target(Slot::Field(COMPACT_CLASSES))?;
    OutEdges::by_class_word(heap, weak, classes).target(Slot::Field(field))
}

/// Returns the object that the class word of an object points to, if its header has one.
pub(crate) fn class_named(heap: &Heap, object: &Object<'_>) -> Option<ObjectIndex>
    ensures class { result ≡ named_in heap.now object.now ClassWord }
    ensures inside { IfSome result (λ class. class < object_count heap.now) }
{
    named_by(heap, class_address(object)?)
}
