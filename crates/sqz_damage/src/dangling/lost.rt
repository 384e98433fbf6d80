//! Objects that are lost.

ghost use Rattle.std.specs.Prelude.{◌≡◌, ◌<◌, IfSome};
ghost use Rattle.sqz_image.specs.Objects.{object_count};
ghost use Rattle.sqz_damage.specs.Dangling.{is_class, is_classless, is_shapeless};
ghost use Rattle.sqz_damage.specs.Dangling.{is_lost, serves_classless};

use crate::dangling::untraceable::{is_untraceable, states_too_many};
use sqz_facts::can_be_class;
use sqz_image::{Heap, Object};
use sqz_object::ObjectIndex;
use sqz_trace::{ObjectGraph, Weak, class_address, class_of, fixed_by, is_weak, named_by, nil};

/// Returns whether an object is lost: it cannot be traced; or it is weak, and its class does not
/// state how many of its fields are fixed; or its class word leads to no class, and it does not
/// serve without one.
pub(crate) fn is_lost(graph: ObjectGraph<'_>, object: ObjectIndex) -> bool
    requires { object < object_count graph.heap.now }
    ensures { result ≡ is_lost graph.entry.heap.now graph.entry.weak object }
{
    let heap = graph.heap;
    let chunk = heap.object(object);
    is_untraceable(&chunk)
        || is_shapeless(heap, graph.weak, &chunk)
        || (is_classless(heap, &chunk) && !serves_classless(heap, object))
}

/// Returns whether a weak object has no class, or has one that states no number of fixed fields, or
/// more than the object has. False if weak slots are kept.
fn is_shapeless(heap: &Heap, weak: Weak, object: &Object<'_>) -> bool
    ensures { result ≡ is_shapeless heap.now weak object.now }
{
    if !is_weak(weak, object) {
        return false;
    }
    let class = class_of(heap, weak, object);
    !is_class(heap, class) || states_too_many(fixed_by(heap, class), object.fields().len() as u32)
}

/// Returns whether an object has a class word, and it leads to no class.
fn is_classless(heap: &Heap, object: &Object<'_>) -> bool
    ensures { result ≡ is_classless heap.now object.now }
{
    match class_address(object) {
        Some(word) => !is_class(heap, named_by(heap, word)),
        None => false,
    }
}

/// Returns whether there is an object, it can be a class, and it can be traced.
fn is_class(heap: &Heap, object: Option<ObjectIndex>) -> bool
    requires { IfSome object (λ index. index < object_count heap.now) }
    ensures { result ≡ is_class heap.now object }
{
    match object {
        Some(index) => can_be_class(heap, index) && !is_untraceable(&heap.object(index)),
        None => false,
    }
}

/// Returns whether an object serves even without a class: it can be a class itself, or it is nil or
/// the special objects array.
fn serves_classless(heap: &Heap, object: ObjectIndex) -> bool
    requires { object < object_count heap.now }
    ensures { result ≡ serves_classless heap.now object }
{
    can_be_class(heap, object) || nil(heap, Weak::Keep) == Some(object) || heap.special() == object
}
