//! Objects without a class, and classes without methods.

ghost use Rattle.std.specs.Prelude.{◌≡◌, ◌<◌, ◌&&◌};
ghost use Rattle.sqz_image.specs.Objects.{object_count};
ghost use Rattle.sqz_strict.specs.Sets.{has_no_class, is_class, lacks_methods};

use crate::associations::special_at;
use crate::sets::is_class;
use sqz_facts::can_be_class;
use sqz_image::{Heap, Slot};
use sqz_names::fields;
use sqz_object::ObjectIndex;
use sqz_trace::{Live, Marks, ObjectGraph, target};

/// Returns whether the class of an object is found, and can be no class.
pub(crate) fn has_no_class(graph: ObjectGraph<'_>, object: ObjectIndex) -> bool
    requires { object < object_count graph.heap.now }
    ensures { result ≡ has_no_class graph.entry.heap.now graph.entry.weak object }
{
    match graph.class_of(object) {
        Some(class) => !can_be_class(graph.heap, class),
        None => false,
    }
}

/// Returns whether an object is a class, and lacks methods. `classes` has the classes of live
/// objects.
pub(crate) fn lacks_methods_among(live: &Live<'_>, classes: &Marks, object: ObjectIndex) -> bool
    requires { object < object_count live.now.graph.heap.now }
    ensures { result ≡ (is_class live.now.graph.heap.now live.now.graph.weak live.now.marks
        classes.now object && lacks_methods live.now.graph.heap.now object) }
{
    is_class(live, classes, object) && lacks_methods(live.graph.heap, object)
}

/// Returns whether an object can be a class, and its field for the method dictionary points to
/// nothing or to nil.
fn lacks_methods(heap: &Heap, object: ObjectIndex) -> bool
    requires { object < object_count heap.now }
    ensures { result ≡ lacks_methods heap.now object }
{
    if !can_be_class(heap, object) {
        return false;
    }
    match target(heap, object, Slot::Field(fields::METHOD_DICTIONARY)) {
        Some(methods) => special_at(heap, fields::NIL) == Some(methods),
        None => true,
    }
}
