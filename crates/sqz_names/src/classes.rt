//! The classes of an image.

ghost use Rattle.std.specs.Prelude.{◌≡◌, ◌<◌, ℕ, length, true, IfOk, IfSome, Some};
ghost use Rattle.sqz_image.specs.Objects.{object_count};
ghost use Rattle.sqz_trace.specs.Graph.{is_marked};
ghost use Rattle.sqz_names.specs.ClassSets.{HasClassesOf, HasNamedInstances, IsClassSet};
ghost use Rattle.sqz_names.specs.Structures.{has_own_name, AreClasses, IsNamedInstanceOf};

use crate::bytes::is_bytes;
use crate::fields::{INSTANCE, NAME};
use crate::object_set::ObjectSet;
use crate::targets::field_target;
use sqz_histogram::ObjectClasses;
use sqz_image::Heap;
use sqz_object::ObjectIndex;
use sqz_trace::Live;
use std::alloc::{AllocError, Global};

/// Returns the classes of an image: those of live objects, and the instances of metaclasses with
/// names of their own.
pub(crate) fn classes_in(alloc: Global, live: &Live<'_>) -> Result<ObjectSet, AllocError>
    ensures sized { IfOk result (λ classes. length classes ≡ object_count live.now.graph.heap.now) }
    ensures classes { IfOk result (λ classes.
        AreClasses live.now.graph.heap.now live.now.graph.weak classes) }
{
    let graph = live.graph;
    let its_classes = ObjectClasses::of(alloc, graph)?;
    let mut of_objects = ObjectSet::empty(alloc, graph.heap)?;
    let mut classes = ObjectSet::empty(alloc, graph.heap)?;
    for object in 0..graph.heap.len() {
        if let Some(class) = its_classes.class_of(object) {
            of_objects.insert(class);
            if live.marks.has(object) {
                classes.insert(class);
            }
        }
    }
    add_instances(&its_classes, &of_objects, &mut classes);
    Ok(classes)
}

/// Adds to some classes the instances that the metaclasses among the classes of objects state.
fn add_instances(its_classes: &ObjectClasses<'_>, of_objects: &ObjectSet, classes: &mut ObjectSet)
    requires of_objects { length of_objects.now ≡ object_count its_classes.now.graph.heap.now }
    requires all { HasClassesOf its_classes.now.graph.heap.now its_classes.now.graph.weak
        (λ object. Unit {0}) (object_count its_classes.now.graph.heap.now) of_objects.now }
    requires old { IsClassSet its_classes.now.graph.heap.now its_classes.now.graph.weak
        classes.old }
    ensures new { IsClassSet its_classes.now.graph.heap.now its_classes.now.graph.weak
        classes.new }
    ensures keeps { (object : ℕ) → is_marked classes.old object ≡ true
        → is_marked classes.new object ≡ true }
    ensures instances { HasNamedInstances its_classes.now.graph.heap.now
        its_classes.now.graph.weak classes.new }
{
    for class in 0..its_classes.graph.heap.len() {
        if of_objects.contains(class)
            && let Some(instance) = named_instance(its_classes, class)
        {
            classes.insert(instance);
        }
    }
}

/// Returns the instance that a metaclass states, if it is one and has a name of its own.
fn named_instance(classes: &ObjectClasses<'_>, class: ObjectIndex) -> Option<ObjectIndex>
    requires { class < object_count classes.now.graph.heap.now }
    ensures sound { IfSome result (IsNamedInstanceOf classes.now.graph.heap.now
        classes.now.graph.weak class) }
    ensures complete { (instance : ℕ) → IsNamedInstanceOf classes.now.graph.heap.now
        classes.now.graph.weak class instance → result ≡ Some instance }
    ensures inside { IfSome result (λ instance.
        instance < object_count classes.now.graph.heap.now) }
{
    let heap = classes.graph.heap;
    let instance = field_target(heap, class, INSTANCE)?;
    if classes.class_of(instance) == Some(class) && has_own_name(heap, instance) {
        Some(instance)
    } else {
        None
    }
}

/// Returns whether an object has a name of its own: whether its name field points to a byte object.
pub(crate) fn has_own_name(heap: &Heap, object: ObjectIndex) -> bool
    requires { object < object_count heap.now }
    ensures { result ≡ has_own_name heap.now object }
{
    match field_target(heap, object, NAME) {
        Some(name) => is_bytes(heap, name),
        None => false,
    }
}
