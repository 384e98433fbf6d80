//! The classes of an image, and their method dictionaries.

ghost use Rattle.std.specs.Prelude.{◌≡◌, ◌<◌, ◌&&◌, IfOk};
ghost use Rattle.sqz_image.specs.Objects.{object_count};
ghost use Rattle.sqz_trace.specs.Avoiding.{MarksListed};
ghost use Rattle.sqz_trace.specs.Graph.{is_marked};
ghost use Rattle.sqz_names.specs.Structures.{has_own_name};
ghost use Rattle.sqz_strict.specs.Sets.{class_list, held_list, dictionary_list};
ghost use Rattle.sqz_strict.specs.Sets.{is_named_instance, is_class, is_short};

use sqz_image::{Heap, Slot};
use sqz_names::fields;
use sqz_object::{Layout, ObjectIndex};
use sqz_trace::{Live, Marks, ObjectGraph, target};
use std::alloc::{AllocError, Global};

/// Returns the method dictionaries of all classes, as marks. `classes` has the classes of live
/// objects.
pub(crate) fn dictionaries_of(
    alloc: Global,
    live: &Live<'_>,
    classes: &Marks,
) -> Result<Marks, AllocError>
    ensures { IfOk result (λ set. MarksListed (object_count live.now.graph.heap.now)
        (dictionary_list live.now.graph.heap.now live.now.graph.weak live.now.marks classes.now)
        set) }
{
    let found = held_by_classes(alloc, live, classes, fields::METHOD_DICTIONARY)?;
    let set = Marks::listed(alloc, live.graph.heap, &found)?;
    Ok(set)
}

/// Returns what a field of all classes points to, by class. `classes` has the classes of live
/// objects.
pub(crate) fn held_by_classes(
    alloc: Global,
    live: &Live<'_>,
    classes: &Marks,
    field: u32,
) -> Result<Vec<ObjectIndex>, AllocError>
    ensures { IfOk result (λ found. found.items ≡ held_list live.now.graph.heap.now
        live.now.graph.weak live.now.marks classes.now field) }
{
    let heap = live.graph.heap;
    let mut found = Vec::new(alloc);
    for object in 0..heap.len() {
        if is_class(live, classes, object) {
            if let Some(held) = target(heap, object, Slot::Field(field)) {
                found.push(held)?;
            }
        }
    }
    Ok(found)
}

/// Returns the classes of all live objects, as marks.
pub(crate) fn classes_of(alloc: Global, live: &Live<'_>) -> Result<Marks, AllocError>
    ensures { IfOk result (λ set. MarksListed (object_count live.now.graph.heap.now)
        (class_list live.now.graph.heap.now live.now.graph.weak live.now.marks) set) }
{
    let graph = live.graph;
    let mut found = Vec::new(alloc);
    for object in 0..graph.heap.len() {
        if live.marks.has(object) {
            if let Some(class) = graph.class_of(object) {
                found.push(class)?;
            }
        }
    }
    let set = Marks::listed(alloc, graph.heap, &found)?;
    Ok(set)
}

/// Returns whether an object is a class: the class of a live object, or a live object that is the
/// only instance of a metaclass and has a name of its own.
pub(crate) fn is_class(live: &Live<'_>, classes: &Marks, object: ObjectIndex) -> bool
    requires { object < object_count live.now.graph.heap.now }
    ensures { result
        ≡ is_class live.now.graph.heap.now live.now.graph.weak live.now.marks classes.now object }
{
    classes.has(object) || (live.marks.has(object) && is_named_instance(live.graph, object))
}

/// Returns whether an object is the only instance of its class, and has a name of its own.
fn is_named_instance(graph: ObjectGraph<'_>, object: ObjectIndex) -> bool
    requires { object < object_count graph.heap.now }
    ensures { result ≡ is_named_instance graph.entry.heap.now graph.entry.weak object }
{
    let Some(class) = graph.class_of(object) else {
        return false;
    };
    graph.target(class, Slot::Field(fields::INSTANCE)) == Some(object)
        && has_own_name(graph.heap, object)
}

/// Returns whether the name field of an object points to a byte object.
fn has_own_name(heap: &Heap, object: ObjectIndex) -> bool
    requires { object < object_count heap.now }
    ensures { result ≡ has_own_name heap.now object }
{
    match target(heap, object, Slot::Field(fields::NAME)) {
        Some(name) => matches!(heap.object(name).layout(), Layout::Bytes { .. }),
        None => false,
    }
}

/// Returns whether an object is one of these method dictionaries, and is short.
pub(crate) fn is_short_among(heap: &Heap, dictionaries: &Marks, object: ObjectIndex) -> bool
    requires { object < object_count heap.now }
    ensures { result ≡ (is_marked dictionaries.now object && is_short heap.now object) }
{
    dictionaries.has(object) && is_short(heap, object)
}

/// Returns whether a method dictionary has an array with fewer methods than it has keys.
fn is_short(heap: &Heap, dictionary: ObjectIndex) -> bool
    requires { dictionary < object_count heap.now }
    ensures { result ≡ is_short heap.now dictionary }
{
    match target(heap, dictionary, Slot::Field(fields::METHODS)) {
        Some(methods) => {
            let keys = heap
                .fields(dictionary)
                .saturating_sub(fields::FIRST_SELECTOR);
            heap.fields(methods) < keys
        }
        None => false,
    }
}
