//! The associations of the global variables and of all class variables.

ghost use Rattle.std.specs.Prelude.{◌≡◌, ◌<◌, ◌++◌, ◌&&◌, IfOk, OnOk};
ghost use Rattle.sqz_image.specs.Objects.{object_count};
ghost use Rattle.sqz_trace.specs.Avoiding.{MarksListed};
ghost use Rattle.sqz_trace.specs.Graph.{is_marked};
ghost use Rattle.sqz_strict.specs.Sets.{pool_list, array_list, element_list, elements_of};
ghost use Rattle.sqz_strict.specs.Sets.{special_at, has_no_key};

use crate::sets::held_by_classes;
use sqz_image::{Heap, Slot};
use sqz_names::fields;
use sqz_object::ObjectIndex;
use sqz_trace::{Live, Marks, target, traced};
use std::alloc::{AllocError, Global};

/// Returns the dictionaries of the class variables of all classes, and that of the global
/// variables, as marks. `classes` has the classes of live objects.
pub(crate) fn pools_of(alloc: Global, live: &Live<'_>, classes: &Marks) -> Result<Marks, AllocError>
    ensures { IfOk result (λ set. MarksListed (object_count live.now.graph.heap.now)
        (pool_list live.now.graph.heap.now live.now.graph.weak live.now.marks classes.now) set) }
{
    let mut found = held_by_classes(alloc, live, classes, fields::CLASS_VARIABLES)?;
    if let Some(globals) = special_at(live.graph.heap, fields::GLOBALS) {
        found.push(globals)?;
    }
    let set = Marks::listed(alloc, live.graph.heap, &found)?;
    Ok(set)
}

/// Returns what a field of the special objects array points to.
pub(crate) fn special_at(heap: &Heap, field: u32) -> Option<ObjectIndex>
    ensures { result ≡ special_at heap.now field }
{
    target(heap, heap.special(), Slot::Field(field))
}

/// Returns the arrays of these dictionaries, as marks.
pub(crate) fn arrays_of(alloc: Global, heap: &Heap, pools: &Marks) -> Result<Marks, AllocError>
    ensures { IfOk result (λ set.
        MarksListed (object_count heap.now) (array_list heap.now pools.now) set) }
{
    let mut found = Vec::new(alloc);
    for object in 0..heap.len() {
        if pools.has(object) {
            if let Some(array) = target(heap, object, Slot::Field(fields::ASSOCIATIONS)) {
                found.push(array)?;
            }
        }
    }
    let set = Marks::listed(alloc, heap, &found)?;
    Ok(set)
}

/// Returns the elements of these arrays, as marks.
pub(crate) fn elements_in(alloc: Global, heap: &Heap, arrays: &Marks) -> Result<Marks, AllocError>
    ensures { IfOk result (λ set.
        MarksListed (object_count heap.now) (element_list heap.now arrays.now) set) }
{
    let mut found = Vec::new(alloc);
    for object in 0..heap.len() {
        if arrays.has(object) {
            push_elements(heap, object, &mut found)?;
        }
    }
    let set = Marks::listed(alloc, heap, &found)?;
    Ok(set)
}

/// Appends what the fields of an array point to.
fn push_elements(
    heap: &Heap,
    array: ObjectIndex,
    found: &mut Vec<ObjectIndex>,
) -> Result<(), AllocError>
    requires { array < object_count heap.now }
    ensures { OnOk result (found.new.items ≡ found.old.items ++ elements_of heap.now array) }
{
    for field in 0..traced(heap, array) {
        if let Some(element) = target(heap, array, Slot::Field(field)) {
            found.push(element)?;
        }
    }
    Ok(())
}

/// Returns whether an object is one of these associations, and its key is nil.
pub(crate) fn has_no_key_among(heap: &Heap, associations: &Marks, object: ObjectIndex) -> bool
    requires { object < object_count heap.now }
    ensures { result ≡ (is_marked associations.now object && has_no_key heap.now object) }
{
    associations.has(object) && has_no_key(heap, object)
}

/// Returns whether the key of an association is nil.
fn has_no_key(heap: &Heap, association: ObjectIndex) -> bool
    requires { association < object_count heap.now }
    ensures { result ≡ has_no_key heap.now association }
{
    match target(heap, association, Slot::Field(fields::KEY)) {
        Some(key) => special_at(heap, fields::NIL) == Some(key),
        None => false,
    }
}
