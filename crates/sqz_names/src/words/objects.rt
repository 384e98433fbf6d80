//! Objects that words stand for.

ghost use Rattle.std.specs.Prelude.{◌≡◌, IfOk};
ghost use Rattle.sqz_names.specs.Found.{IsAt, IsFoundIn, IsSpecialObject};
ghost use Rattle.sqz_names.specs.Words.{IsNamedObject, IsObject};

use crate::Names;
use crate::words::addresses::object_at;
use crate::words::found::{Found, Missing};
use crate::words::named::objects_named;
use crate::words::numbers::{address_in, explicit_address, special_field};
use crate::words::only::the_one;
use sqz_image::{Heap, Slot};
use sqz_object::{Address, ObjectIndex};
use sqz_trace::{Marks, target};
use std::alloc::{AllocError, Global};

/// Returns the object that words stand for. An address in hexadecimal digits after `0x` and a field
/// of the special objects array come first. Other digits stand for the class with this name, or
/// else for an address, and other words for the class, the method or the object with this name or
/// label. If several objects have it, the one that is live is meant.
pub fn find_object(
    alloc: Global,
    names: &Names<'_>,
    marks: &Marks,
    words: &str,
) -> Result<Found<ObjectIndex>, AllocError>
    ensures found { IfOk result
        (IsObject names.now.graph.heap.now names.now.graph.weak marks.now words.now) }
    ensures inside { IfOk result (IsFoundIn names.now.graph.heap.now) }
{
    if let Some(address) = explicit_address(words) {
        return Ok(object_with(names.graph.heap, address));
    }
    match special_field(words) {
        Some(field) => Ok(special_object(names.graph.heap, field)),
        None => find_named(alloc, names, marks, words),
    }
}

/// Returns the object with a name, a label or an address.
fn find_named(
    alloc: Global,
    names: &Names<'_>,
    marks: &Marks,
    words: &str,
) -> Result<Found<ObjectIndex>, AllocError>
    ensures found { IfOk result
        (IsNamedObject names.now.graph.heap.now names.now.graph.weak marks.now words.now) }
    ensures inside { IfOk result (IsFoundIn names.now.graph.heap.now) }
{
    if let Some(address) = address_in(words) {
        let classes = names.classes_called(words)?;
        if classes.is_empty() {
            return Ok(object_with(names.graph.heap, address));
        }
        return Ok(the_one(marks, classes));
    }
    let objects = objects_named(alloc, names, words)?;
    if objects.is_empty() {
        return Ok(Found::Nothing(Missing::NoObjectNamed));
    }
    Ok(the_one(marks, objects))
}

/// Returns the object with an address.
fn object_with(heap: &Heap, address: Address) -> Found<ObjectIndex>
    ensures found { IsAt heap.now address result }
    ensures inside { IsFoundIn heap.now result }
{
    match object_at(heap, address) {
        Some(object) => Found::One(object),
        None => Found::Nothing(Missing::NoObjectAt(address)),
    }
}

/// Returns the object that a field of the special objects array points to.
fn special_object(heap: &Heap, field: u32) -> Found<ObjectIndex>
    ensures found { IsSpecialObject heap.now field result }
    ensures inside { IsFoundIn heap.now result }
{
    match target(heap, heap.special(), Slot::Field(field)) {
        Some(object) => Found::One(object),
        None => Found::Nothing(Missing::NoSpecialObject(field)),
    }
}
