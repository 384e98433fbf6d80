//! Classes that words stand for.

ghost use Rattle.std.specs.Prelude.{◌≡◌, IfOk};
ghost use Rattle.sqz_names.specs.Found.{IfNothing, IsFoundIn, IsMissing, found_group};
ghost use Rattle.sqz_names.specs.Words.{IsClassAt, IsGroup, IsClassMeant};

use crate::Names;
use crate::words::addresses::object_at;
use crate::words::found::{Found, Missing};
use crate::words::numbers::{address_in, compact_index, explicit_address};
use crate::words::only::the_one;
use sqz_histogram::Group;
use sqz_object::{Address, ObjectIndex};
use sqz_trace::Marks;
use std::alloc::AllocError;

/// Returns the class that words stand for, or the objects without a class that `compact K` stands
/// for. A class is meant by an address in hexadecimal digits after `0x`, by its name, or by an
/// address without `0x`: the first of these that fits. If several classes have the name, the one
/// that is live is meant.
pub fn find_class(names: &Names<'_>, marks: &Marks, words: &str) -> Result<Found<Group>, AllocError>
    ensures found { IfOk result
        (IsGroup names.now.graph.heap.now names.now.graph.weak marks.now words.now) }
    ensures inside { IfOk result (λ found.
        IfNothing found (IsMissing names.now.graph.heap.now)) }
{
    match compact_index(words) {
        Some(index) => Ok(Found::One(Group::Compact(index))),
        None => Ok(group_of(the_class(names, marks, words)?)),
    }
}

/// Returns the class that words stand for.
fn the_class(
    names: &Names<'_>,
    marks: &Marks,
    words: &str,
) -> Result<Found<ObjectIndex>, AllocError>
    ensures found { IfOk result
        (IsClassMeant names.now.graph.heap.now names.now.graph.weak marks.now words.now) }
    ensures inside { IfOk result (IsFoundIn names.now.graph.heap.now) }
{
    if let Some(address) = explicit_address(words) {
        return Ok(class_with(names, address));
    }
    let classes = names.classes_called(words)?;
    if !classes.is_empty() {
        return Ok(the_one(marks, classes));
    }
    match address_in(words) {
        Some(address) => Ok(class_with(names, address)),
        None => Ok(Found::Nothing(Missing::NoClassNamed)),
    }
}

/// Returns the class with an address.
fn class_with(names: &Names<'_>, address: Address) -> Found<ObjectIndex>
    ensures found { IsClassAt names.now.graph.heap.now names.now.graph.weak address result }
    ensures inside { IsFoundIn names.now.graph.heap.now result }
{
    match object_at(names.graph.heap, address) {
        Some(class) if names.is_class(class) => Found::One(class),
        Some(_) => Found::Nothing(Missing::NoClassAt(address)),
        None => Found::Nothing(Missing::NoObjectAt(address)),
    }
}

/// Returns the group of the instances of a class.
fn group_of(found: Found<ObjectIndex>) -> Found<Group>
    ensures { result ≡ found_group found }
{
    match found {
        Found::One(class) => Found::One(Group::Class(class)),
        Found::Nothing(missing) => Found::Nothing(missing),
    }
}
