//! How many elements objects have.

ghost use Rattle.std.specs.Prelude.{◌≡◌, ◌<◌, ◌-ℤ◌, ◌≤ℤ◌, ◌<ℤ◌, All, IfOk, IfSome, negsuc, pos};
ghost use Rattle.sqz_image.specs.Objects.{object_count};
ghost use Rattle.sqz_names.specs.Elements.{count_between, counter_by, counter_in, counter_of};
ghost use Rattle.sqz_names.specs.Elements.{element_count, indexed_fields, integer_in, is_named};
ghost use Rattle.sqz_names.specs.Elements.{natural, place_of, stated_by, stated_count};

use crate::bytes::spells;
use crate::formats::{FIXED_AND_INDEXED, FIXED_AND_WEAK, INDEXED};
use crate::names::Names;
use sqz_image::Heap;
use sqz_object::{Layout, ObjectIndex, Value, Words, base_of, value_of};
use sqz_trace::{ObjectGraph, fixed_by};
use std::alloc::AllocError;

/// What the elements of the instances of a class are counted by.
#[derive(Clone, Copy)]
pub enum Counter {
    /// The field of the instance variable `tally`, as those of sets and dictionaries.
    Tally(usize),
    /// The fields of `firstIndex` and `lastIndex`, as those of ordered collections.
    Ends { first: usize, last: usize },
    /// The number of indexed fields.
    Fields,
}

impl Counter {
    /// Returns what the elements of an object are counted by, and those of the other instances of
    /// its class. Fails only if out of memory.
    pub fn of(names: &Names<'_>, object: ObjectIndex) -> Result<Self, AllocError>
        requires { object < object_count names.now.graph.heap.now }
        ensures { IfOk result (λ counter.
            counter ≡ counter_of names.now.graph.heap.now names.now.graph.weak object) }
    {
        match names.graph.class_of(object) {
            Some(class) => Counter::in_class(names, class),
            None => Ok(Counter::Fields),
        }
    }

    /// Returns what the elements of the instances of a class are counted by. Only a collection,
    /// which keeps its elements in the instance variable `array`, states their number: other
    /// classes use the names of its numbers for something else. Fails only if out of memory.
    pub fn in_class(names: &Names<'_>, class: ObjectIndex) -> Result<Self, AllocError>
        requires { class < object_count names.now.graph.heap.now }
        ensures { IfOk result (λ counter.
            counter ≡ counter_in names.now.graph.heap.now class) }
    {
        match names.instance_variables(class)? {
            Some(variables) => counter_by(names, &variables),
            None => Ok(Counter::Fields),
        }
    }

    /// Returns the number of elements of an object: what it states, or that of its indexed fields.
    /// None if it has no elements.
    pub fn count(self, names: &Names<'_>, object: ObjectIndex) -> Option<u32>
        requires { object < object_count names.now.graph.heap.now }
        ensures { result
            ≡ element_count names.now.graph.heap.now names.now.graph.weak object self }
    {
        match stated_count(names.graph.heap, object, self) {
            Some(count) => Some(count),
            None => indexed_fields(names.graph, object),
        }
    }
}

/// Returns what the elements of objects with these instance variables are counted by.
fn counter_by(names: &Names<'_>, variables: &[ObjectIndex]) -> Result<Counter, AllocError>
    requires { All (λ variable. variable < object_count names.now.graph.heap.now) variables.now }
    ensures { IfOk result (λ counter.
        counter ≡ counter_by names.now.graph.heap.now variables.now) }
{
    if place_of(names, variables, "array")?.is_none() {
        return Ok(Counter::Fields);
    }
    if let Some(field) = place_of(names, variables, "tally")? {
        return Ok(Counter::Tally(field));
    }
    let first = place_of(names, variables, "firstIndex")?;
    let last = place_of(names, variables, "lastIndex")?;
    match (first, last) {
        (Some(first), Some(last)) => Ok(Counter::Ends { first, last }),
        _ => Ok(Counter::Fields),
    }
}

/// Returns the place of the first instance variable with a name.
fn place_of(
    names: &Names<'_>,
    variables: &[ObjectIndex],
    name: &str,
) -> Result<Option<usize>, AllocError>
    requires { All (λ variable. variable < object_count names.now.graph.heap.now) variables.now }
    ensures { IfOk result (λ place.
        place ≡ place_of names.now.graph.heap.now name.now variables.now) }
{
    for (place, variable) in variables.iter().enumerate() {
        if is_named(names, *variable, name)? {
            return Ok(Some(place));
        }
    }
    Ok(None)
}

/// Returns whether an instance variable has this name.
fn is_named(names: &Names<'_>, variable: ObjectIndex, name: &str) -> Result<bool, AllocError>
    requires { variable < object_count names.now.graph.heap.now }
    ensures { IfOk result (λ is. is ≡ is_named names.now.graph.heap.now name.now variable) }
{
    spells(names.alloc, names.graph.heap, variable, name)
}

/// Returns the number of elements that an object states. None if it states none.
fn stated_count(heap: &Heap, object: ObjectIndex, counter: Counter) -> Option<u32>
    requires { object < object_count heap.now }
    ensures { result ≡ stated_count heap.now object counter }
{
    let object = heap.object(object);
    match object.layout() {
        Layout::Fields | Layout::Weak | Layout::Context => stated_by(&object.fields(), counter),
        Layout::Words | Layout::Bytes { .. } | Layout::Method => None,
    }
}

/// Returns the number of elements that an object with these fields states.
fn stated_by(fields: &Words<'_>, counter: Counter) -> Option<u32>
    ensures { result ≡ stated_by fields.now counter }
{
    match counter {
        Counter::Tally(field) => u32::try_from(integer_in(fields, field)?).ok(),
        Counter::Ends { first, last } => {
            let first = integer_in(fields, first)?;
            let last = integer_in(fields, last)?;
            count_between(first, last)
        }
        Counter::Fields => None,
    }
}

/// Returns how many numbers there are from `first` to `last`. None if that is negative.
fn count_between(first: i32, last: i32) -> Option<u32>
    requires { (last -ℤ first) <ℤ pos 4294967295 }
    ensures { result ≡ count_between first last }
{
    natural(i64::from(last) - i64::from(first) + 1)
}

/// Returns a number. None if it is negative.
fn natural(number: i64) -> Option<u32>
    requires { number <ℤ pos 4294967296 }
    ensures { result ≡ natural number }
{
    u32::try_from(number).ok()
}

/// Returns the SmallInteger in one of these fields. None if there is none.
fn integer_in(fields: &Words<'_>, field: usize) -> Option<i32>
    ensures integer { result ≡ integer_in fields.now field }
    ensures least { IfSome result (λ number. negsuc 1073741823 ≤ℤ number) }
    ensures most { IfSome result (λ number. number <ℤ pos 1073741824) }
{
    match value_of(fields.get(field)?) {
        Value::Int(number) => Some(number),
        Value::Pointer(_) | Value::Odd(_) => None,
    }
}

/// Returns the number of the indexed fields of an object. None if its format has none.
fn indexed_fields(graph: ObjectGraph<'_>, object: ObjectIndex) -> Option<u32>
    requires { object < object_count graph.heap.now }
    ensures { result ≡ indexed_fields graph.entry.heap.now graph.entry.weak object }
{
    let fields = graph.heap.fields(object);
    match base_of(graph.heap.chunk(object).base).format {
        INDEXED => Some(fields),
        FIXED_AND_INDEXED | FIXED_AND_WEAK => {
            fields.checked_sub(fixed_by(graph.heap, graph.class_of(object))?)
        }
        _ => None,
    }
}
