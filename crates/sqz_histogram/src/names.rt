//! The names of classes.

ghost use Rattle.std.specs.Prelude.{◌≡◌, ◌++◌, ◌<◌, codes, decimal, map, IfOk, IfSome};
ghost use Rattle.sqz_image.specs.Objects.{object_count};
ghost use Rattle.sqz_histogram.specs.Names.{shown_byte, shown_text, name_object, naming};
ghost use Rattle.sqz_histogram.specs.Names.{class_name, text_object};

use crate::bytes::first_bytes;
use sqz_image::{Heap, Slot};
use sqz_object::{Layout, ObjectIndex};
use sqz_trace::ObjectGraph;
use std::alloc::{AllocError, Global};

/// The field of a class that points to its name.
const NAME: u32 = 6;

/// The field of a metaclass that points to its only instance.
const INSTANCE: u32 = 5;

/// The greatest number of bytes of a name that a class histogram prints.
const MOST_BYTES: usize = 40;

/// The name of a class: a byte object.
#[derive(Clone, Copy, PartialEq, Eq)]
pub enum ClassName {
    /// The name of the class itself.
    Own(ObjectIndex),
    /// The name of the only instance of a metaclass, which is printed with ` class` after it.
    OfInstance(ObjectIndex),
}

/// Returns the name of a class: its own, or else that of its only instance. None if neither has
/// one.
pub fn naming(graph: ObjectGraph<'_>, class: ObjectIndex) -> Option<ClassName>
    requires { class < object_count graph.heap.now }
    ensures name { result ≡ naming graph.entry.heap.now graph.entry.weak class }
    ensures inside { IfSome result (λ name.
        text_object name < object_count graph.entry.heap.now) }
{
    if let Some(own) = name_object(graph, class) {
        return Some(ClassName::Own(own));
    }
    match graph.edges(class).target(Slot::Field(INSTANCE)) {
        Some(instance) => Some(ClassName::OfInstance(name_object(graph, instance)?)),
        None => None,
    }
}

/// Returns the name of a class as a class histogram prints it: its first 40 bytes, with a question
/// mark for each that is no printable ASCII character; only a question mark if it has no name.
pub fn class_name(
    alloc: Global,
    graph: ObjectGraph<'_>,
    class: ObjectIndex,
) -> Result<Vec<u8>, AllocError>
    requires { class < object_count graph.heap.now }
    ensures { IfOk result (λ name.
        name.items ≡ class_name graph.entry.heap.now graph.entry.weak class) }
{
    match naming(graph, class) {
        Some(ClassName::Own(name)) => shown_text(alloc, graph.heap, name),
        Some(ClassName::OfInstance(name)) => {
            let mut text = shown_text(alloc, graph.heap, name)?;
            text.extend_from_slice(b" class")?;
            Ok(text)
        }
        None => Vec::from_slice(alloc, b"?"),
    }
}

/// Returns the label of the objects that have no class and this compact index. Fails only if out
/// of memory.
pub fn compact_name(alloc: Global, compact: u32) -> Result<Vec<u8>, AllocError>
    ensures { IfOk result (λ name. name.items ≡ codes "compact " ++ decimal compact) }
{
    let name = format!(in alloc; "compact {compact}")?;
    Ok(name.into_bytes())
}

/// Returns the byte object that field 6 of an object points to.
fn name_object(graph: ObjectGraph<'_>, object: ObjectIndex) -> Option<ObjectIndex>
    requires { object < object_count graph.heap.now }
    ensures name { result ≡ name_object graph.entry.heap.now graph.entry.weak object }
    ensures inside { IfSome result (λ name. name < object_count graph.entry.heap.now) }
{
    let name = graph.edges(object).target(Slot::Field(NAME))?;
    let is_bytes = matches!(graph.heap.object(name).layout(), Layout::Bytes { .. });
    is_bytes.then_some(name)
}

/// Returns the first bytes of a byte object, as a class histogram prints them.
fn shown_text(alloc: Global, heap: &Heap, object: ObjectIndex) -> Result<Vec<u8>, AllocError>
    requires { object < object_count heap.now }
    ensures { IfOk result (λ text. text.items ≡ shown_text heap.now object) }
{
    match first_bytes(alloc, heap.order(), &heap.object(object), MOST_BYTES)? {
        Some(bytes) => shown_bytes(alloc, &bytes),
        None => Ok(Vec::new(alloc)),
    }
}

/// Returns bytes as they are printed.
fn shown_bytes(alloc: Global, bytes: &[u8]) -> Result<Vec<u8>, AllocError>
    ensures { IfOk result (λ text. text.items ≡ map shown_byte bytes.now) }
{
    let mut text = Vec::with_capacity(alloc, bytes.len())?;
    for byte in bytes {
        text.push(shown_byte(*byte))?;
    }
    Ok(text)
}

/// Returns a byte as a class histogram prints it: a question mark if it is not a printable ASCII
/// character.
fn shown_byte(byte: u8) -> u8
    ensures { result ≡ shown_byte byte }
{
    if byte >= 32 && byte <= 126 {
        byte
    } else {
        b'?'
    }
}
