//! The names of classes.

ghost use Rattle.std.specs.Prelude.{◌≡◌, ◌++◌, ◌<◌, codes, IfOk, length, option_map, take};
ghost use Rattle.std.specs.String.{string_bytes};
ghost use Rattle.std.specs.Str.{bytes_eq};
ghost use Rattle.sqz_image.specs.Objects.{object_count};
ghost use Rattle.sqz_names.specs.ByteTexts.{name_of_class, whole_front, whole_name};
ghost use Rattle.sqz_names.specs.Structures.{class_name_of};
ghost use Rattle.sqz_names.specs.Texts.{shown_class_name};

use crate::byte_texts::text_of;
use crate::escape::escaped;
use sqz_histogram::{ClassName, class_name, first_bytes, naming};
use sqz_image::Heap;
use sqz_object::{ObjectIndex, base_of};
use sqz_trace::ObjectGraph;
use std::alloc::{AllocError, Global};

/// Returns the name of an object's class as it is printed, and `compact K` with the compact index
/// if the object has no class.
pub fn name_of_class_of(
    alloc: Global,
    graph: ObjectGraph<'_>,
    object: ObjectIndex,
) -> Result<String, AllocError>
    requires { object < object_count graph.heap.now }
    ensures { IfOk result (λ name. string_bytes name
        ≡ shown_class_name graph.entry.heap.now graph.entry.weak object) }
{
    match graph.class_of(object) {
        Some(class) => name_of_class(alloc, graph, class),
        None => {
            let compact = base_of(graph.heap.chunk(object).base).compact;
            format!(in alloc; "compact {compact}")
        }
    }
}

/// Returns the name of a class as it is printed: its first 40 bytes as text, and two dots if it has
/// more; a question mark if it has none. A metaclass is named `NAME class`.
pub fn name_of_class(
    alloc: Global,
    graph: ObjectGraph<'_>,
    class: ObjectIndex,
) -> Result<String, AllocError>
    requires { class < object_count graph.heap.now }
    ensures { IfOk result (λ name. string_bytes name
        ≡ name_of_class graph.entry.heap.now graph.entry.weak class) }
{
    match naming(graph, class) {
        Some(ClassName::Own(name)) => text_of(alloc, graph.heap, name),
        Some(ClassName::OfInstance(name)) => {
            let name = text_of(alloc, graph.heap, name)?;
            format!(in alloc; "{name} class")
        }
        None => String::from_str(alloc, "?"),
    }
}

/// Returns whether the whole name of a class is this text.
pub(crate) fn is_class_named(
    alloc: Global,
    graph: ObjectGraph<'_>,
    class: ObjectIndex,
    text: &str,
) -> Result<bool, AllocError>
    requires { class < object_count graph.heap.now }
    ensures { IfOk result (λ is. is ≡ bytes_eq
        (whole_name graph.entry.heap.now graph.entry.weak class) text.now) }
{
    // one byte more tells a longer name apart
    let most = text.len() + 1;
    match naming(graph, class) {
        Some(ClassName::Own(name)) => {
            let name = whole_front(alloc, graph.heap, name, most)?;
            Ok(name.as_str() == text)
        }
        Some(ClassName::OfInstance(name)) => {
            let mut name = whole_front(alloc, graph.heap, name, most)?;
            name.push_str(" class")?;
            Ok(name.as_str() == text)
        }
        None => Ok(text == "?"),
    }
}

/// Returns the name of an object's class as a class histogram prints it. None if the object has no
/// class.
pub(crate) fn class_name_of(
    alloc: Global,
    graph: ObjectGraph<'_>,
    object: ObjectIndex,
) -> Result<Option<Vec<u8>>, AllocError>
    requires { object < object_count graph.heap.now }
    ensures { IfOk result (λ name. option_map (λ name. name.items) name
        ≡ class_name_of graph.entry.heap.now graph.entry.weak object) }
{
    match graph.class_of(object) {
        Some(class) => Ok(Some(class_name(alloc, graph, class)?)),
        None => Ok(None),
    }
}

/// Returns the first `most` bytes of a byte object as text. The text of any other object is empty.
fn whole_front(
    alloc: Global,
    heap: &Heap,
    object: ObjectIndex,
    most: usize,
) -> Result<String, AllocError>
    requires { object < object_count heap.now }
    ensures { IfOk result (λ text. string_bytes text ≡ whole_front heap.now most object) }
{
    match first_bytes(alloc, heap.order(), &heap.object(object), most)? {
        Some(bytes) => escaped(alloc, &bytes),
        None => Ok(String::new(alloc)),
    }
}
