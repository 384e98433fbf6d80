//! The bytes of strings and symbols.

ghost use Rattle.std.specs.Prelude.{◌≡◌, ◌<◌, IfOk, option_map};
ghost use Rattle.sqz_image.specs.Objects.{object_count};
ghost use Rattle.sqz_facts.specs.Texts.{is_text_class, text_of};

use sqz_histogram::{class_name, first_bytes};
use sqz_object::{Layout, ObjectIndex};
use sqz_trace::ObjectGraph;
use std::alloc::{AllocError, Global};

/// Returns the bytes of a string or a symbol, without padding: of a byte object whose class has the
/// name of strings or symbols. None for any other object. Fails only if out of memory.
pub fn text_of(
    alloc: Global,
    graph: ObjectGraph<'_>,
    object: ObjectIndex,
) -> Result<Option<Vec<u8>>, AllocError>
    requires { object < object_count graph.heap.now }
    ensures { IfOk result (λ text. option_map (λ text. text.items) text
        ≡ text_of graph.entry.heap.now graph.entry.weak object) }
{
    let heap = graph.heap;
    let Layout::Bytes { .. } = heap.object(object).layout() else {
        return Ok(None);
    };
    let Some(class) = graph.class_of(object) else {
        return Ok(None);
    };
    if !is_text_class(&class_name(alloc, graph, class)?) {
        return Ok(None);
    }
    first_bytes(alloc, heap.order(), &heap.object(object), usize::MAX)
}

/// Returns whether a class with this name has strings or symbols as instances.
fn is_text_class(name: &[u8]) -> bool
    ensures { result ≡ is_text_class name.now }
{
    name == b"String".as_slice()
        || name == b"ByteString".as_slice()
        || name == b"Symbol".as_slice()
        || name == b"ByteSymbol".as_slice()
}
