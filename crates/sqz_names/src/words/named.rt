//! Objects by their names and labels.

ghost use Rattle.std.specs.Prelude.{All, IfOk, IsTrue, ◌<◌};
ghost use Rattle.sqz_image.specs.Objects.{object_count};
ghost use Rattle.sqz_names.specs.Texts.{HasOnlyLabel};
ghost use Rattle.sqz_names.specs.Words.{AreAllNamed, IsClassCalled, IsNamed};

use crate::Names;
use crate::words::labelled::{is_labelled, object_with_address};
use sqz_object::ObjectIndex;
use std::alloc::{AllocError, Global};

/// Returns the objects that words name, by address: classes, methods, and the objects with this
/// label.
pub(crate) fn objects_named(
    alloc: Global,
    names: &Names<'_>,
    words: &str,
) -> Result<Vec<ObjectIndex>, AllocError>
    ensures inside { IfOk result (λ found.
        All (λ object. object < object_count names.now.graph.heap.now) found.items) }
    ensures named { IfOk result (λ found.
        AreAllNamed names.now.graph.heap.now names.now.graph.weak words.now found.items) }
{
    let heap = names.graph.heap;
    let mut named = names.methods_named(words)?;
    for object in 0..heap.len() {
        if is_named(names, object, words)? {
            named.insert(object);
        }
    }
    if let Some(object) = object_with_address(names, words)? {
        named.insert(object);
    }
    named.objects(alloc, heap)
}

/// Returns whether an object is a class with this name, or has this label.
fn is_named(names: &Names<'_>, object: ObjectIndex, words: &str) -> Result<bool, AllocError>
    requires { object < object_count names.now.graph.heap.now }
    ensures sound { IfOk result (λ is. IsTrue is
        → IsNamed names.now.graph.heap.now names.now.graph.weak words.now object) }
    ensures classes { IfOk result (λ is.
        IsClassCalled names.now.graph.heap.now names.now.graph.weak words.now object
        → IsTrue is) }
    ensures labels { IfOk result (λ is.
        HasOnlyLabel names.now.graph.heap.now names.now.graph.weak object words.now
        → IsTrue is) }
{
    if names.is_class_called(object, words)? {
        return Ok(true);
    }
    is_labelled(names, object, words)
}
