//! Objects by their labels.

ghost use Rattle.std.specs.Prelude.{◌≡◌, ◌<◌, IfOk, IfSome, IsTrue, None};
ghost use Rattle.sqz_image.specs.Objects.{object_count};
ghost use Rattle.sqz_names.specs.Labels.{IsInside, IsLabel};
ghost use Rattle.sqz_names.specs.LabelOrder.{IsFirst};
ghost use Rattle.sqz_names.specs.Texts.{begins_as_text, HasLabel, HasOnlyLabel};
ghost use Rattle.sqz_names.specs.Words.{IsIn, IsNamed};

use crate::words::addresses::object_at;
use crate::words::numbers::address_in;
use crate::{Label, Names};
use sqz_object::ObjectIndex;
use std::alloc::AllocError;

/// Returns whether an object has this label, and not only the name of its class and its address.
pub(crate) fn is_labelled(
    names: &Names<'_>,
    object: ObjectIndex,
    words: &str,
) -> Result<bool, AllocError>
    requires { object < object_count names.now.graph.heap.now }
    ensures sound { IfOk result (λ is. IsTrue is
        → HasLabel names.now.graph.heap.now names.now.graph.weak object words.now) }
    ensures complete { IfOk result (λ is.
        HasOnlyLabel names.now.graph.heap.now names.now.graph.weak object words.now
        → IsTrue is) }
{
    match possible_label(names, object, words)? {
        Some(label) => Ok(names.label_text(object, label)?.as_str() == words),
        None => Ok(false),
    }
}

/// Returns the label of an object, and None if the words cannot be its label. Most objects have no
/// name by their place in the image, and are read only for words that begin as a string or a symbol.
fn possible_label(
    names: &Names<'_>,
    object: ObjectIndex,
    words: &str,
) -> Result<Option<Label>, AllocError>
    requires { object < object_count names.now.graph.heap.now }
    ensures label { IfOk result (λ label. IfSome label
        (IsLabel names.now.graph.heap.now names.now.graph.weak object)) }
    ensures inside { IfOk result (λ label. IfSome label
        (IsInside (object_count names.now.graph.heap.now))) }
    ensures first { IfOk result (λ label. IfSome label
        (IsFirst names.now.graph.heap.now names.now.graph.weak object)) }
    ensures none { IfOk result (λ label. label ≡ None
        → HasOnlyLabel names.now.graph.heap.now names.now.graph.weak object words.now → ⊥) }
{
    if let Some(label) = names.placed_label(object)? {
        return Ok(Some(label));
    }
    if !begins_as_text(words) {
        return Ok(None);
    }
    match names.text_label(object)? {
        Label::Other => Ok(None),
        label => Ok(Some(label)),
    }
}

/// Returns whether words begin as the label of a string or a symbol.
fn begins_as_text(words: &str) -> bool
    ensures { result ≡ begins_as_text words.now }
{
    matches!(words.as_bytes().first(), Some(b'\'' | b'#'))
}

/// Returns the object whose address ends the words, if its label precedes it, as rows have it.
pub(crate) fn object_with_address(
    names: &Names<'_>,
    words: &str,
) -> Result<Option<ObjectIndex>, AllocError>
    ensures inside { IfOk result (λ found. IfSome found (λ object.
        object < object_count names.now.graph.heap.now)) }
    ensures named { IfOk result (λ found. IfSome found
        (IsNamed names.now.graph.heap.now names.now.graph.weak words.now)) }
{
    let Some(digits) = words.split_whitespace().last() else {
        return Ok(None);
    };
    let Some(object) = object_in(names, digits) else {
        return Ok(None);
    };
    if names.label(object)?.as_str() == words {
        return Ok(Some(object));
    }
    let mut label = names.short_label(object)?;
    label.push_str(" ")?;
    label.push_str(digits)?;
    if label.as_str() == words {
        return Ok(Some(object));
    }
    Ok(None)
}

/// Returns the object with the address that digits write.
fn object_in(names: &Names<'_>, digits: &str) -> Option<ObjectIndex>
    ensures inside { IfSome result (λ object.
        object < object_count names.now.graph.heap.now) }
    ensures at { IfSome result (IsIn names.now.graph.heap.now digits.now) }
{
    object_at(names.graph.heap, address_in(digits)?)
}
