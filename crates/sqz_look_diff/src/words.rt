//! What an object or a slot is in a few words.

ghost use Rattle.sqz_look_view.specs.Inspectors.{IsObjectOf};

use crate::bytes::Bytes;
use crate::whole_names::{whole_class_of, whole_label};
use sqz_alike::seen_target;
use sqz_image::Slot;
use sqz_look_view::{Hex, Inspector, value_text};
use sqz_names::formats::INDEXED;
use sqz_names::{Label, escaped};
use sqz_object::{ObjectIndex, Value, base_of, value_of};
use sqz_trace::slot_word;
use std::alloc::AllocError;

/// The maximum number of elements of an array that is described by its elements.
const MOST_ELEMENTS: u32 = 5;

/// The maximum number of bytes of a string or a symbol that are read: more than are printed, and
/// more than any other words have characters.
const MOST_BYTES: usize = 4096;

/// Returns what a slot of an object holds: a number, a word, or the words of the object that it
/// leads to; if it has none, its class and its bytes. A string or a symbol begins with the byte at
/// `start`.
pub(crate) fn words_in_slot(
    inspector: &Inspector<'_>,
    object: ObjectIndex,
    slot: Slot,
    start: usize,
) -> Result<String, AllocError>
    requires { IsObjectOf inspector.now object }
{
    let Some(held) = seen_target(&inspector.live, object, slot) else {
        return word_text(inspector, object, slot);
    };
    if let Some(words) = words_of(inspector, held, start)? {
        return Ok(words);
    }
    let bytes = inspector.bytes(held);
    let class = whole_class_of(inspector, held)?;
    format!(in inspector.alloc; "{class}, {bytes} bytes")
}

/// Returns the words of an object: its value, its label or its few elements. None if it has none of
/// these. A string or a symbol begins with the byte at `start`.
pub(crate) fn words_of(
    inspector: &Inspector<'_>,
    object: ObjectIndex,
    start: usize,
) -> Result<Option<String>, AllocError>
    requires { IsObjectOf inspector.now object }
{
    if let Some(value) = value_text(inspector, object)? {
        return Ok(Some(value));
    }
    let words = match inspector.names.label_of(object)? {
        Label::String => text_from(inspector, object, "'", start)?,
        Label::Symbol => text_from(inspector, object, "", start)?,
        Label::Other if has_few_elements(inspector, object) => elements_text(inspector, object)?,
        Label::Other => return Ok(None),
        _ => whole_label(inspector, object)?,
    };
    Ok(Some(words))
}

/// Returns a string in quotes, or a symbol, which has none, from a byte on.
fn text_from(
    inspector: &Inspector<'_>,
    object: ObjectIndex,
    quote: &str,
    start: usize,
) -> Result<String, AllocError>
    requires { IsObjectOf inspector.now object }
{
    let bytes = Bytes::of_text(inspector, object);
    let end = bytes.count.min(start.saturating_add(MOST_BYTES));
    let mut part = Vec::new(inspector.alloc);
    if start == 0 {
        part.extend_from_slice(if quote.is_empty() { b"#" } else { b"'" })?;
    }
    for place in start..end {
        let byte = bytes.get(place).unwrap_or(0);
        if byte == b'\'' {
            part.extend_from_slice(quote.as_bytes())?;
        }
        part.push(byte)?;
    }
    if end == bytes.count {
        part.extend_from_slice(quote.as_bytes())?;
    }
    escaped(inspector.alloc, &part)
}

/// Returns whether an object has indexed fields alone, and few of them.
fn has_few_elements(inspector: &Inspector<'_>, object: ObjectIndex) -> bool
    requires { IsObjectOf inspector.now object }
{
    let heap = inspector.live.graph.heap;
    base_of(heap.chunk(object).base).format == INDEXED && heap.fields(object) <= MOST_ELEMENTS
}

/// Returns the elements of an array as text, in brackets.
fn elements_text(inspector: &Inspector<'_>, array: ObjectIndex) -> Result<String, AllocError>
    requires { IsObjectOf inspector.now array }
{
    let mut text = String::from_str(inspector.alloc, "(")?;
    for field in 0..inspector.live.graph.heap.fields(array) {
        if field > 0 {
            text.push(' ')?;
        }
        let element = element_text(inspector, array, Slot::Field(field))?;
        text.push_str(element.as_str())?;
    }
    text.push(')')?;
    Ok(text)
}

/// Returns what a slot of an array holds as text: a number, a word, or the value, the label or the
/// class of the object that it leads to.
fn element_text(
    inspector: &Inspector<'_>,
    array: ObjectIndex,
    slot: Slot,
) -> Result<String, AllocError>
    requires { IsObjectOf inspector.now array }
{
    let Some(element) = seen_target(&inspector.live, array, slot) else {
        return word_text(inspector, array, slot);
    };
    if let Some(value) = value_text(inspector, element)? {
        return Ok(value);
    }
    match inspector.names.label_of(element)? {
        Label::Other => inspector.names.name_of_class_of(element),
        _ => inspector.names.label(element),
    }
}

/// Returns the word of a slot as text: the number if it is a SmallInteger.
fn word_text(
    inspector: &Inspector<'_>,
    object: ObjectIndex,
    slot: Slot,
) -> Result<String, AllocError>
    requires { IsObjectOf inspector.now object }
{
    let alloc = inspector.alloc;
    let Some(word) = slot_word(inspector.live.graph.heap, object, slot) else {
        return String::from_str(alloc, "none");
    };
    match value_of(word) {
        Value::Int(number) => format!(in alloc; "{number}"),
        Value::Pointer(word) | Value::Odd(word) => {
            let word = Hex(word);
            format!(in alloc; "word {word}")
        }
    }
}
