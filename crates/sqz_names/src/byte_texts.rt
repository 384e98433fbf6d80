//! The text of byte objects in labels.

ghost use Rattle.std.specs.Prelude.{◌≡◌, ◌<◌, ◌++◌, map, take, IfOk};
ghost use Rattle.std.specs.List.{concat};
ghost use Rattle.std.specs.String.{string_bytes};
ghost use Rattle.sqz_image.specs.Objects.{object_count};
ghost use Rattle.sqz_names.specs.ByteTexts.{byte_text, dots, label_bytes, quoted_text_of};
ghost use Rattle.sqz_names.specs.ByteTexts.{shown, text_of};

use crate::escape::push_escaped;
use sqz_histogram::first_bytes;
use sqz_image::Heap;
use sqz_object::ObjectIndex;
use std::alloc::{AllocError, Global};

/// The maximum number of bytes of a name, a string, a symbol, a key or a selector in a label.
const MOST_BYTES: usize = 40;

/// Returns the first bytes of a byte object as text, followed by `..` if there are more. The text
/// of any other object is empty.
pub(crate) fn text_of(alloc: Global, heap: &Heap, object: ObjectIndex) -> Result<String, AllocError>
    requires { object < object_count heap.now }
    ensures { IfOk result (λ text. string_bytes text ≡ text_of heap.now object) }
{
    shown(alloc, heap, object, "", false)
}

/// Returns the first bytes of a string in quotes. A quote in it is doubled.
pub(crate) fn quoted_text_of(
    alloc: Global,
    heap: &Heap,
    object: ObjectIndex,
) -> Result<String, AllocError>
    requires { object < object_count heap.now }
    ensures { IfOk result (λ text. string_bytes text ≡ quoted_text_of heap.now object) }
{
    shown(alloc, heap, object, "'", true)
}

/// Returns the first bytes of a byte object, as text, with `quote` before and after it.
fn shown(
    alloc: Global,
    heap: &Heap,
    object: ObjectIndex,
    quote: &str,
    doubles_quotes: bool,
) -> Result<String, AllocError>
    requires { object < object_count heap.now }
    ensures { IfOk result (λ text. string_bytes text ≡ shown (byte_text doubles_quotes)
        quote.now (label_bytes heap.now object)) }
{
    let mut text = String::from_str(alloc, quote)?;
    let bytes = label_bytes(alloc, heap, object)?;
    push_bytes(&mut text, first(&bytes), doubles_quotes)?;
    text.push_str(quote)?;
    text.push_str(dots(&bytes))?;
    Ok(text)
}

/// Returns the first bytes of a byte object, up to one more than a label shows. None of any other
/// object.
fn label_bytes(alloc: Global, heap: &Heap, object: ObjectIndex) -> Result<Vec<u8>, AllocError>
    requires { object < object_count heap.now }
    ensures { IfOk result (λ bytes. bytes.items ≡ label_bytes heap.now object) }
{
    let bytes = first_bytes(alloc, heap.order(), &heap.object(object), MOST_BYTES + 1)?;
    Ok(bytes.unwrap_or(Vec::new(alloc)))
}

/// Returns the first bytes, as many as a label shows.
fn first(bytes: &[u8]) -> &[u8]
    ensures { result.now ≡ take 40 bytes.now }
{
    if bytes.len() > MOST_BYTES {
        &bytes[..MOST_BYTES]
    } else {
        bytes
    }
}

/// Returns two dots if there are more bytes than a label shows.
fn dots(bytes: &[u8]) -> &'static str
    ensures { result.now ≡ dots bytes.now }
{
    if bytes.len() > MOST_BYTES { ".." } else { "" }
}

/// Appends bytes as text, where a quote is doubled if `doubles_quotes` is set.
fn push_bytes(text: &mut String, bytes: &[u8], doubles_quotes: bool) -> Result<(), AllocError>
    ensures { IfOk result (λ done. string_bytes text.new
        ≡ string_bytes text.old ++ concat (map (byte_text doubles_quotes) bytes.now)) }
{
    for byte in bytes {
        push_byte(text, *byte, doubles_quotes)?;
    }
    Ok(())
}

/// Appends a byte as text, where a quote is doubled if `doubles_quotes` is set.
fn push_byte(text: &mut String, byte: u8, doubles_quotes: bool) -> Result<(), AllocError>
    ensures { IfOk result (λ done. string_bytes text.new
        ≡ string_bytes text.old ++ byte_text doubles_quotes byte) }
{
    if doubles_quotes && byte == b'\'' {
        text.push('\'')?;
    }
    push_escaped(text, byte)
}
