//! The values of numbers and characters.

ghost use Rattle.sqz_look_view.specs.Inspectors.{IsObjectOf};

use crate::inspector::Inspector;
use sqz_histogram::first_bytes;
use sqz_object::{Layout, ObjectIndex, Value, value_of};
use std::alloc::AllocError;
use std::num::f64_from_bits_with_nan;

/// The maximum number of bytes of a large integer that is printed as a number.
const MOST_BYTES: usize = 8;

/// Returns the value of a float, a large integer of at most eight bytes or a character, as
/// Smalltalk writes it. None for other objects.
pub fn value_text(
    inspector: &Inspector<'_>,
    object: ObjectIndex,
) -> Result<Option<String>, AllocError>
    requires { IsObjectOf inspector.now object }
{
    let class = inspector.names.name_of_class_of(object)?;
    let alloc = inspector.alloc;
    match class.as_str() {
        "Float" => match float_of(inspector, object) {
            Some(value) => Ok(Some(format!(in alloc; "{value}")?)),
            None => Ok(None),
        },
        "LargePositiveInteger" => match magnitude_of(inspector, object)? {
            Some(value) => Ok(Some(format!(in alloc; "{value}")?)),
            None => Ok(None),
        },
        "LargeNegativeInteger" => match magnitude_of(inspector, object)? {
            Some(value) => Ok(Some(format!(in alloc; "-{value}")?)),
            None => Ok(None),
        },
        "Character" => character_text(inspector, object),
        _ => Ok(None),
    }
}

/// Returns the number that the two words of a float are. The first word has the higher bits.
fn float_of(inspector: &Inspector<'_>, object: ObjectIndex) -> Option<f64>
    requires { IsObjectOf inspector.now object }
{
    let chunk = inspector.live.graph.heap.object(object);
    let fields = chunk.fields();
    if chunk.layout() != Layout::Words || fields.len() != 2 {
        return None;
    }
    let (high, low) = (fields.get(0)?, fields.get(1)?);
    Some(f64_from_bits_with_nan(u64::from(high) << 32 | u64::from(low)))
}

/// Returns the number that the bytes of a large integer are, lowest first. None if they are many.
fn magnitude_of(inspector: &Inspector<'_>, object: ObjectIndex) -> Result<Option<u64>, AllocError>
    requires { IsObjectOf inspector.now object }
{
    let heap = inspector.live.graph.heap;
    let chunk = heap.object(object);
    let Some(bytes) = first_bytes(inspector.alloc, heap.order(), &chunk, MOST_BYTES + 1)? else {
        return Ok(None);
    };
    if bytes.len() > MOST_BYTES {
        return Ok(None);
    }
    let mut value = 0;
    for byte in bytes.iter().rev() {
        value = value << 8 | u64::from(*byte);
    }
    Ok(Some(value))
}

/// Returns a character: `$` and the character if it can be printed, else its number.
fn character_text(
    inspector: &Inspector<'_>,
    object: ObjectIndex,
) -> Result<Option<String>, AllocError>
    requires { IsObjectOf inspector.now object }
{
    let alloc = inspector.alloc;
    let chunk = inspector.live.graph.heap.object(object);
    let Some(word) = chunk.fields().get(0) else {
        return Ok(None);
    };
    match value_of(word) {
        Value::Int(number @ 33..=126) => {
            let character = char::from(number as u8);
            Ok(Some(format!(in alloc; "${character}")?))
        }
        Value::Int(number) => Ok(Some(format!(in alloc; "Character value: {number}")?)),
        Value::Pointer(_) | Value::Odd(_) => Ok(None),
    }
}
