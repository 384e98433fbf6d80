//! Which part of two partners differs, if it is no slot.

ghost use Rattle.sqz_look_view.specs.Inspectors.{IsObjectOf};

use crate::bytes::Bytes;
use crate::compared::Compared;
use crate::cut::Printed;
use sqz_alike::Pair;
use sqz_changes::Place;
use sqz_code::method_parts;
use sqz_facts::object_facts;
use sqz_look_view::{Hex, Inspector};
use sqz_object::{Layout, ObjectIndex, Order};
use sqz_trace::traced;
use std::alloc::{AllocError, Global};

/// The names of the numbers in a header, and whether those of two methods are compared with their
/// trailers.
const NAMES: [(&str, bool); 5] = [
    ("size", true),
    ("format", true),
    ("compact class index", false),
    ("header words", true),
    ("traced fields", false),
];

/// A part of two partners that differs.
#[derive(Drop)]
pub(crate) struct Aspect {
    pub(crate) name: String,
    pub(crate) values: Printed,
}

/// Returns which part of two partners differs at a place that is no slot.
pub(crate) fn aspect_at(
    compared: Compared<'_>,
    pair: Pair,
    place: Place,
) -> Result<Aspect, AllocError>
    requires old { IsObjectOf compared.old.now pair.old }
    requires new { IsObjectOf compared.new.now pair.new }
{
    let alloc = compared.old.alloc;
    match number_at(compared, pair, place) {
        Some((name, old, new)) => Ok(Aspect {
            name: String::from_str(alloc, name)?,
            values: Printed {
                old: format!(in alloc; "{old}")?,
                new: format!(in alloc; "{new}")?,
            },
        }),
        None => contents_at(compared, pair, place),
    }
}

/// Returns the first number in the headers of two partners that differs, as far as a place covers
/// it, with its name.
fn number_at(compared: Compared<'_>, pair: Pair, place: Place) -> Option<(&'static str, u64, u64)>
    requires old { IsObjectOf compared.old.now pair.old }
    requires new { IsObjectOf compared.new.now pair.new }
{
    let (old, new) = (compared.old, compared.new);
    let (graph, other) = (old.live.graph, new.live.graph);
    match place {
        Place::Hash => {
            let hash = u64::from(object_facts(graph, pair.old).hash);
            return Some(("hash", hash, u64::from(object_facts(other, pair.new).hash)));
        }
        Place::Header | Place::Trailer => {}
        Place::Words | Place::Slot(_) => return None,
    }
    let is_method = graph.heap.object(pair.old).layout() == Layout::Method;
    let numbers = numbers_of(old, pair.old);
    let others = numbers_of(new, pair.new);
    for ((name, is_shape), (one, other)) in NAMES.iter().zip(numbers.iter().zip(&others)) {
        let is_covered = !is_method || *is_shape == (place == Place::Trailer);
        if is_covered && one != other {
            return Some((*name, *one, *other));
        }
    }
    None
}

/// Returns the numbers in the header of an object, and the number of its traced fields.
fn numbers_of(inspector: &Inspector<'_>, object: ObjectIndex) -> [u64; 5]
    requires { IsObjectOf inspector.now object }
{
    let graph = inspector.live.graph;
    let facts = object_facts(graph, object);
    [
        facts.bytes,
        u64::from(facts.format),
        u64::from(facts.compact_index),
        u64::from(facts.header_words),
        u64::from(traced(graph.heap, object)),
    ]
}

/// Returns the first byte after the traced fields of two byte objects or methods that differs; of
/// other partners the first word. The bytes of methods are their bytecodes alone, or also their
/// trailers.
fn contents_at(compared: Compared<'_>, pair: Pair, place: Place) -> Result<Aspect, AllocError>
    requires old { IsObjectOf compared.old.now pair.old }
    requires new { IsObjectOf compared.new.now pair.new }
{
    let (old, new) = (compared.old, compared.new);
    let heap = old.live.graph.heap;
    let layout = heap.object(pair.old).layout();
    let (bytes, others) = (
        bytes_at(old, pair.old, place)?,
        bytes_at(new, pair.new, place)?,
    );
    let start = 4 * traced(heap, pair.old) as usize;
    let at = bytes.first_difference(&others, start).unwrap_or(start);
    let has_bytes = matches!(layout, Layout::Bytes { .. } | Layout::Method);
    let (what, number) = if has_bytes {
        ("byte", at as u64)
    } else {
        ("word", at as u64 / 4)
    };
    Ok(Aspect {
        name: format!(in old.alloc; "{what} {}", number.saturating_add(1))?,
        values: Printed {
            old: content_text(old.alloc, &bytes, at, has_bytes)?,
            new: content_text(old.alloc, &others, at, has_bytes)?,
        },
    })
}

/// Returns the bytes of an object that are compared at a place. Those of words are in one order.
fn bytes_at<'a>(
    inspector: &Inspector<'a>,
    object: ObjectIndex,
    place: Place,
) -> Result<Bytes<'a>, AllocError>
    requires { IsObjectOf inspector.now object }
{
    let heap = inspector.live.graph.heap;
    let mut bytes = Bytes::of(inspector, object);
    match heap.object(object).layout() {
        Layout::Method if place == Place::Words => {
            let parts = method_parts(inspector.alloc, heap, object)?;
            let end = (parts.code_start as usize).saturating_add(parts.bytecodes.len());
            bytes.count = bytes.count.min(end);
        }
        Layout::Method | Layout::Bytes { .. } => {}
        _ => bytes.order = Order::Little,
    }
    Ok(bytes)
}

/// Returns the byte at a place as text, or the word that it is in. None stands for neither.
fn content_text(
    alloc: Global,
    bytes: &Bytes<'_>,
    place: usize,
    is_byte: bool,
) -> Result<String, AllocError> {
    match (bytes.get(place), bytes.fields.get(place / 4)) {
        (Some(byte), Some(_)) if is_byte => format!(in alloc; "{byte:02x}"),
        (Some(_), Some(word)) => {
            let word = Hex(word);
            format!(in alloc; "{word}")
        }
        _ => String::from_str(alloc, "none"),
    }
}
