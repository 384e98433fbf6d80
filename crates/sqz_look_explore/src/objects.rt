//! Lines of objects.

ghost use Rattle.std.specs.Prelude.{All};
ghost use Rattle.sqz_look_view.specs.Inspectors.{IsObjectOf};

use crate::counters::Counters;
use crate::page_out::PageOut;
use crate::places::{offset_of, place_of};
use sqz_answers::{ShownSlot, slot_at, slot_count};
use sqz_code::method_parts;
use sqz_dominators::Dominators;
use sqz_facts::{Held, ObjectFacts, object_facts};
use sqz_histogram::first_bytes;
use sqz_image::{Sink, Slot};
use sqz_look_view::{Hex, Inspector, Out, value_text};
use sqz_names::{Label, escaped};
use sqz_object::{Layout, ObjectIndex};
use std::alloc::AllocError;

/// What objects retain, and what their elements are counted by.
#[derive(Drop)]
pub(crate) struct Measures {
    pub(crate) dominators: Dominators,
    pub(crate) counters: Counters,
}

/// Adds a line for each of these objects.
pub(crate) fn add_objects<C: Sink>(
    inspector: &Inspector<'_>,
    measures: &Measures,
    objects: &[ObjectIndex],
    page: &mut PageOut,
    out: &mut Out<'_, C>,
)
    requires { All (λ object. IsObjectOf inspector.now object)
        objects.now }
{
    page.begin("objects");
    for object in objects {
        if page.has_failed() {
            break;
        }
        page.open('[');
        add_numbers(inspector, &measures.dominators, *object, page);
        add_texts(inspector, &measures.counters, *object, page);
        add_slots(inspector, *object, page);
        page.end_line(']', out);
    }
    page.end_block();
}

/// Adds the numbers of an object: its place, its bytes, the bytes that it retains, the place of its
/// immediate dominator, its class, and its header.
fn add_numbers(
    inspector: &Inspector<'_>,
    dominators: &Dominators,
    object: ObjectIndex,
    page: &mut PageOut,
)
    requires { IsObjectOf inspector.now object }
{
    let graph = inspector.live.graph;
    let facts = object_facts(graph, object);
    page.number(place_of(inspector, object));
    page.size(facts.bytes);
    page.size(dominators.retained(object).bytes);
    match dominators.immediate(object) {
        Some(above) if above < graph.heap.len() => page.number(place_of(inspector, above)),
        _ => page.number(-1),
    }
    match facts.class {
        Some(class) => page.number(place_of(inspector, class)),
        None => page.number(-1 - i64::from(facts.compact_index)),
    }
    page.number(i64::from(header_of(facts)));
}

/// Returns the identity hash, the number of header words, the compact class index and the format of
/// an object in one number.
fn header_of(facts: ObjectFacts) -> u32 {
    (facts.hash << 11) | (facts.header_words << 9) | (facts.compact_index << 4) | facts.format
}

/// Adds the label of an object, its value if it is a number or a character, or else the number of
/// its elements, and the bytes of a byte object as text or the code of a method, if it has these.
fn add_texts(
    inspector: &Inspector<'_>,
    counters: &Counters,
    object: ObjectIndex,
    page: &mut PageOut,
)
    requires { IsObjectOf inspector.now object }
{
    page.made_if_any(label_of(inspector, object));
    match value_text(inspector, object) {
        Ok(Some(value)) => page.text(value.as_str()),
        Ok(None) => add_count(counters.count(inspector, object), page),
        Err(error) => page.need(Err(error)),
    }
    match inspector.live.graph.heap.object(object).layout() {
        Layout::Method => add_code(inspector, object, page),
        _ => page.made_if_any(text_of(inspector, object)),
    }
}

/// Adds one more than a number of elements, if there is one.
fn add_count(count: Option<u32>, page: &mut PageOut) {
    match count {
        Some(count) => page.number(i64::from(count) + 1),
        None => page.nothing(),
    }
}

/// Adds the bytecodes of a method, and the place of its class.
fn add_code(inspector: &Inspector<'_>, object: ObjectIndex, page: &mut PageOut)
    requires { IsObjectOf inspector.now object }
{
    page.open('[');
    match method_parts(inspector.alloc, inspector.live.graph.heap, object) {
        Ok(parts) => page.digits(&parts.bytecodes),
        Err(error) => page.need(Err(error)),
    }
    match inspector.names.label_of(object) {
        Ok(Label::Method { class, .. }) => page.number(place_of(inspector, class)),
        Ok(_) => page.number(-1),
        Err(error) => page.need(Err(error)),
    }
    page.close(']');
}

/// Returns the label of an object, unless it is only its class and address.
fn label_of(inspector: &Inspector<'_>, object: ObjectIndex) -> Result<Option<String>, AllocError>
    requires { IsObjectOf inspector.now object }
{
    match inspector.names.label_of(object)? {
        Label::Other => Ok(None),
        _ => Ok(Some(inspector.names.label(object)?)),
    }
}

/// Returns the bytes of a byte object as text.
fn text_of(inspector: &Inspector<'_>, object: ObjectIndex) -> Result<Option<String>, AllocError>
    requires { IsObjectOf inspector.now object }
{
    let (alloc, heap) = (inspector.alloc, inspector.live.graph.heap);
    match first_bytes(alloc, heap.order(), &heap.object(object), usize::MAX)? {
        Some(bytes) => Ok(Some(escaped(alloc, &bytes)?)),
        None => Ok(None),
    }
}

/// Adds the traced fields of an object.
fn add_slots(inspector: &Inspector<'_>, object: ObjectIndex, page: &mut PageOut)
    requires { IsObjectOf inspector.now object }
{
    let heap = inspector.live.graph.heap;
    for place in 0..slot_count(heap, object) {
        add_slot(inspector, slot_at(heap, object, place), page);
    }
}

/// Adds a slot, unless it is the class word or not traced. What the words of images have in their
/// last bit says here, too, what a number is: an odd one a SmallInteger, and an even one a place.
fn add_slot(inspector: &Inspector<'_>, shown: ShownSlot, page: &mut PageOut) {
    if shown.slot == Slot::ClassWord {
        return;
    }
    let word = shown.facts.word;
    match shown.facts.held {
        Held::Integer(number) => {
            page.number(i64::from(number) * 2 + 1);
        }
        Held::Pointer(_) => page.number(i64::from(offset_of(inspector, word) / 2)),
        Held::Weak(_) => {
            page.open('[');
            page.number(i64::from(offset_of(inspector, word) / 2));
            page.close(']');
        }
        Held::Bad => page.made(Hex(word).to_string(inspector.alloc)),
        Held::Untraced => {}
    }
}
