//! All live objects with their slots.

ghost use Rattle.sqz_look_view.specs.Inspectors.{IsObjectOf};

use crate::slot_rows::add_slot;
use sqz_answers::{slot_at, slot_count};
use sqz_dominators::{Dominators, dominators_of};
use sqz_facts::object_facts;
use sqz_histogram::first_bytes;
use sqz_image::Sink;
use sqz_look_view::{Inspector, Out, PrintError, SlotNames};
use sqz_names::escaped;
use sqz_object::ObjectIndex;

/// Prints all live objects, by address, each as a line of JSON with what it retains and its
/// immediate dominator. The output is one of JSON.
pub fn print_dump<C: Sink>(
    inspector: &Inspector<'_>,
    out: &mut Out<'_, C>,
) -> Result<(), PrintError> {
    let dominators = dominators_of(inspector.alloc, inspector.live.graph)?;
    let mut names = SlotNames::none(inspector.alloc);
    for object in 0..inspector.live.graph.heap.len() {
        if out.has_failed() {
            break;
        }
        if inspector.live.marks.has(object) {
            add_facts(inspector, &dominators, object, out);
            print_slots(inspector, &mut names, object, out);
            add_text(inspector, object, out);
            out.end_row();
        }
    }
    out.end()
}

/// Adds an object with its header, what it retains and its immediate dominator.
fn add_facts<C: Sink>(
    inspector: &Inspector<'_>,
    dominators: &Dominators,
    object: ObjectIndex,
    out: &mut Out<'_, C>,
)
    requires { IsObjectOf inspector.now object }
{
    let facts = object_facts(inspector.live.graph, object);
    out.object(inspector, object);
    out.amount("bytes", facts.bytes);
    out.amount("retained", dominators.retained(object).bytes);
    out.hex_or_null("dominator", dominator_of(inspector, dominators, object));
    out.number("format", u64::from(facts.format));
    out.number("hash", u64::from(facts.hash));
    out.number("compact_index", u64::from(facts.compact_index));
}

/// Returns the address of the immediate dominator of an object, if it has one.
fn dominator_of(
    inspector: &Inspector<'_>,
    dominators: &Dominators,
    object: ObjectIndex,
) -> Option<u32> {
    match dominators.immediate(object) {
        Some(above) if above < inspector.live.graph.heap.len() => Some(inspector.address(above).0),
        _ => None,
    }
}

/// Prints all slots of an object. `names` are the names of the slots of any object.
fn print_slots<C: Sink>(
    inspector: &Inspector<'_>,
    names: &mut SlotNames,
    object: ObjectIndex,
    out: &mut Out<'_, C>,
)
    requires { IsObjectOf inspector.now object }
{
    let heap = inspector.live.graph.heap;
    out.need(names.set_object(inspector, object));
    out.begin_list("slots");
    for place in 0..slot_count(heap, object) {
        add_slot(names, slot_at(heap, object, place), out);
        out.end_row();
    }
    out.end_list();
}

/// Adds the bytes of a byte object as text.
fn add_text<C: Sink>(inspector: &Inspector<'_>, object: ObjectIndex, out: &mut Out<'_, C>)
    requires { IsObjectOf inspector.now object }
{
    let (alloc, heap) = (inspector.alloc, inspector.live.graph.heap);
    match first_bytes(alloc, heap.order(), &heap.object(object), usize::MAX) {
        Ok(Some(bytes)) => out.text("text", escaped(alloc, &bytes)),
        Ok(None) => out.null("text"),
        Err(error) => out.need(Err(error)),
    }
}
