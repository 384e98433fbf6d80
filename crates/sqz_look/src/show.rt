//! What an object is.

ghost use Rattle.std.specs.Prelude.{IfSome};
ghost use Rattle.sqz_look_view.specs.Inspectors.{IsObjectOf};

use crate::method_header::header_of;
use crate::slot_rows::print_slot;
use sqz_answers::{Shown, shown_object, slot_at, slot_count};
use sqz_facts::{Held, ObjectFacts};
use sqz_histogram::first_bytes;
use sqz_image::Sink;
use sqz_look_view::{Inspector, Out, PrintError, SlotNames, add_method_header, value_text};
use sqz_names::escaped;
use sqz_object::ObjectIndex;

/// The maximum number of bytes of a byte object in the text form, unless all are requested.
const MOST_BYTES: usize = 400;

/// The line about the bytes of a byte object that are left out in the text form.
const CUT_BYTES: &str = "... cut after 400 of {count} bytes; --all prints all";

/// Prints what an object is: its class, its size and what it retains, its header, what its slots
/// hold, and its bytes as text if it has any.
pub fn print_show<C: Sink>(
    inspector: &Inspector<'_>,
    object: ObjectIndex,
    out: &mut Out<'_, C>,
) -> Result<(), PrintError>
    requires { IsObjectOf inspector.now object }
{
    let Shown { facts, retained } = shown_object(inspector.alloc, &inspector.live, object)?;
    add_facts(inspector, object, facts, retained, out);
    let header = header_of(inspector.live.graph.heap, object);
    add_method_header("method", header, "  method    ", out);
    print_slots(inspector, object, out);
    add_text(inspector, object, out);
    out.end_row();
    out.end()
}

/// Adds the class of an object, its size, what it retains, its header, and its value.
fn add_facts<C: Sink>(
    inspector: &Inspector<'_>,
    object: ObjectIndex,
    facts: ObjectFacts,
    retained: Option<u64>,
    out: &mut Out<'_, C>,
)
    requires object { IsObjectOf inspector.now object }
    requires class { IfSome facts.class (λ class.
        IsObjectOf inspector.now class) }
{
    out.hex("address", facts.address);
    out.text("class", inspector.names.name_of_class_of(object));
    match facts.class {
        Some(class) => out.hex("class_address", inspector.address(class).0),
        None => out.null("class_address"),
    }
    out.label("label", inspector, object);
    out.truth("live", retained.is_some());
    out.amount("bytes", facts.bytes);
    out.amount_or_null("retained", retained);
    out.number("header_words", u64::from(facts.header_words));
    out.number("format", u64::from(facts.format));
    out.number("hash", u64::from(facts.hash));
    out.number("compact_index", u64::from(facts.compact_index));
    out.text_or_null("value", value_text(inspector, object));
    out.part("{label} {address}");
    out.part("  class     {class}{class_address/ }");
    out.part(match retained {
        Some(_) => "  size      {bytes#byte}, retains {retained}",
        None => "  size      {bytes#byte}, not reachable",
    });
    out.part(
        "  header    {header_words#word}, format {format}, hash {hash}, compact index {compact_index}",
    );
    out.part_if("value", "  value     {value}");
}

/// Prints the first slots of an object, or all, and what they hold.
fn print_slots<C: Sink>(inspector: &Inspector<'_>, object: ObjectIndex, out: &mut Out<'_, C>)
    requires { IsObjectOf inspector.now object }
{
    let heap = inspector.live.graph.heap;
    let mut names = SlotNames::none(inspector.alloc);
    out.need(names.set_object(inspector, object));
    let count = slot_count(heap, object);
    let shown = out.shown_of(count);
    out.begin_list("slots");
    if shown > 0 {
        out.part("slots");
    }
    let mut was_traced = true;
    for place in 0..shown {
        let slot = slot_at(heap, object, place);
        let is_traced = !matches!(slot.facts.held, Held::Untraced);
        if was_traced && !is_traced {
            out.part("  not traced:");
        }
        was_traced = is_traced;
        print_slot(inspector, &names, slot, out);
    }
    out.rest(count as usize, "slot");
    out.end_list();
}

/// Adds the bytes of a byte object as text, in the text form of many only the first.
fn add_text<C: Sink>(inspector: &Inspector<'_>, object: ObjectIndex, out: &mut Out<'_, C>)
    requires { IsObjectOf inspector.now object }
{
    let (alloc, heap) = (inspector.alloc, inspector.live.graph.heap);
    let bytes = match first_bytes(alloc, heap.order(), &heap.object(object), usize::MAX) {
        Ok(Some(bytes)) => bytes,
        Ok(None) => return out.null("text"),
        Err(error) => return out.need(Err(error)),
    };
    let count = bytes.len();
    let shown = if out.is_cut() {
        count.min(MOST_BYTES)
    } else {
        count
    };
    out.text("text", escaped(alloc, &bytes[..shown]));
    out.part("text");
    out.part("  {text}");
    if shown < count {
        out.count("count", count);
        out.part(CUT_BYTES);
    }
}
