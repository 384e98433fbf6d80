//! The line of the file.

ghost use Rattle.std.specs.Prelude.{All};
ghost use Rattle.sqz_look_view.specs.Inspectors.{IsObjectOf};

use crate::explore::FileNotes;
use crate::page_out::PageOut;
use crate::places::place_of;
use sqz_facts::{FileFacts, file_facts};
use sqz_image::Slot;
use sqz_look_view::{Hex, Inspector, SlotNames};
use sqz_object::{ObjectIndex, Order};
use sqz_trace::Weak;

/// Adds the line of the file of an image, whose page shows these objects: those that retain at
/// least `least` bytes.
pub(crate) fn add_head(
    inspector: &Inspector<'_>,
    notes: &FileNotes<'_>,
    least: u64,
    shown: &[ObjectIndex],
    page: &mut PageOut,
)
    requires { All (λ object. IsObjectOf inspector.now object) shown.now }
{
    let facts = file_facts(inspector.image, &inspector.live.marks);
    page.begin("image");
    page.open('{');
    page.name("image");
    page.text(notes.path);
    page.name("order");
    page.text(match facts.order {
        Order::Little => "little-endian",
        Order::Big => "big-endian",
    });
    page.name("base");
    page.made(Hex(facts.base).to_string(inspector.alloc));
    page.name("special");
    page.number(place_of(inspector, inspector.live.graph.heap.special()));
    page.name("weak_cleared");
    page.truth(matches!(inspector.live.graph.weak, Weak::Clear));
    add_sums(facts, page);
    page.name("min");
    page.size(least);
    page.name("left_out");
    page.size(u64::from(facts.live_objects).saturating_sub(shown.len() as u64));
    page.name("left_out_bytes");
    page.size(facts.live_bytes.saturating_sub(bytes_of(inspector, shown)));
    page.name("fault");
    add_note(notes.fault, page);
    page.name("skipped");
    add_note(notes.skipped, page);
    page.name("special_names");
    add_special_names(inspector, page);
}

/// Adds how many objects and bytes a file has.
fn add_sums(facts: FileFacts, page: &mut PageOut) {
    page.name("data_bytes");
    page.size(facts.data_bytes);
    page.name("objects");
    page.number(i64::from(facts.objects));
    page.name("live_objects");
    page.number(i64::from(facts.live_objects));
    page.name("live_bytes");
    page.size(facts.live_bytes);
    page.name("dead_bytes");
    page.size(facts.dead_bytes);
    page.name("free_chunks");
    page.number(i64::from(facts.free_chunks));
    page.name("free_bytes");
    page.size(facts.free_bytes);
}

/// Returns the bytes of objects.
fn bytes_of(inspector: &Inspector<'_>, objects: &[ObjectIndex]) -> u64
    requires { All (λ object. IsObjectOf inspector.now object)
        objects.now }
{
    let mut bytes = 0u64;
    for object in objects {
        bytes = bytes.saturating_add(inspector.bytes(*object));
    }
    bytes
}

/// Adds a text, if there is one.
fn add_note(note: Option<&str>, page: &mut PageOut) {
    match note {
        Some(note) => page.text(note),
        None => page.nothing(),
    }
}

/// Adds the names of the fields of the special objects array.
fn add_special_names(inspector: &Inspector<'_>, page: &mut PageOut) {
    let heap = inspector.live.graph.heap;
    page.open('[');
    match SlotNames::of(inspector, heap.special()) {
        Ok(names) => {
            for field in 0..heap.fields(heap.special()) {
                page.made_if_any(names.name(Slot::Field(field)));
            }
        }
        Err(error) => page.need(Err(error)),
    }
    page.close(']');
}
