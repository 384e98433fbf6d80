//! The slots of an object, and what they hold.

ghost use Rattle.std.specs.Prelude.{◌<◌};
ghost use Rattle.sqz_image.specs.Objects.{object_count};
ghost use Rattle.sqz_facts.specs.Held.{PointsBelow};

use sqz_answers::ShownSlot;
use sqz_facts::{Held, SlotFacts};
use sqz_image::Sink;
use sqz_look_view::{Inspector, Out, SlotNames};

/// Adds a slot of the object whose slots these names are of, and what it holds: a SmallInteger, or
/// a word.
pub(crate) fn add_slot<C: Sink>(names: &SlotNames, shown: ShownSlot, out: &mut Out<'_, C>) {
    out.slot(names, shown.slot);
    out.word("kind", kind_of(shown.facts.held));
    add_value(shown.facts, out);
}

/// Prints a slot of the object whose slots these names are of, and what it holds.
pub(crate) fn print_slot<C: Sink>(
    inspector: &Inspector<'_>,
    names: &SlotNames,
    shown: ShownSlot,
    out: &mut Out<'_, C>,
)
    requires { PointsBelow (object_count inspector.now.live.graph.heap.now) shown.facts.held }
{
    add_slot(names, shown, out);
    match shown.facts.held {
        Held::Pointer(target) | Held::Weak(target) => out.label("label", inspector, target),
        Held::Integer(_) | Held::Untraced | Held::Bad => out.null("label"),
    }
    out.line(match shown.facts.held {
        Held::Weak(_) => "  {slot:<26}  {value}{label/ } (weak)",
        Held::Bad => "  {slot:<26}  {value} (no object)",
        Held::Integer(_) | Held::Pointer(_) | Held::Untraced => "  {slot:<26}  {value}{label/ }",
    });
}

/// Returns what the word of a slot is, in a word.
fn kind_of(held: Held) -> &'static str {
    match held {
        Held::Integer(_) => "integer",
        Held::Pointer(_) => "pointer",
        Held::Weak(_) => "weak",
        Held::Untraced => "untraced",
        Held::Bad => "bad",
    }
}

/// Adds what a slot holds.
fn add_value<C: Sink>(facts: SlotFacts, out: &mut Out<'_, C>) {
    match facts.held {
        Held::Integer(number) => out.integer("value", i64::from(number)),
        _ => out.hex("value", facts.word),
    }
}
