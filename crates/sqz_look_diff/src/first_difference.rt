//! The first objects that differ.

ghost use Rattle.sqz_look_view.specs.Inspectors.{IsObjectOf};

use crate::changed::Changed;
use crate::compared::Compared;
use sqz_alike::Pair;
use sqz_image::Sink;
use sqz_look_view::{Inspector, Out, SlotNames, add_path};
use sqz_object::ObjectIndex;
use std::alloc::AllocError;

/// Prints the first objects that differ, with a shortest path to each: partners that differ in what
/// no other row is about, and else two objects that would have to correspond.
pub(crate) fn print_first_difference<C: Sink>(
    compared: Compared<'_>,
    pair: Pair,
    out: &mut Out<'_, C>,
) -> Result<(), AllocError>
    requires old { IsObjectOf compared.old.now pair.old }
    requires new { IsObjectOf compared.new.now pair.new }
{
    let mut names = SlotNames::none(compared.old.alloc);
    match compared.changes.quiet.first() {
        Some(change) => {
            let changed = Changed::of(compared, &mut names, change, out.is_json())?;
            print_pair(
                compared,
                compared.pair(change.first.pair),
                Some(&changed),
                out,
            )
        }
        None => print_pair(compared, pair, None, out),
    }
}

/// Prints two objects that differ, and what is printed of their owner.
fn print_pair<C: Sink>(
    compared: Compared<'_>,
    pair: Pair,
    changed: Option<&Changed>,
    out: &mut Out<'_, C>,
) -> Result<(), AllocError>
    requires old { IsObjectOf compared.old.now pair.old }
    requires new { IsObjectOf compared.new.now pair.new }
{
    out.word("kind", "object");
    out.word_or_null("name", changed.map(|changed| changed.name.as_str()));
    match changed {
        Some(changed) => changed.add_path(out),
        None => out.texts("slots", &[]),
    }
    add_object(compared.old, "old", pair.old, out)?;
    add_object(compared.new, "new", pair.new, out)?;
    out.part("first difference: {old} -> {new}");
    match changed {
        Some(changed) => {
            changed.add_values("old_value", "new_value", out);
            out.part("  {name}{path/ }: {old_value} -> {new_value}{more/, and }");
        }
        None => {
            out.null("old_value");
            out.null("new_value");
            out.null("differences");
        }
    }
    if !out.is_json() {
        add_path(compared.old, "old", pair.old, out)?;
        add_path(compared.new, "new", pair.new, out)?;
    }
    out.part_if("old", "  old: {old}");
    out.part_if("new", "  new: {new}");
    out.end_row();
    Ok(())
}

/// Adds an object of one of the images: to JSON with a shortest path to it.
fn add_object<C: Sink>(
    inspector: &Inspector<'_>,
    name: &'static str,
    object: ObjectIndex,
    out: &mut Out<'_, C>,
) -> Result<(), AllocError>
    requires { IsObjectOf inspector.now object }
{
    if !out.is_json() {
        out.text(name, object_text(inspector, object));
        return Ok(());
    }
    out.begin_object(name);
    out.object(inspector, object);
    add_path(inspector, "path", object, out)?;
    out.end_object();
    Ok(())
}

/// Returns an object as text: its address and its label.
fn object_text(inspector: &Inspector<'_>, object: ObjectIndex) -> Result<String, AllocError>
    requires { IsObjectOf inspector.now object }
{
    let (address, label) = (
        inspector.address(object),
        inspector.names.short_label(object)?,
    );
    format!(in inspector.alloc; "{address} {label}")
}
