//! The rows about objects without names that retain more.

ghost use Rattle.std.specs.Prelude.{IfSome};
ghost use Rattle.sqz_image.specs.Objects.{object_count};
ghost use Rattle.sqz_facts.specs.FirstReferrers.{AreInside};
ghost use Rattle.sqz_look_view.specs.Inspectors.{IsObjectOf};

use sqz_alike::Holder;
use sqz_answers::bytes_or_none;
use sqz_facts::{FirstReferrers, Referrer};
use sqz_image::Sink;
use sqz_look_view::{Inspector, Out, SlotNames};
use std::alloc::AllocError;

/// Prints an object without a name that retains more, or is new, with the first references to it.
/// `names` are the names of the slots of any object.
pub(crate) fn print_holder<C: Sink>(
    inspector: &Inspector<'_>,
    names: &mut SlotNames,
    holder: Holder,
    first: FirstReferrers,
    out: &mut Out<'_, C>,
)
    requires holder { IsObjectOf inspector.now holder.object }
    requires first { AreInside (object_count inspector.now.live.graph.heap.now) first }
{
    out.word("kind", "holder");
    out.hex("address", inspector.address(holder.object).0);
    out.text("class", inspector.names.name_of_class_of(holder.object));
    out.amount_or_null("old", holder.old);
    out.amount("new", holder.new);
    if out.is_json() {
        out.begin_list("referrers");
        print_referrer(inspector, names, first.first, out);
        print_referrer(inspector, names, first.second, out);
        out.end_list();
    } else {
        out.difference("difference", bytes_or_none(holder.old), holder.new);
        out.truth("is_new", holder.old.is_none());
        out.text_or_null("first", referrer_text(inspector, names, first.first));
        out.text_or_null("second", referrer_text(inspector, names, first.second));
    }
    out.line("{difference:>11#byte}  {address} {class}{is_new/ (new)}{first/, in }{second/ and }");
}

/// Prints a slot that holds an object, if there is one.
fn print_referrer<C: Sink>(
    inspector: &Inspector<'_>,
    names: &mut SlotNames,
    referrer: Option<Referrer>,
    out: &mut Out<'_, C>,
)
    requires { IfSome referrer (λ referrer. IsObjectOf inspector.now referrer.object) }
{
    if let Some(referrer) = referrer {
        out.need(names.set_object(inspector, referrer.object));
        out.object(inspector, referrer.object);
        out.slot(names, referrer.slot);
        out.end_row();
    }
}

/// Returns a slot that holds an object as text, if there is one.
fn referrer_text(
    inspector: &Inspector<'_>,
    names: &mut SlotNames,
    referrer: Option<Referrer>,
) -> Result<Option<String>, AllocError>
    requires { IfSome referrer (λ referrer. IsObjectOf inspector.now referrer.object) }
{
    let Some(referrer) = referrer else {
        return Ok(None);
    };
    let object = referrer.object;
    names.set_object(inspector, object)?;
    let (slot, address) = (names.text(referrer.slot)?, inspector.address(object));
    let label = inspector.names.short_label(object)?;
    Ok(Some(format!(in inspector.alloc; "{slot} of {address} {label}")?))
}
