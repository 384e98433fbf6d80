//! What points to an object.

ghost use Rattle.sqz_look_view.specs.Inspectors.{IsObjectOf};

use sqz_answers::{Reference, references_to};
use sqz_image::Sink;
use sqz_look_view::{Inspector, Out, PrintError, SlotNames};
use sqz_object::ObjectIndex;

/// Prints the references that live objects hold to an object, in address order.
pub fn print_refs<C: Sink>(
    inspector: &Inspector<'_>,
    object: ObjectIndex,
    out: &mut Out<'_, C>,
) -> Result<(), PrintError>
    requires { IsObjectOf inspector.now object }
{
    let references = references_to(inspector.alloc, &inspector.live, object)?;
    let references = references.as_slice();
    print_head(inspector, object, references.len(), out);
    let mut names = SlotNames::none(inspector.alloc);
    for reference in &references[..out.shown(references.len())] {
        print_reference(inspector, object, &mut names, *reference, out);
    }
    out.rest(references.len(), "reference");
    out.end()
}

/// Prints the first line of the text form.
fn print_head<C: Sink>(
    inspector: &Inspector<'_>,
    object: ObjectIndex,
    references: usize,
    out: &mut Out<'_, C>,
)
    requires { IsObjectOf inspector.now object }
{
    if !out.is_json() {
        out.label("label", inspector, object);
        out.hex("address", inspector.address(object).0);
        out.count("references", references);
        out.heading("{label} {address}, {references#reference}");
    }
}

/// Prints a reference to an object. `names` are the names of the slots of any object.
fn print_reference<C: Sink>(
    inspector: &Inspector<'_>,
    target: ObjectIndex,
    names: &mut SlotNames,
    reference: Reference,
    out: &mut Out<'_, C>,
)
    requires target { IsObjectOf inspector.now target }
    requires reference { IsObjectOf inspector.now reference.object }
{
    out.need(names.set_object(inspector, reference.object));
    out.hex("to", inspector.address(target).0);
    out.object(inspector, reference.object);
    out.slot(names, reference.slot);
    out.truth("weak", reference.is_weak);
    out.line("  {slot:<26}  {address} {label}{weak/ (weak)}");
}
