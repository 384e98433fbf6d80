//! Slots that point to objects, as text.

ghost use Rattle.sqz_look_view.specs.Inspectors.{IsObjectOf};

use sqz_facts::Referrer;
use sqz_look_view::{Inspector, SlotNames};
use sqz_names::Label;
use sqz_object::ObjectIndex;
use std::alloc::AllocError;

/// Returns an object and its slot as text.
pub(crate) fn referrer_text(
    inspector: &Inspector<'_>,
    referrer: Referrer,
) -> Result<String, AllocError>
    requires { IsObjectOf inspector.now referrer.object }
{
    let object = referrer.object;
    let label = owner_text(inspector, object)?;
    let slot = SlotNames::of(inspector, object)?.text(referrer.slot)?;
    format!(in inspector.alloc; "{label}, {slot}")
}

/// Returns the label of an object. If that has no name, it is its class, with its address.
fn owner_text(inspector: &Inspector<'_>, object: ObjectIndex) -> Result<String, AllocError>
    requires { IsObjectOf inspector.now object }
{
    if inspector.names.label_of(object)? != Label::Other {
        return inspector.names.label(object);
    }
    let label = inspector.names.short_label(object)?;
    let address = inspector.address(object);
    format!(in inspector.alloc; "{label} {address}")
}
