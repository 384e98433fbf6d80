//! The rows of a path.

ghost use Rattle.sqz_look_view.specs.Inspectors.{IsObjectOf};

use crate::{Inspector, Out, SlotNames};
use sqz_dominators::WhyStep;
use sqz_image::Sink;
use sqz_object::ObjectIndex;

/// Adds the first object of a path to a row, with the bytes that it retains. No slot leads to it.
pub fn add_first<C: Sink>(
    inspector: &Inspector<'_>,
    object: ObjectIndex,
    retained: u64,
    out: &mut Out<'_, C>,
)
    requires { IsObjectOf inspector.now object }
{
    out.object(inspector, object);
    out.no_slot();
    out.truth("weak", false);
    out.amount("retained", retained);
}

/// Adds the object of a step to a row, with the slot of its owner that leads to it. `names` are the
/// names of the slots of any object.
pub fn add_step<C: Sink>(
    inspector: &Inspector<'_>,
    names: &mut SlotNames,
    owner: ObjectIndex,
    step: WhyStep,
    is_weak: bool,
    out: &mut Out<'_, C>,
)
    requires owner { IsObjectOf inspector.now owner }
    requires object { IsObjectOf inspector.now step.object }
{
    out.need(names.set_object(inspector, owner));
    out.object(inspector, step.object);
    out.slot(names, step.slot);
    out.truth("weak", is_weak);
    out.amount("retained", step.retained);
}
