//! Which objects a page shows.

ghost use Rattle.std.specs.Prelude.{◌≡◌, ◌<◌, All, IfOk};
ghost use Rattle.sqz_image.specs.Objects.{object_count};
ghost use Rattle.sqz_look_explore.specs.Shown.{is_shown, shown_objects};

use sqz_dominators::Dominators;
use sqz_object::ObjectIndex;
use sqz_trace::{Live, Marks};
use std::alloc::{AllocError, Global};

/// Returns the live objects that retain at least `least` bytes, each once, by address.
pub(crate) fn shown_objects(
    alloc: Global,
    live: &Live<'_>,
    dominators: &Dominators,
    least: u64,
) -> Result<Vec<ObjectIndex>, AllocError>
    ensures shown { IfOk result (λ shown. shown.items ≡ shown_objects live.now.graph.heap.now
        live.now.marks dominators.now least) }
    ensures inside { IfOk result (λ shown.
        All (λ object. object < object_count live.now.graph.heap.now) shown.items) }
{
    let mut shown = Vec::new(alloc);
    for object in 0..live.graph.heap.len() {
        if is_shown(&live.marks, dominators, least, object) {
            shown.push(object)?;
        }
    }
    Ok(shown)
}

/// Returns whether an object is live and retains at least `least` bytes.
fn is_shown(marks: &Marks, dominators: &Dominators, least: u64, object: ObjectIndex) -> bool
    ensures { result ≡ is_shown marks.now dominators.now least object }
{
    marks.has(object) && least <= dominators.retained(object).bytes
}
