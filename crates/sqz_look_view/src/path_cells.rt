//! A path in a row about something else.

ghost use Rattle.std.specs.Prelude.{All};
ghost use Rattle.sqz_look_view.specs.Inspectors.{IsObjectOf};

use crate::step_rows::{add_first, add_step};
use crate::{Inspector, Out, SlotNames};
use sqz_dominators::{HoldingPath, WhyStep, why_kept};
use sqz_image::Sink;
use sqz_object::ObjectIndex;
use std::alloc::AllocError;

/// A path with more steps than twice this is cut in the middle, as text.
const HALF: usize = 10;

/// Adds a shortest path from the special objects array to an object: to JSON the rows of its
/// objects, and as text one line. Null if the object is not live.
pub fn add_path<C: Sink>(
    inspector: &Inspector<'_>,
    name: &'static str,
    object: ObjectIndex,
    out: &mut Out<'_, C>,
) -> Result<(), AllocError>
    requires { IsObjectOf inspector.now object }
{
    match why_kept(inspector.alloc, inspector.live.graph, object)? {
        Some(path) if out.is_json() => print_rows(inspector, name, &path, out),
        Some(path) => out.text(name, path_text(inspector, &path.steps)),
        None => out.null(name),
    }
    Ok(())
}

/// Prints the special objects array, and the object of each step.
fn print_rows<C: Sink>(
    inspector: &Inspector<'_>,
    name: &'static str,
    path: &HoldingPath,
    out: &mut Out<'_, C>,
)
    requires { All (λ step. IsObjectOf inspector.now step.object)
        path.now.steps.items }
{
    let mut owner = inspector.live.graph.heap.special();
    let mut names = SlotNames::none(inspector.alloc);
    out.begin_list(name);
    add_first(inspector, owner, path.live_bytes, out);
    out.end_row();
    for step in &path.steps {
        add_step(inspector, &mut names, owner, *step, step.is_weak, out);
        out.end_row();
        owner = step.object;
    }
    out.end_list();
}

/// Returns a path as text: each slot with the object that it points to.
fn path_text(inspector: &Inspector<'_>, steps: &[WhyStep]) -> Result<String, AllocError>
    requires { All (λ step. IsObjectOf inspector.now step.object) steps.now }
{
    let cut = if steps.len() > 2 * HALF {
        steps.len() - 2 * HALF
    } else {
        0
    };
    let mut owner = inspector.live.graph.heap.special();
    let mut names = SlotNames::none(inspector.alloc);
    let mut text = String::from_str(inspector.alloc, "special objects array")?;
    for (index, step) in steps.iter().enumerate() {
        if cut > 0 && index == HALF {
            text.push_str(format!(in inspector.alloc; " > .. {cut} more ..")?.as_str())?;
        }
        if index < HALF || index - HALF >= cut {
            let step_text = step_text(inspector, &mut names, owner, *step)?;
            text.push_str(step_text.as_str())?;
        }
        owner = step.object;
    }
    Ok(text)
}

/// Returns a step as text. `names` are the names of the slots of any object.
fn step_text(
    inspector: &Inspector<'_>,
    names: &mut SlotNames,
    owner: ObjectIndex,
    step: WhyStep,
) -> Result<String, AllocError>
    requires owner { IsObjectOf inspector.now owner }
    requires object { IsObjectOf inspector.now step.object }
{
    names.set_object(inspector, owner)?;
    let (slot, address) = (names.text(step.slot)?, inspector.address(step.object));
    let label = inspector.names.short_label(step.object)?;
    format!(in inspector.alloc; " > {slot} {address} {label}")
}
