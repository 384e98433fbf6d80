//! The rows of a path.

ghost use Rattle.std.specs.Prelude.{All};
ghost use Rattle.sqz_image.specs.Objects.{object_count};
ghost use Rattle.sqz_look.specs.Paths.{IsInside};
ghost use Rattle.sqz_look_view.specs.Inspectors.{IsObjectOf};

use crate::paths::{PathStep, visible_steps};
use sqz_dominators::HoldingPath;
use sqz_image::Sink;
use sqz_look_view::{Inspector, Out, SlotNames, add_first, add_step};
use sqz_names::Label;
use sqz_object::ObjectIndex;
use std::alloc::AllocError;

/// A path with more rows than twice this is cut in the middle, in the text form.
const HALF: usize = 10;

/// The line of a step in the text form.
const STEP: &str = "  {slot:<*}  {address} {label:<24}  retains {retained:>9}{weak/ (weak)}";

/// Prints a path, and ends the row that it belongs to: a line for each step, or with the steps to a
/// variable taken as one unless `raw`. The text form has only the first and the last ones of a long
/// path.
pub(crate) fn print_path<C: Sink>(
    inspector: &Inspector<'_>,
    path: &HoldingPath,
    raw: bool,
    out: &mut Out<'_, C>,
) -> Result<(), AllocError>
    requires { All (λ step. IsObjectOf inspector.now step.object)
        path.now.steps.items }
{
    let steps = visible_steps(inspector, &path.steps, raw)?;
    out.begin_list("path");
    if out.is_json() {
        add_first(
            inspector,
            inspector.live.graph.heap.special(),
            path.live_bytes,
            out,
        );
        out.end_row();
    }
    print_steps(inspector, &steps, out)?;
    out.end_list();
    out.count("steps", path.steps.len());
    out.line(if steps.len() < path.steps.len() {
        "{steps#step}; --raw prints each"
    } else {
        "{steps#step}"
    });
    Ok(())
}

/// Prints the steps of a path; of a long one the text form has only the first and the last ones.
fn print_steps<C: Sink>(
    inspector: &Inspector<'_>,
    steps: &[PathStep],
    out: &mut Out<'_, C>,
) -> Result<(), AllocError>
    requires { All (IsInside (object_count inspector.now.live.graph.heap.now)) steps.now }
{
    let cut = cut_of(steps.len(), out.is_cut());
    let mut names = SlotNames::none(inspector.alloc);
    let width = slot_width(inspector, &mut names, steps, cut, out)?;
    for (index, step) in steps.iter().enumerate() {
        if cut > 0 && index == HALF {
            out.rest_after("  ", cut, "row");
        }
        if is_shown(index, cut) {
            print_step(inspector, &mut names, *step, width, out);
        }
    }
    Ok(())
}

/// Returns how many steps in the middle of a path have no row.
fn cut_of(steps: usize, is_cut: bool) -> usize {
    if is_cut && steps > 2 * HALF {
        steps - 2 * HALF
    } else {
        0
    }
}

/// Returns whether the step at an index has a row, if `cut` steps in the middle have none.
fn is_shown(index: usize, cut: usize) -> bool {
    index < HALF || index - HALF >= cut
}

/// Returns the width of the column of slots in the text form, in characters.
fn slot_width<C: Sink>(
    inspector: &Inspector<'_>,
    names: &mut SlotNames,
    steps: &[PathStep],
    cut: usize,
    out: &Out<'_, C>,
) -> Result<usize, AllocError>
    requires { All (IsInside (object_count inspector.now.live.graph.heap.now)) steps.now }
{
    let mut width = 0;
    if out.is_json() {
        return Ok(width);
    }
    for (index, step) in steps.iter().enumerate() {
        if is_shown(index, cut) {
            let text = slot_text(inspector, names, *step)?;
            width = width.max(text.chars().count());
        }
    }
    Ok(width)
}

/// Prints a step, with the slot in a column of a width. `names` are the names of the slots of any
/// object.
fn print_step<C: Sink>(
    inspector: &Inspector<'_>,
    names: &mut SlotNames,
    visible: PathStep,
    width: usize,
    out: &mut Out<'_, C>,
)
    requires owner { IsObjectOf inspector.now visible.owner }
    requires object { IsObjectOf inspector.now visible.step.object }
{
    add_step(
        inspector,
        names,
        visible.owner,
        visible.step,
        visible.is_weak,
        out,
    );
    if !out.is_json() {
        let slot = slot_text(inspector, names, visible);
        out.text("slot", slot);
    }
    out.line_in(STEP, width);
}

/// Returns what leads to the object of a step, as text: the slot, or the variable whose value it
/// is. `names` are the names of the slots of any object.
fn slot_text(
    inspector: &Inspector<'_>,
    names: &mut SlotNames,
    visible: PathStep,
) -> Result<String, AllocError>
    requires { IsObjectOf inspector.now visible.owner }
{
    if visible.is_variable {
        return variable_text(inspector, visible.owner);
    }
    names.set_object(inspector, visible.owner)?;
    names.text(visible.step.slot)
}

/// Returns the name of the variable whose association an object is.
fn variable_text(inspector: &Inspector<'_>, association: ObjectIndex) -> Result<String, AllocError>
    requires { IsObjectOf inspector.now association }
{
    if let Label::ClassVariable { key, .. } = inspector.names.label_of(association)? {
        let key = inspector.names.text(key)?;
        return format!(in inspector.alloc; "class variable {key}");
    }
    inspector.names.label(association)
}
