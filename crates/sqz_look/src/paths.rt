//! Which steps of a path are rows.

ghost use Rattle.std.specs.Prelude.{All, IfOk};
ghost use Rattle.sqz_image.specs.Objects.{object_count};
ghost use Rattle.sqz_look.specs.Paths.{IsInside};
ghost use Rattle.sqz_look_view.specs.Inspectors.{IsObjectOf};

use sqz_dominators::WhyStep;
use sqz_image::Slot;
use sqz_look_view::Inspector;
use sqz_names::Variable;
use sqz_names::fields::VALUE;
use sqz_object::ObjectIndex;
use std::alloc::AllocError;

/// A step of a path that is a row.
#[derive(Clone, Copy)]
pub(crate) struct PathStep {
    /// The object before the step.
    pub(crate) owner: ObjectIndex,
    pub(crate) step: WhyStep,
    /// Whether the owner is the association of a variable that has no row of its own.
    pub(crate) is_variable: bool,
    /// Whether the step is weak, or one of the steps before it that have no rows of their own.
    pub(crate) is_weak: bool,
}

/// Returns the steps of a path that are rows: each, or all but those to the associations of
/// variables and to the dictionaries that hold them unless `raw`.
pub(crate) fn visible_steps(
    inspector: &Inspector<'_>,
    steps: &[WhyStep],
    raw: bool,
) -> Result<Vec<PathStep>, AllocError>
    requires { All (λ step. IsObjectOf inspector.now step.object) steps.now }
    ensures { IfOk result (λ visible.
        All (IsInside (object_count inspector.now.live.graph.heap.now)) visible.items) }
{
    let hidden = hidden_steps(inspector, steps)?;
    let mut visible = Vec::new(inspector.alloc);
    let mut owner = inspector.live.graph.heap.special();
    let mut is_variable = false;
    let mut was_weak = false;
    for (index, step) in steps.iter().enumerate() {
        let is_hidden = !raw && hidden.get(index) == Some(&true);
        if !is_hidden {
            visible.push(PathStep {
                owner,
                step: *step,
                is_variable,
                is_weak: was_weak || step.is_weak,
            })?;
        }
        is_variable = is_hidden;
        was_weak = is_hidden && (was_weak || step.is_weak);
        owner = step.object;
    }
    Ok(visible)
}

/// Returns for each step of a path whether it only leads to the value of a global or of a class
/// variable: the step to the association, and the steps to the dictionary and its array before it.
fn hidden_steps(inspector: &Inspector<'_>, steps: &[WhyStep]) -> Result<Vec<bool>, AllocError>
    requires { All (λ step. IsObjectOf inspector.now step.object) steps.now }
{
    let mut hidden = vec![in inspector.alloc; false; steps.len()]?;
    for (index, step) in steps.iter().enumerate() {
        let Some(next) = index.checked_add(1).and_then(|next| steps.get(next)) else {
            continue;
        };
        if next.slot == Slot::Field(VALUE) {
            if let Some(variable) = inspector.names.variable(step.object)? {
                hide_variable(steps, index, variable, &mut hidden);
            }
        }
    }
    Ok(hidden)
}

/// Hides the step at an index, which leads to the association of a variable, and the steps to the
/// array and the dictionary that hold it.
fn hide_variable(steps: &[WhyStep], index: usize, variable: Variable, hidden: &mut [bool]) {
    hide(hidden, index);
    let dictionary = Some(variable.dictionary);
    let places = (index.checked_sub(1), index.checked_sub(2));
    if let (Some(at_array), Some(at_dictionary)) = places {
        if leads_to(steps, at_array, Some(variable.array))
            && leads_to(steps, at_dictionary, dictionary)
        {
            hide(hidden, at_array);
            hide(hidden, at_dictionary);
        }
    }
}

/// Returns whether the step at an index leads to an object.
fn leads_to(steps: &[WhyStep], index: usize, object: Option<ObjectIndex>) -> bool {
    steps.get(index).map(|step| step.object) == object
}

/// Hides the step at an index.
fn hide(hidden: &mut [bool], index: usize) {
    if let Some(is_hidden) = hidden.get_mut(index) {
        *is_hidden = true;
    }
}
