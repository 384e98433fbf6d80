//! What keeps an object.

ghost use Rattle.std.specs.Prelude.{◌≡◌, ◌<◌, ◌↔◌, ◌⊎◌, true, false, All, IfOk, IfNone, IfSome};
ghost use Rattle.sqz_image.specs.Objects.{object_count};
ghost use Rattle.sqz_trace.specs.declared.weak.Weak.TheVariants.{Clear};
ghost use Rattle.sqz_dominators.specs.Paths.{IsUnreachable};
ghost use Rattle.sqz_dominators.specs.Why.{AreStrong, IsHoldingPath, why_steps};

use crate::dominators::{Dominators, dominators_from};
use crate::path::{Step, path_in};
use crate::search::Search;
use crate::weakness::is_weak_slot;
use sqz_image::{Heap, Slot};
use sqz_object::ObjectIndex;
use sqz_trace::{ObjectGraph, Weak, reachable};
use std::alloc::{AllocError, Global};

/// A step of a path: along a slot of the object before, to the object that it points to.
#[derive(Clone, Copy, Debug, PartialEq, Eq)]
pub struct WhyStep {
    /// The slot, which belongs to the object before.
    pub slot: Slot,
    /// Whether the slot is weak.
    pub is_weak: bool,
    /// The index of the object that it points to.
    pub object: ObjectIndex,
    /// The bytes that this object retains.
    pub retained: u64,
}

/// A shortest path from the special objects array to an object.
#[derive(Drop)]
pub struct HoldingPath {
    /// The bytes that the special objects array retains: those of all live objects.
    pub live_bytes: u64,
    /// The bytes that the object retains.
    pub retained: u64,
    /// Whether each path to the object has a weak step.
    pub is_weakly_held: bool,
    /// The steps in order; the first goes along a slot of the special objects array.
    pub steps: Vec<WhyStep>,
}

/// Returns a shortest path to an object, with what the objects on it retain. None if the object is
/// not reachable.
pub fn why_kept(
    alloc: Global,
    graph: ObjectGraph<'_>,
    object: ObjectIndex,
) -> Result<Option<HoldingPath>, AllocError>
    ensures none { IfOk result (λ found. IfNone found
        (IsUnreachable graph.entry.heap.now graph.entry.weak object)) }
    ensures path { IfOk result (λ found. IfSome found
        (IsHoldingPath graph.entry.heap.now graph.entry.weak object)) }
    ensures inside { IfOk result (λ found. IfSome found (λ path. All (λ step.
        step.object < object_count graph.entry.heap.now) path.steps.items)) }
{
    let search = Search::whole(alloc, graph)?;
    let Some(path) = path_in(alloc, &search, object)? else {
        return Ok(None);
    };
    let heap = graph.heap;
    let special = heap.special();
    let dominators = dominators_from(alloc, search)?;
    let steps = steps_of(alloc, heap, &dominators, special, &path.steps)?;
    Ok(Some(HoldingPath {
        live_bytes: dominators.retained(special).bytes,
        retained: dominators.retained(object).bytes,
        is_weakly_held: is_weakly_held(alloc, graph, object, &steps)?,
        steps,
    }))
}

/// Returns whether each path to an object has a weak step. `steps` are those of a path to it; the
/// graph is marked only if one of them is weak.
fn is_weakly_held(
    alloc: Global,
    graph: ObjectGraph<'_>,
    object: ObjectIndex,
    steps: &[WhyStep],
) -> Result<bool, AllocError>
    ensures { IfOk result (λ weakly. ((weakly ≡ false) × AreStrong steps.now)
        ⊎ ((weakly ≡ true) ↔ IsUnreachable graph.entry.heap.now Clear object)) }
{
    if steps.iter().any(|step| step.is_weak) {
        Ok(!is_strongly_held(alloc, graph, object)?)
    } else {
        Ok(false)
    }
}

/// Returns whether a path without weak steps leads to an object.
fn is_strongly_held(
    alloc: Global,
    graph: ObjectGraph<'_>,
    object: ObjectIndex,
) -> Result<bool, AllocError>
    ensures { IfOk result (λ held.
        (held ≡ false) ↔ IsUnreachable graph.entry.heap.now Clear object) }
{
    let (heap, weak) = (graph.heap, Weak::Clear);
    let strongly = reachable(alloc, ObjectGraph { heap, weak })?;
    Ok(strongly.has(object))
}

/// Returns the steps of a path that starts at this object, with what each object retains.
fn steps_of(
    alloc: Global,
    heap: &Heap,
    dominators: &Dominators,
    start: ObjectIndex,
    steps: &[Step],
) -> Result<Vec<WhyStep>, AllocError>
    requires start { start < object_count heap.now }
    requires inside { All (λ step. step.object < object_count heap.now) steps.now }
    ensures steps { IfOk result (λ rows.
        rows.items ≡ why_steps heap.now dominators.now start steps.now) }
    ensures inside { IfOk result (λ rows.
        All (λ row. row.object < object_count heap.now) rows.items) }
{
    let mut owner = start;
    let mut rows = Vec::with_capacity(alloc, steps.len())?;
    for step in steps {
        rows.push(WhyStep {
            slot: step.slot,
            is_weak: is_weak_slot(heap, owner, step.slot),
            object: step.object,
            retained: dominators.retained(step.object).bytes,
        })?;
        owner = step.object;
    }
    Ok(rows)
}
