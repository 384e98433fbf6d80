//! Marking in one thread: the objects to which a path leads from the special objects array.

ghost use Rattle.std.specs.Prelude.{◌≡◌, ◌<◌, length, IfOk, IfErr, None, OnOk, Some, true};
ghost use Rattle.std.specs.Bool.{OnTrue};
ghost use Rattle.sqz_image.specs.declared.fault.Fault.TheVariants.{OutOfMemory};
ghost use Rattle.sqz_image.specs.Objects.{object_count};
ghost use Rattle.sqz_trace.specs.Avoiding.{IsReachabilityWithout, Outside};
ghost use Rattle.sqz_trace.specs.Edges.{strong_slots, edge_target, IsTargetAmong};
ghost use Rattle.sqz_trace.specs.Faults.{first_fault};
ghost use Rattle.sqz_trace.specs.Reachability.{IsReachability};
ghost use Rattle.sqz_trace.specs.Marking.{MarksTargets};
ghost use Rattle.sqz_trace.specs.Shades.{marks_of};
ghost use Rattle.sqz_trace.specs.Soundness.{IsGood, is_good_slot};

use crate::avoided::{Avoided, Nothing};
use crate::marks::{Marks, has_mark};
use crate::object_graph::ObjectGraph;
use crate::out_edges::OutEdges;
use crate::shades::{Shade, first_shades};
use crate::weak::Weak;
use sqz_image::{Fault, Heap, Slot};
use sqz_object::ObjectIndex;
use std::alloc::{AllocError, Global};

/// The marks of objects that were reached, and whether all of these are known to be sound.
#[derive(Drop)]
pub(crate) struct Marking {
    /// One mark per object.
    pub(crate) marks: Marks,
    /// Whether marking saw that no marked object has a defect. Where weak slots are cleared it does
    /// not look for any.
    pub(crate) is_sound: bool,
}

/// Returns the reachable objects of a heap: one mark per object. It runs in one thread and needs
/// no mark table; a run marks with workers instead. Fails only if out of memory.
pub fn mark_plain(alloc: Global, heap: &Heap, weak: Weak) -> Result<Marks, Fault>
    ensures reachable { IfOk result (λ marks. IsReachability heap.now weak marks) }
    ensures refused { IfErr result (λ fault. fault ≡ OutOfMemory) }
{
    let marks = reachable(alloc, ObjectGraph { heap, weak })?;
    Ok(marks)
}

/// Returns the reachable objects of a heap: one mark per object. It runs in one thread, as
/// `mark_plain` does.
pub fn reachable(alloc: Global, graph: ObjectGraph<'_>) -> Result<Marks, AllocError>
    ensures { IfOk result (λ marks. IsReachability graph.entry.heap.now graph.entry.weak marks) }
{
    Ok(mark_reachable(alloc, graph)?.marks)
}

/// Returns the reachable objects of a heap, as `reachable` does, and whether they are known to be
/// sound.
pub(crate) fn mark_reachable(alloc: Global, graph: ObjectGraph<'_>) -> Result<Marking, AllocError>
    ensures marks { IfOk result (λ marking.
        IsReachability graph.entry.heap.now graph.entry.weak marking.marks) }
    ensures sound { IfOk result (λ marking. OnTrue marking.is_sound
        (first_fault graph.entry.heap.now graph.entry.weak marking.marks ≡ None)) }
{
    mark_without(alloc, graph, &Nothing)
}

/// Returns the objects that a path reaches which goes through no object of a set: one mark per
/// object. The special objects array is on every path, and the object itself on each path to it,
/// so no object of the set is marked, and none at all if the set has the special objects array.
///
/// What is reachable, and not reachable without a set, is what the set retains.
pub fn reachable_without(
    alloc: Global,
    graph: ObjectGraph<'_>,
    set: &Marks,
) -> Result<Marks, AllocError>
    ensures { IfOk result (λ marks.
        IsReachabilityWithout graph.entry.heap.now graph.entry.weak set.now marks) }
{
    Ok(mark_without(alloc, graph, set)?.marks)
}

/// Returns the objects that a path reaches which goes through none of the avoided objects, and
/// whether they are known to be sound.
fn mark_without<A: Avoided>(
    alloc: Global,
    graph: ObjectGraph<'_>,
    avoided: &A,
) -> Result<Marking, AllocError>
    ensures marks { IfOk result (λ marking. IsReachabilityWithout graph.entry.heap.now
        graph.entry.weak (A.set avoided.now) marking.marks) }
    ensures sound { IfOk result (λ marking. OnTrue marking.is_sound
        (first_fault graph.entry.heap.now graph.entry.weak marking.marks ≡ None)) }
{
    let special = graph.heap.special();
    if avoided.contains(special) {
        let marks = Marks::listed(alloc, graph.heap, &[])?;
        let is_sound = false;
        return Ok(Marking { marks, is_sound });
    }
    let mut shades = first_shades(alloc, graph.heap)?;
    let mut worklist = Vec::new(alloc);
    worklist.push(special)?;
    let mut is_sound = matches!(graph.weak, Weak::Keep);
    while let Some(object) = worklist.pop() {
        let edges = graph.edges(object);
        is_sound &= mark_targets(&edges, avoided, &mut shades, &mut worklist)?;
    }
    let marks = Marks::new(shades);
    Ok(Marking { marks, is_sound })
}

/// Marks the objects that the strong slots of an object point to, but for the avoided ones, and
/// adds those that had no mark to the worklist. Returns whether the object is well formed and these
/// slots are good.
fn mark_targets<A: Avoided>(
    edges: &OutEdges<'_>,
    avoided: &A,
    shades: &mut [Shade],
    worklist: &mut Vec<ObjectIndex>,
) -> Result<bool, AllocError>
    requires { length shades.old ≡ object_count edges.now.memory }
    ensures marks { OnOk result (MarksTargets
        (Outside (A.set avoided.now) (IsTargetAmong edges.now (strong_slots edges.now)))
        (marks_of shades.old) worklist.old.items (marks_of shades.new) worklist.new.items) }
    ensures good { IfOk result (λ is_good.
        OnTrue is_good (IsGood edges.now (strong_slots edges.now))) }
{
    let mut is_good = edges.is_well_formed();
    for slot in edges.slots() {
        is_good &= mark_target(edges, slot, avoided, shades, worklist)?;
    }
    Ok(is_good)
}

/// Marks the object that a strong slot points to, unless it is avoided, and adds it to the
/// worklist if it had no mark. Returns whether the slot is good.
fn mark_target<A: Avoided>(
    edges: &OutEdges<'_>,
    slot: Slot,
    avoided: &A,
    shades: &mut [Shade],
    worklist: &mut Vec<ObjectIndex>,
) -> Result<bool, AllocError>
    requires { length shades.old ≡ object_count edges.now.memory }
    ensures marks { OnOk result (MarksTargets
        (Outside (A.set avoided.now) (λ index. edge_target edges.now slot ≡ Some index))
        (marks_of shades.old) worklist.old.items (marks_of shades.new) worklist.new.items) }
    ensures good { IfOk result (λ is_good. is_good ≡ is_good_slot edges.now slot) }
{
    let Some(found) = edges.target(slot) else {
        return Ok(edges.is_good(slot));
    };
    if !has_mark(shades[found as usize]) && !avoided.contains(found) {
        worklist.push(found)?;
        shades[found as usize] = Shade::Grey;
    }
    Ok(true)
}
