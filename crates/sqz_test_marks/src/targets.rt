//! All objects that the strong slots of an object point to are claimed.

ghost use Rattle.std.specs.Prelude.{◌≡◌, ◌<◌, OnOk, Some};
ghost use Rattle.sqz_image.specs.Objects.{object_count};
ghost use Rattle.sqz_trace.specs.Edges.{edge_target, HasEdge};
ghost use Rattle.sqz_marks.specs.Core.{HasSeen};
ghost use Rattle.sqz_marks.specs.Table.{IsPassOf, AreEdgesOfSeen};
ghost use Rattle.sqz_test_marks.specs.Passes.{ClaimsTargets, KeepsSeenIn};

use sqz_image::Slot;
use sqz_marks::{Claim, MarkTable, Pass};
use sqz_trace::OutEdges;
use std::alloc::AllocError;

/// Claims the object that a strong slot points to. If the pass won it, it is counted and added to a
/// list.
fn claim_target(
    table: &MarkTable<'_>,
    pass: &mut Pass,
    edges: &OutEdges<'_>,
    slot: Slot,
    won: &mut Vec<u32>,
) -> Result<(), AllocError>
    requires of { IsPassOf table.now pass.old }
    requires seen { AreEdgesOfSeen table.now.heap.memory table.now.weak pass.old.view edges.now }
    ensures claims { OnOk result (ClaimsTargets (λ object. edge_target edges.now slot ≡ Some object)
        pass.old pass.new) }
    ensures listed { OnOk result (KeepsSeenIn (object_count table.now.heap.memory) pass.old pass.new
        won.old.items won.new.items) }
{
    if let Claim::Won(found) = table.claim_of(pass, edges, slot) {
        table.count(pass, found);
        won.push(found)?;
    }
    Ok(())
}

/// Claims all objects that strong slots of an object point to, counts those that the pass won and
/// adds them to a list, and makes the object black.
pub(crate) fn mark_targets(
    table: &MarkTable<'_>,
    pass: &mut Pass,
    object: u32,
    won: &mut Vec<u32>,
) -> Result<(), AllocError>
    requires of { IsPassOf table.now pass.old }
    requires inside { object < object_count table.now.heap.memory }
    requires seen { HasSeen pass.old.view object }
    ensures claims { OnOk result (ClaimsTargets (HasEdge table.now.heap.memory table.now.weak object)
        pass.old pass.new) }
    ensures listed { OnOk result (KeepsSeenIn (object_count table.now.heap.memory) pass.old pass.new
        won.old.items won.new.items) }
{
    let edges = table.edges(object);
    for slot in edges.slots() {
        claim_target(table, pass, &edges, slot, won)?;
    }
    table.blacken(pass, object);
    Ok(())
}
