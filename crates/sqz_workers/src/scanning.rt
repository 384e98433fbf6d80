//! The scan of a grey object.

ghost use Rattle.std.specs.Prelude.{◌≡◌, ◌+◌, ◌<◌, ◌≤◌, ◌^◌, IsSome, IsNone, unwrap_or};
ghost use Rattle.sqz_image.specs.Objects.{object_count};
ghost use Rattle.sqz_trace.specs.Edges.{edge_target};
ghost use Rattle.sqz_marks.specs.Core.{HasSeen, HasBlackened};
ghost use Rattle.sqz_marks.specs.Table.{IsPassOf, AreEdgesOfSeen};
ghost use Rattle.sqz_workers.specs.Gains.{HasGained, HasSeenTarget, HasBlackenedMore, IsPassedBy};

use crate::worklist::Worklist;
use sqz_image::Slot;
use sqz_marks::{Claim, MarkTable, Pass};
use sqz_object::ObjectIndex;
use sqz_trace::{OutEdges, Shade};

/// Scans an object if it is grey. Returns the number of objects that were won, or None if it is
/// not grey or the heap has no object with this index.
pub(crate) fn scan_if_grey<L: Worklist>(
    table: &MarkTable<'_>,
    pass: &mut Pass,
    worklist: &mut L,
    object: ObjectIndex,
) -> Option<u32>
    requires of { IsPassOf table.now pass.old }
    ensures gained { HasGained pass.old pass.new (unwrap_or result 0) }
    ensures few { unwrap_or result 0 ≤ 2 ^ 30 }
    ensures more { IsSome result →
        HasBlackenedMore (object_count table.now.heap.memory) pass.old.view pass.new.view }
    ensures passed { IsNone result → object < object_count table.now.heap.memory →
        IsPassedBy object pass.old.view pass.new.view }
    ensures room { L.room worklist.new ≡ L.room worklist.old }
{
    if object >= table.heap().len() {
        return None;
    }
    match table.look(pass, object) {
        Shade::Grey => Some(scan_object(table, pass, worklist, object)),
        Shade::White | Shade::Black => None,
    }
}

/// Scans a grey object: claims what each of its strong slots points to, counts the objects that
/// were won and puts them into the worklist, and makes the object black. Returns the number of
/// objects that were won.
fn scan_object<L: Worklist>(
    table: &MarkTable<'_>,
    pass: &mut Pass,
    worklist: &mut L,
    object: ObjectIndex,
) -> u32
    requires of { IsPassOf table.now pass.old }
    requires inside { object < object_count table.now.heap.memory }
    requires seen { HasSeen pass.old.view object }
    ensures gained { HasGained pass.old pass.new result }
    ensures few { result ≤ 2 ^ 30 }
    ensures black { HasBlackened pass.new.view object }
    ensures room { L.room worklist.new ≡ L.room worklist.old }
{
    let edges = table.edges(object);
    edges.slot_bounds(); // at most 2^30 slots
    let mut won = 0;
    for slot in edges.slots() {
        won += claim_slot(table, pass, worklist, &edges, slot);
    }
    table.blacken(pass, object);
    won
}

/// Claims what a strong slot points to; if it was won, counts it and puts it into the worklist.
/// Returns the number of objects that were won: 0 or 1.
fn claim_slot<L: Worklist>(
    table: &MarkTable<'_>,
    pass: &mut Pass,
    worklist: &mut L,
    edges: &OutEdges<'_>,
    slot: Slot,
) -> u32
    requires of { IsPassOf table.now pass.old }
    requires seen { AreEdgesOfSeen table.now.heap.memory table.now.weak pass.old.view edges.now }
    ensures gained { HasGained pass.old pass.new result }
    ensures one { result ≤ 1 }
    ensures seen { HasSeenTarget (edge_target edges.now slot) pass.new.view }
    ensures room { L.room worklist.new ≡ L.room worklist.old }
{
    match table.claim_of(pass, edges, slot) {
        Claim::Won(object) => {
            table.count(pass, object);
            worklist.put(object);
            1
        }
        Claim::Seen(_) | Claim::Nothing => 0,
    }
}
