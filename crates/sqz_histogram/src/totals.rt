//! The class histogram: the totals of all groups, in order.

ghost use Rattle.std.specs.Prelude.{◌≡◌, length, map, IfOk};
ghost use Rattle.sqz_image.specs.Objects.{object_count};
ghost use Rattle.sqz_histogram.specs.Histogram.{IsHistogram};
ghost use Rattle.sqz_histogram.specs.Shares.{total_at};

use crate::classes::class_table;
use crate::entries::entries_of;
use crate::group::GroupTotal;
use crate::shares::{Share, shares_of};
use crate::tallies::tallies_of;
use sqz_image::Heap;
use sqz_trace::{Marks, ObjectGraph};
use std::alloc::{AllocError, Global};
use std::thread::Threads;

/// Returns the class histogram of the marked objects: one total for each class with a marked
/// object, and one for each compact index of marked objects without a class. Any objects may be
/// marked; the class of a marked object need not be. Totals with more bytes come first; on a tie,
/// classes come by their addresses in this image, and then compact indexes. Several threads look
/// up the classes.
pub fn histogram(
    rt: &(impl Threads + Sync),
    alloc: Global,
    graph: ObjectGraph<'_>,
    marks: &Marks,
) -> Result<Vec<GroupTotal>, AllocError>
    requires { length marks.now ≡ object_count graph.heap.now }
    ensures { IfOk result (λ totals.
        IsHistogram graph.entry.heap.now graph.entry.weak marks.now totals.items) }
{
    let heap = graph.heap;
    let classes = class_table(alloc, graph)?;
    let entries = entries_of(rt, alloc, heap, marks, &classes)?;
    let tallies = tallies_of(alloc, heap, marks, &entries)?;
    let shares = shares_of(alloc, &tallies)?;
    heap.data(); // every chunk is well-formed, so addresses rise with the indexes of objects
    totals_of(alloc, heap, &shares)
}

/// Returns the totals of the groups that have these shares, in the same order.
fn totals_of(alloc: Global, heap: &Heap, shares: &[Share]) -> Result<Vec<GroupTotal>, AllocError>
    ensures { IfOk result (λ totals. totals.items
        ≡ map (total_at (object_count heap.now)) shares.now) }
{
    let mut totals = Vec::with_capacity(alloc, shares.len())?;
    for share in shares {
        totals.push(share.total(heap.len()))?;
    }
    Ok(totals)
}
