//! Class histograms with what the instances of each class retain.

ghost use Rattle.std.specs.Prelude.{◌≡◌, ◌<◌, ◌^◌, All, IfOk, OnOk, length, map};
ghost use Rattle.std.specs.List.Sorted.{IsPermutation, IsSortedBy, IsStableBy};
ghost use Rattle.sqz_image.specs.Objects.{object_count};
ghost use Rattle.sqz_histogram.specs.Groups.{IsInside};
ghost use Rattle.sqz_histogram.specs.Keys.{key_count};
ghost use Rattle.sqz_answers.specs.RetainedHistograms.{IsRetainedHistogram, group_retains_more};
ghost use Rattle.sqz_answers.specs.RetainedHistograms.{retained_total};

use crate::group_keys::key_of;
use crate::histograms::live_histogram;
use crate::together::retained_by_groups;
use sqz_histogram::GroupTotal;
use sqz_image::Heap;
use sqz_image::laws::heap_bounds;
use sqz_trace::Live;
use std::alloc::{AllocError, Global};
use std::cmp::Reverse;
use std::thread::Threads;

/// The total of a group, and what its objects retain.
#[derive(Clone, Copy, Debug, PartialEq, Eq)]
pub struct RetainedTotal {
    pub total: GroupTotal,
    /// The bytes of the live objects that an object of the group dominates, each counted once.
    pub retained: u64,
}

/// A class histogram of the live objects, with what each group retains.
#[derive(Drop)]
pub struct RetainedHistogram {
    /// The totals: groups that retain more bytes come first, and on a tie in the order of the class
    /// histogram.
    pub rows: Vec<RetainedTotal>,
    /// The number of all live objects.
    pub objects: u32,
    /// The bytes of all live objects, header words included.
    pub bytes: u64,
}

/// Returns the class histogram of the live objects, with what the objects of each group retain.
/// Once the dominators are found, it takes time linear in the objects.
pub fn retained_histogram(
    rt: &(impl Threads + Sync),
    alloc: Global,
    live: &Live<'_>,
) -> Result<RetainedHistogram, AllocError>
    ensures histogram { IfOk result (λ histogram. IsRetainedHistogram live.now.graph.heap.now
        live.now.graph.weak live.now.marks histogram) }
    ensures inside { IfOk result (λ histogram. All (λ row.
        IsInside (object_count live.now.graph.heap.now) row.total.group) histogram.rows.items) }
{
    let histogram = live_histogram(rt, alloc, live)?;
    let retained = retained_by_groups(alloc, live.graph)?;
    let mut rows = rows_of(alloc, live.graph.heap, &histogram.totals, &retained)?;
    sort_rows(&mut rows)?;
    Ok(RetainedHistogram {
        rows,
        objects: histogram.objects,
        bytes: histogram.bytes,
    })
}

/// Returns each total with what its group retains, given what groups retain by their numbers.
fn rows_of(
    alloc: Global,
    heap: &Heap,
    totals: &[GroupTotal],
    retained: &[u64],
) -> Result<Vec<RetainedTotal>, AllocError>
    requires inside { All (λ total. IsInside (object_count heap.now) total.group) totals.now }
    requires sized { length retained.now ≡ key_count heap.now }
    ensures { IfOk result (λ rows.
        rows.items ≡ map (retained_total (object_count heap.now) retained.now) totals.now) }
{
    heap_bounds(heap); // fewer than 2^30 objects
    let mut rows = Vec::with_capacity(alloc, totals.len())?;
    for total in totals {
        let key = key_of(heap.len(), total.group);
        rows.push(RetainedTotal {
            total: *total,
            retained: retained[key as usize],
        })?;
    }
    Ok(rows)
}

/// Sorts rows by what their groups retain, most first. On a tie they keep their order. If out of
/// memory, none has moved.
fn sort_rows(rows: &mut Vec<RetainedTotal>) -> Result<(), AllocError>
    ensures permutation { IsPermutation rows.old.items rows.new.items }
    ensures sorted { OnOk result (IsSortedBy group_retains_more rows.new.items) }
    ensures stable { IsStableBy group_retains_more rows.old.items rows.new.items }
{
    rows.sort_by_key(
        |row: &RetainedTotal| -> Reverse<u64>
            ensures { result ≡ record { 0 = row.now.retained } }
        { Reverse(row.retained) },
    )?;
    Ok(())
}
