//! Class histograms.

ghost use Rattle.std.specs.Prelude.{◌≡◌, All, IfOk, length};
ghost use Rattle.sqz_image.specs.Objects.{object_count};
ghost use Rattle.sqz_histogram.specs.Groups.{IsInside};
ghost use Rattle.sqz_answers.specs.Histograms.{IsHistogramOf, IsDeadHistogramOf};

use sqz_facts::marked_bytes;
use sqz_histogram::{GroupTotal, histogram};
use sqz_trace::{Live, Marks, ObjectGraph, complement};
use std::alloc::{AllocError, Global};
use std::thread::Threads;

/// A class histogram of some objects.
#[derive(Drop)]
pub struct Histogram {
    /// The number and the bytes of the objects of each class, and of those without a class by their
    /// compact index: more bytes come first, and on a tie classes by address, then compact indexes.
    pub totals: Vec<GroupTotal>,
    /// The number of all these objects.
    pub objects: u32,
    /// The bytes of all these objects, header words included.
    pub bytes: u64,
}

/// Returns the class histogram of the live objects.
pub fn live_histogram(
    rt: &(impl Threads + Sync),
    alloc: Global,
    live: &Live<'_>,
) -> Result<Histogram, AllocError>
    ensures histogram { IfOk result (λ histogram. IsHistogramOf live.now.graph.heap.now
        live.now.graph.weak live.now.marks histogram) }
    ensures inside { IfOk result (λ histogram. All (λ total.
        IsInside (object_count live.now.graph.heap.now) total.group) histogram.totals.items) }
{
    histogram_of(rt, alloc, live.graph, &live.marks)
}

/// Returns the class histogram of the objects that are not live. A class need not be live.
pub fn dead_histogram(
    rt: &(impl Threads + Sync),
    alloc: Global,
    live: &Live<'_>,
) -> Result<Histogram, AllocError>
    ensures histogram { IfOk result (λ histogram. IsDeadHistogramOf live.now.graph.heap.now
        live.now.graph.weak live.now.marks histogram) }
    ensures inside { IfOk result (λ histogram. All (λ total.
        IsInside (object_count live.now.graph.heap.now) total.group) histogram.totals.items) }
{
    let dead = complement(alloc, live.graph.heap, &live.marks)?;
    histogram_of(rt, alloc, live.graph, &dead)
}

/// Returns the class histogram of the marked objects.
fn histogram_of(
    rt: &(impl Threads + Sync),
    alloc: Global,
    graph: ObjectGraph<'_>,
    marks: &Marks,
) -> Result<Histogram, AllocError>
    requires { length marks.now ≡ object_count graph.heap.now }
    ensures histogram { IfOk result (λ histogram. IsHistogramOf graph.entry.heap.now
        graph.entry.weak marks.now histogram) }
    ensures inside { IfOk result (λ histogram. All (λ total.
        IsInside (object_count graph.entry.heap.now) total.group) histogram.totals.items) }
{
    let totals = histogram(rt, alloc, graph, marks)?;
    Ok(Histogram {
        totals,
        objects: marks.count(),
        bytes: marked_bytes(graph.heap, marks),
    })
}
