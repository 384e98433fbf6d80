//! The rows of a census.

ghost use Rattle.std.specs.Prelude.{◌≡◌, length, map, IfOk, IfErr};
ghost use Rattle.sqz_image.specs.declared.fault.Fault.TheVariants.{OutOfMemory};
ghost use Rattle.sqz_image.specs.Objects.{object_count};
ghost use Rattle.sqz_trace.specs.Reachability.{IsReachability};
ghost use Rattle.sqz_regions.specs.Bases.{ArePlacesOf};
ghost use Rattle.sqz_census.specs.Census.{IsCensus};
ghost use Rattle.sqz_census.specs.Rows.{shown};

use crate::row::Row;
use crate::row_maker::RowMaker;
use sqz_histogram::histogram;
use sqz_image::{Fault, Heap};
use sqz_regions::Forward;
use sqz_trace::{Marks, ObjectGraph, Weak};
use std::alloc::Global;
use std::thread::Threads;

/// Returns the rows of the census (class histogram) of the marked objects, provided that these are
/// the reachable ones and `forward` has their new addresses. There is one row for each class with
/// a marked object, and one for each compact index of marked objects without a class. Rows with
/// more bytes come first; on a tie, classes come by their new addresses, and then compact indexes.
/// Several threads make the rows. Fails only if out of memory.
pub fn census<'a>(
    rt: &(impl Threads + Sync),
    alloc: Global,
    heap: &'a Heap,
    weak: Weak,
    marks: &Marks,
    forward: &'a Forward,
) -> Result<Vec<Row>, Fault>
    requires sized { length marks.now ≡ object_count heap.now }
    requires one_each { length forward.now ≡ object_count heap.now }
    ensures rows { IfOk result (λ rows. IsReachability heap.now weak marks.now
        → ArePlacesOf heap.now marks.now forward.now
        → IsCensus heap.now weak marks.now (map shown rows.items)) }
    ensures refused { IfErr result (λ fault. fault ≡ OutOfMemory) }
{
    let graph = ObjectGraph { heap, weak };
    let totals = histogram(rt, alloc, graph, marks)?;
    heap.data(); // every chunk is well-formed, so addresses rise with the indexes of objects
    let maker = RowMaker { graph, forward };
    let rows = maker.rows_of(rt, alloc, &totals)?;
    Ok(rows)
}
