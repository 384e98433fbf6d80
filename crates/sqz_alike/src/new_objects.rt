//! The objects of the new image that have no partners.

ghost use Rattle.std.specs.Prelude.{IfOk};
ghost use Rattle.sqz_image.specs.Objects.{object_count};
ghost use Rattle.sqz_alike.specs.NewObjects.{AreNew};

use crate::Pair;
use sqz_trace::{Live, Marks, difference};
use std::alloc::{AllocError, Global};

/// Returns one mark per object of the new image: an object is marked if it is live, and in none of
/// the pairs. Fails only if out of memory.
pub fn mark_new(alloc: Global, live: &Live<'_>, pairs: &[Pair]) -> Result<Marks, AllocError>
    ensures { IfOk result (AreNew (object_count live.now.graph.heap.now)
        live.now.marks pairs.now) }
{
    let heap = live.graph.heap;
    let mut partners = Vec::with_capacity(alloc, pairs.len())?;
    for pair in pairs {
        partners.push(pair.new)?;
    }
    let matched = Marks::listed(alloc, heap, &partners)?;
    difference(alloc, heap, &live.marks, &matched)
}
