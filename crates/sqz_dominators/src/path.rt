//! Paths along strong slots.

ghost use Rattle.std.specs.Prelude.{◌<◌, length, IfOk, IfSome, IfNone};
ghost use Rattle.sqz_dominators.specs.Paths.{IsPathBack, IsShortestPath, IsUnreachable};
ghost use Rattle.sqz_dominators.specs.Searching.{IsWhole};

use crate::search::Search;
use crate::slots_between::slot_between;
use sqz_image::Slot;
use sqz_object::ObjectIndex;
use std::alloc::{AllocError, Global};

/// A step of a path: from the object before, along one of its strong slots, to the object that the
/// slot points to.
#[derive(Clone, Copy, Debug, PartialEq, Eq)]
pub struct Step {
    /// The slot, which belongs to the object before.
    pub slot: Slot,
    /// The index of the object that it points to.
    pub object: ObjectIndex,
}

/// A path from the special objects array. The path to that array itself has no steps.
#[derive(Debug, Drop)]
pub struct Path {
    /// The steps in order; the first goes along a slot of the special objects array.
    pub steps: Vec<Step>,
}

/// Returns a shortest path along strong slots from the special objects array to the object with
/// this index, or None if no path leads to it. A step goes along the first slot of its object that
/// points to the next one; the class word comes before the fields.
///
/// The path is read back from a search that has found all objects. Time is linear in the words of
/// the objects on the path. Fails only if out of memory.
pub fn path_in(
    alloc: Global,
    search: &Search<'_>,
    object: ObjectIndex,
) -> Result<Option<Path>, AllocError>
    requires { IsWhole search.now }
    ensures path { IfOk result (λ found. IfSome found (λ path.
        IsShortestPath search.now.graph.heap.now search.now.graph.weak object path.steps.items)) }
    ensures none { IfOk result (λ found. IfNone found
        (IsUnreachable search.now.graph.heap.now search.now.graph.weak object)) }
{
    match search.place(object) {
        Some(place) => Ok(Some(path_back(alloc, search, place)?)),
        None => Ok(None),
    }
}

/// Returns the path to the object at a place, by following back the objects that led to each.
fn path_back(alloc: Global, search: &Search<'_>, place: usize) -> Result<Path, AllocError>
    requires whole { IsWhole search.now }
    requires inside { place < length search.now.found.items }
    ensures { IfOk result (λ path.
        IsPathBack search.now.graph.heap.now search.now.graph.weak search.now.found.items
        search.now.places.items search.now.from.items place path.steps.items) }
{
    let mut steps = Vec::new(alloc);
    let mut next = place;
    while next > 0 {
        let object = search.found[next];
        next = search.from[next] as usize;
        let edges = search.graph.edges(search.found[next]);
        match slot_between(&edges, object) {
            Some(slot) => steps.push(Step { slot, object })?,
            None => unreachable!(),
        }
    }
    steps.reverse();
    Ok(Path { steps })
}
