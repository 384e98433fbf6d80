//! The words that are written so that no pointer leads nowhere.

ghost use Rattle.std.specs.Prelude.{◌<◌, length, All, IfOk, IfErr};
ghost use Rattle.std.specs.List.{concat};
ghost use Rattle.sqz_damage.specs.Patches.{AreNilPatches, IsNilError};

use crate::dangling::dangling::nil_address;
use crate::dangling::lost::is_lost;
use crate::dangling::nil_error::NilError;
use crate::dangling::patch::Patch;
use crate::dangling::pushing::push_patches;
use sqz_trace::Live;
use std::alloc::Global;

/// Returns the data words that have to be written anew so that each pointer of a live object leads
/// to an object: in the order of the objects, and in each object the class word before the fields.
///
/// A live object that is lost becomes a free chunk. An object is lost if it cannot be traced: it
/// has no class, or is a method or a context that states no number of traced fields, or more than
/// it has. If weak slots are cleared, it is also lost if it is weak and its class states no number
/// of fixed fields, or more than it has. And it is lost if its class word leads to no object that
/// can be a class, unless it can be a class itself, or is nil or the special objects array: a
/// virtual machine stops at an object without a class, but a class without one serves its
/// instances.
///
/// In each other live object a slot dangles if it holds neither a SmallInteger nor the address of
/// an object that is not lost. Such a slot becomes a pointer to nil, which is the object that field
/// 0 of the special objects array points to. A class word keeps its header type. Weak slots count
/// as all others.
///
/// Fails with `NoSpecialObjects` if the special objects array is lost, and with `NoNil` if a slot
/// dangles and field 0 of the special objects array points to no object that is not lost. Otherwise
/// fails only if out of memory.
pub fn nil_patches(alloc: Global, live: &Live<'_>) -> Result<Vec<Patch>, NilError>
    ensures exact { IfOk result (λ patches.
        AreNilPatches live.now.graph.heap.now live.now.graph.weak live.now.marks patches.items) }
    ensures inside { IfOk result (λ patches. All (λ patch.
        patch.word < length (concat live.now.graph.heap.now.chunks)) patches.items) }
    ensures refused { IfErr result (λ error.
        IsNilError live.now.graph.heap.now live.now.graph.weak live.now.marks error) }
{
    let graph = live.graph;
    let heap = graph.heap;
    if is_lost(graph, heap.special()) {
        return Err(NilError::NoSpecialObjects);
    }
    let _data = heap.data(); // a sequence of chunks
    let nil = nil_address(graph);
    let mut patches = Vec::new(alloc);
    for object in 0..heap.len() {
        if live.marks.has(object) {
            push_patches(graph, nil, object, &mut patches)?;
        }
    }
    Ok(patches)
}
