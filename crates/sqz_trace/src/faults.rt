//! The first fault of an image.

ghost use Rattle.std.specs.Prelude.{◌≡◌};
ghost use Rattle.sqz_trace.specs.Faults.{first_fault};

use crate::defects::lacks_nil;
use crate::live_objects::Live;
use crate::lowest_defect::first_defect;
use sqz_image::Fault;
use std::thread::Threads;

/// Returns the first fault for which a compaction rejects an image: `NoNil` if weak slots are
/// cleared and there is no nil, else the defect of the lowest live object that has one. None if
/// there is no such fault. Unless marking has seen that there is none, several threads look for the
/// defect. It allocates no memory.
pub fn first_fault(rt: &(impl Threads + Sync), live: &Live<'_>) -> Option<Fault>
    ensures { result ≡ first_fault live.now.graph.heap.now live.now.graph.weak live.now.marks }
{
    if live.is_sound {
        return None;
    }
    let graph = live.graph;
    if lacks_nil(graph.heap, graph.weak) {
        return Some(Fault::NoNil);
    }
    first_defect(rt, graph.heap, graph.weak, &live.marks)
}
