//! The processes of an image.

ghost use Rattle.std.specs.Prelude.{◌≡◌, ◌<◌, All, IfOk};
ghost use Rattle.sqz_image.specs.Objects.{object_count};
ghost use Rattle.sqz_code.specs.Processes.{is_live_of, processes};

use crate::stacks::scheduler::active_process;
use sqz_object::ObjectIndex;
use sqz_trace::Live;
use std::alloc::{AllocError, Global};

/// Returns the processes by index: the live objects of the class of the active process. Empty if
/// there is no active process, or if its class is unknown. Takes time linear in the objects. Fails
/// only if out of memory.
pub fn processes_of(alloc: Global, live: &Live<'_>) -> Result<Vec<ObjectIndex>, AllocError>
    ensures processes { IfOk result (λ found. found.items ≡ processes live.now.graph.heap.now
        live.now.graph.weak live.now.marks) }
    ensures inside { IfOk result (λ found.
        All (λ process. process < object_count live.now.graph.heap.now) found.items) }
{
    let heap = live.graph.heap;
    let mut processes = Vec::new(alloc);
    let class = match active_process(heap) {
        Some(process) => live.graph.class_of(process),
        None => None,
    };
    for object in 0..heap.len() {
        if is_live_of(live, class, object) {
            processes.push(object)?;
        }
    }
    Ok(processes)
}

/// Returns whether an object is a live one of a class that is known.
fn is_live_of(live: &Live<'_>, class: Option<ObjectIndex>, object: ObjectIndex) -> bool
    requires { object < object_count live.now.graph.heap.now }
    ensures { result ≡ is_live_of live.now.graph.heap.now live.now.graph.weak live.now.marks class
        object }
{
    live.marks.has(object) && class.is_some() && live.graph.class_of(object) == class
}
