//! What processes do.

ghost use Rattle.std.specs.Prelude.{◌≡◌, ◌<◌};
ghost use Rattle.sqz_image.specs.Objects.{object_count};
ghost use Rattle.sqz_code.specs.FieldValues.{integer_in};
ghost use Rattle.sqz_code.specs.Fields.{priority_field};
ghost use Rattle.sqz_code.specs.Processes.{WaitsBelow, state};

use crate::stacks::field_values::{field_of, integer_in};
use crate::stacks::fields::{LIST, PRIORITY};
use crate::stacks::scheduler::{active_process, ready_list};
use sqz_image::Heap;
use sqz_object::ObjectIndex;
use sqz_trace::{ObjectGraph, nil};

/// What a process does.
#[derive(Clone, Copy)]
pub enum State {
    /// It runs.
    Active,
    /// It is in the list of the processes that are ready at its priority.
    Ready,
    /// It is in another list, mostly a semaphore.
    Waiting(ObjectIndex),
    /// It is in no list.
    Suspended,
}

/// Returns the priority of a process. None if it is no SmallInteger.
pub fn priority_of(heap: &Heap, process: ObjectIndex) -> Option<i32>
    requires { process < object_count heap.now }
    ensures { result ≡ integer_in heap.now process priority_field }
{
    integer_in(heap, process, PRIORITY)
}

/// Returns what a process does.
pub fn state_of(graph: ObjectGraph<'_>, process: ObjectIndex) -> State
    requires { process < object_count graph.heap.now }
    ensures state { result ≡ state graph.entry.heap.now graph.entry.weak process }
    ensures inside { WaitsBelow (object_count graph.entry.heap.now) result }
{
    let heap = graph.heap;
    if active_process(heap) == Some(process) {
        return State::Active;
    }
    let Some(list) = field_of(heap, process, LIST) else {
        return State::Suspended;
    };
    if nil(heap, graph.weak) == Some(list) {
        return State::Suspended;
    }
    if ready_list(heap, priority_of(heap, process)) == Some(list) {
        return State::Ready;
    }
    State::Waiting(list)
}
