//! The scheduler of an image.

ghost use Rattle.std.specs.Prelude.{◌≡◌, ◌<◌, IfSome};
ghost use Rattle.sqz_image.specs.Objects.{object_count};
ghost use Rattle.sqz_code.specs.Processes.{active_process, ready_field, ready_list, scheduler};

use crate::stacks::field_values::field_of;
use crate::stacks::fields::{ACTIVE_PROCESS, READY_LISTS, SCHEDULER};
use sqz_image::Heap;
use sqz_names::fields::VALUE;
use sqz_object::ObjectIndex;

/// Returns the scheduler: the value of an association that the special objects array points to.
fn scheduler(heap: &Heap) -> Option<ObjectIndex>
    ensures scheduler { result ≡ scheduler heap.now }
    ensures inside { IfSome result (λ found. found < object_count heap.now) }
{
    let association = field_of(heap, heap.special(), SCHEDULER)?;
    field_of(heap, association, VALUE)
}

/// Returns the active process, to which the scheduler points. None if there is none.
pub(crate) fn active_process(heap: &Heap) -> Option<ObjectIndex>
    ensures active { result ≡ active_process heap.now }
    ensures inside { IfSome result (λ found. found < object_count heap.now) }
{
    field_of(heap, scheduler(heap)?, ACTIVE_PROCESS)
}

/// Returns the list of the processes that are ready at a priority. None if there is no such list.
pub(crate) fn ready_list(heap: &Heap, priority: Option<i32>) -> Option<ObjectIndex>
    ensures list { result ≡ ready_list heap.now priority }
    ensures inside { IfSome result (λ found. found < object_count heap.now) }
{
    let field = ready_field(priority)?;
    let lists = field_of(heap, scheduler(heap)?, READY_LISTS)?;
    field_of(heap, lists, field)
}

/// Returns the field of the list of the processes that are ready at a priority: priorities count
/// from 1.
fn ready_field(priority: Option<i32>) -> Option<u32>
    ensures { result ≡ ready_field priority }
{
    u32::try_from(priority?).ok()?.checked_sub(1)
}
