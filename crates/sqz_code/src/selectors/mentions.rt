//! The objects that a method mentions: its literals, and the selectors that it sends.

ghost use Rattle.std.specs.Prelude.{◌≡◌, ◌<◌, All, IfOk, IfSome};
ghost use Rattle.sqz_image.specs.Objects.{object_count};
ghost use Rattle.sqz_code.specs.Mentions.{selector_of, AreSent, AreMentioned};

use crate::selectors::special::special_selector;
use crate::{Operation, code_of, method_literals};
use sqz_image::{Heap, Slot};
use sqz_object::ObjectIndex;
use sqz_trace::{named_by, target};
use std::alloc::{AllocError, Global};

/// Returns the object that an instruction of a method sends as its selector. None if it sends
/// nothing, or if its selector is no object.
pub fn selector_of(heap: &Heap, method: ObjectIndex, operation: Operation) -> Option<ObjectIndex>
    requires { method < object_count heap.now }
    ensures selector { result ≡ selector_of heap.now method operation }
    ensures inside { IfSome result (λ selector. selector < object_count heap.now) }
{
    match operation {
        Operation::Send { literal, .. } | Operation::SendSuper { literal, .. } => {
            target(heap, method, Slot::Field(u32::from(literal) + 1))
        }
        Operation::SendSpecial(index) => special_selector(heap, index),
        _ => None,
    }
}

/// Returns the selectors that a method sends, in the order of its instructions: one for each that
/// sends an object.
pub fn sent_by(
    alloc: Global,
    heap: &Heap,
    method: ObjectIndex,
) -> Result<Vec<ObjectIndex>, AllocError>
    requires { method < object_count heap.now }
    ensures sent { IfOk result (λ sent. AreSent heap.now method sent.items) }
    ensures inside { IfOk result (λ sent.
        All (λ selector. selector < object_count heap.now) sent.items) }
{
    let code = code_of(alloc, heap, method)?;
    let mut sent = Vec::new(alloc);
    for instruction in &code.instructions {
        if let Some(selector) = selector_of(heap, method, instruction.operation) {
            sent.push(selector)?;
        }
    }
    Ok(sent)
}

/// Returns the objects that a method mentions: those that its literals point to, in their order, and
/// then the selectors that it sends.
pub fn mentioned_by(
    alloc: Global,
    heap: &Heap,
    method: ObjectIndex,
) -> Result<Vec<ObjectIndex>, AllocError>
    requires { method < object_count heap.now }
    ensures { IfOk result (λ mentioned. AreMentioned heap.now method mentioned.items) }
{
    let mut mentioned = Vec::new(alloc);
    for word in method_literals(heap, method).iter() {
        if let Some(object) = named_by(heap, word) {
            mentioned.push(object)?;
        }
    }
    mentioned.extend_from_slice(&sent_by(alloc, heap, method)?)?;
    Ok(mentioned)
}
