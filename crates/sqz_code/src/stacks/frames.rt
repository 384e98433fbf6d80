//! What contexts run.

ghost use Rattle.std.specs.Prelude.{◌≡◌, ◌<◌, IfSome, option_and_then};
ghost use Rattle.sqz_image.specs.Objects.{object_count};
ghost use Rattle.sqz_code.specs.Frames.{ReceiverBelow, frame, method_of, receiver};

use crate::stacks::field_values::{field_of, integer_in};
use crate::stacks::fields::{HOME, METHOD, PROGRAM_COUNTER, RECEIVER};
use crate::stacks::senders::context_in;
use sqz_image::Heap;
use sqz_object::{Layout, ObjectIndex};

/// The receiver of a method.
#[derive(Clone, Copy)]
pub enum Receiver {
    /// An object with a header.
    Object(ObjectIndex),
    /// A SmallInteger.
    Integer(i32),
}

/// What a context runs.
#[derive(Clone, Copy)]
pub struct Frame {
    /// The method, or the method that the block is of.
    pub method: Option<ObjectIndex>,
    /// Whether it runs a block of the method.
    pub is_block: bool,
    /// The program counter: a byte of the method, counted from 1.
    pub pc: Option<i32>,
    /// The receiver of the method.
    pub receiver: Option<Receiver>,
}

/// Returns what a context runs. What its fields do not state is None.
pub fn frame_of(heap: &Heap, context: ObjectIndex) -> Frame
    requires { context < object_count heap.now }
    ensures frame { result ≡ frame heap.now context }
    ensures method { IfSome result.method (λ method. method < object_count heap.now) }
    ensures receiver { IfSome result.receiver (ReceiverBelow (object_count heap.now)) }
{
    let is_block = integer_in(heap, context, METHOD).is_some();
    let home = if is_block {
        context_in(heap, context, HOME)
    } else {
        Some(context)
    };
    Frame {
        method: method_in(heap, home),
        is_block,
        pc: integer_in(heap, context, PROGRAM_COUNTER),
        receiver: receiver_in(heap, home),
    }
}

/// Returns the compiled method that the method field of a context points to. None also if there is
/// no context.
fn method_in(heap: &Heap, home: Option<ObjectIndex>) -> Option<ObjectIndex>
    requires { IfSome home (λ context. context < object_count heap.now) }
    ensures method { result ≡ option_and_then (method_of heap.now) home }
    ensures inside { IfSome result (λ found. found < object_count heap.now) }
{
    let found = field_of(heap, home?, METHOD)?;
    match heap.object(found).layout() {
        Layout::Method => Some(found),
        _ => None,
    }
}

/// Returns the receiver of a method, given its context. None also if there is no context.
fn receiver_in(heap: &Heap, home: Option<ObjectIndex>) -> Option<Receiver>
    requires { IfSome home (λ context. context < object_count heap.now) }
    ensures receiver { result ≡ option_and_then (receiver heap.now) home }
    ensures inside { IfSome result (ReceiverBelow (object_count heap.now)) }
{
    let context = home?;
    if let Some(number) = integer_in(heap, context, RECEIVER) {
        return Some(Receiver::Integer(number));
    }
    Some(Receiver::Object(field_of(heap, context, RECEIVER)?))
}
