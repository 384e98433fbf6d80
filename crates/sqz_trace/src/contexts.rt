//! The number of traced fields of a context.

ghost use Rattle.std.specs.Prelude.{◌≡◌};
ghost use Rattle.sqz_trace.specs.Slots.{context_fields};

use sqz_object::{Value, Words, value_of};

/// The field of a context that holds its stack pointer.
const STACK_POINTER: usize = 2;

/// The number of fields before the stack of a context.
const FIXED_FIELDS: u32 = 6;

/// Returns the number of traced fields that a context with these fields states: those up to the
/// top of its stack. None if it has no stack pointer, or a negative one.
pub(crate) fn context_fields(fields: &Words<'_>) -> Option<u32>
    ensures { result ≡ context_fields fields.now }
{
    let stack_pointer = match value_of(fields.get(STACK_POINTER)?) {
        Value::Int(number) => number,
        Value::Pointer(_) | Value::Odd(_) => 0,
    };
    let size = u32::try_from(stack_pointer).ok()?;
    Some(FIXED_FIELDS + size)
}
