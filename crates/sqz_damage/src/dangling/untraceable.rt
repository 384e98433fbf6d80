//! Objects that cannot be traced.

ghost use Rattle.std.specs.Prelude.{◌≡◌};
ghost use Rattle.sqz_trace.specs.Slots.{method_fields, context_fields};
ghost use Rattle.sqz_trace.specs.Defects.{lacks_class, states_too_many};
ghost use Rattle.sqz_trace.specs.Defects.{is_bad_method, is_bad_context};
ghost use Rattle.sqz_damage.specs.Dangling.{is_untraceable};

use sqz_image::Object;
use sqz_object::{BitField, Kind, Layout, Value, Words, base_of, value_of};

/// The bits of a method's header with the number of its literals.
const LITERALS: BitField = BitField {
    lowest: 10,
    width: 8,
};

/// The field of a context that holds its stack pointer.
const STACK_POINTER: usize = 2;

/// The number of fields before the stack of a context.
const FIXED_FIELDS: u32 = 6;

/// Returns whether the object cannot be traced: it has no class, or is a method or a context that
/// states no number of traced fields, or more than it has.
pub(crate) fn is_untraceable(object: &Object<'_>) -> bool
    ensures { result ≡ is_untraceable object.now }
{
    lacks_class(object) || is_bad_method(object) || is_bad_context(object)
}

/// Returns whether the object's header has neither a class word nor a compact class index.
fn lacks_class(object: &Object<'_>) -> bool
    ensures { result ≡ lacks_class object.now }
{
    let header = object.header();
    header.kind == Kind::Short && base_of(header.base).compact == 0
}

/// Returns whether the object is a method that states no number of traced fields, or more than it
/// has.
fn is_bad_method(object: &Object<'_>) -> bool
    ensures { result ≡ is_bad_method object.now }
{
    let fields = object.fields();
    matches!(object.layout(), Layout::Method)
        && states_too_many(method_fields(&fields), fields.len() as u32)
}

/// Returns whether the object is a context that states no number of traced fields, or more than it
/// has.
fn is_bad_context(object: &Object<'_>) -> bool
    ensures { result ≡ is_bad_context object.now }
{
    let fields = object.fields();
    matches!(object.layout(), Layout::Context)
        && states_too_many(context_fields(&fields), fields.len() as u32)
}

/// Returns whether no number is stated, or a number above this count.
pub(crate) fn states_too_many(stated: Option<u32>, count: u32) -> bool
    ensures { result ≡ states_too_many stated count }
{
    match stated {
        None => true,
        Some(stated) => stated > count,
    }
}

/// Returns the number of traced fields that a method with these fields states: its header and its
/// literals. None if it has no header, or if the header is not a SmallInteger.
fn method_fields(fields: &Words<'_>) -> Option<u32>
    ensures { result ≡ method_fields fields.now }
{
    let header = fields.get(0)?;
    if header % 2 != 1 {
        return None;
    }
    Some(1 + LITERALS.get(header))
}

/// Returns the number of traced fields that a context with these fields states: those up to the
/// top of its stack. None if it has no stack pointer, or a negative one.
fn context_fields(fields: &Words<'_>) -> Option<u32>
    ensures { result ≡ context_fields fields.now }
{
    let stack_pointer = match value_of(fields.get(STACK_POINTER)?) {
        Value::Int(number) => number,
        Value::Pointer(_) | Value::Odd(_) => 0,
    };
    let size = u32::try_from(stack_pointer).ok()?;
    Some(FIXED_FIELDS + size)
}
