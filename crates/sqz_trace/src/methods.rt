//! The number of traced fields of a compiled method.

ghost use Rattle.std.specs.Prelude.{◌≡◌};
ghost use Rattle.sqz_trace.specs.Slots.{method_fields};

use sqz_object::{BitField, Words};

/// The bits of a method's header with the number of its literals.
const LITERALS: BitField = BitField {
    lowest: 10,
    width: 8,
};

/// Returns the number of traced fields that a method with these fields states: its header and its
/// literals. None if it has no header, or if the header is not a SmallInteger.
pub(crate) fn method_fields(fields: &Words<'_>) -> Option<u32>
    ensures { result ≡ method_fields fields.now }
{
    let header = fields.get(0)?;
    if header % 2 != 1 {
        return None;
    }
    Some(1 + LITERALS.get(header))
}
