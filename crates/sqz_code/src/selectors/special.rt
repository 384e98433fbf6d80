//! The selectors that have bytecodes of their own.

ghost use Rattle.std.specs.Prelude.{◌≡◌, ◌<◌, IfSome};
ghost use Rattle.sqz_image.specs.Objects.{object_count};
ghost use Rattle.sqz_code.specs.Mentions.{special_selector};

use sqz_image::{Heap, Slot};
use sqz_object::ObjectIndex;
use sqz_trace::target;

/// The field of the special objects array that points to the array of special selectors: for each
/// its symbol, and then its number of arguments.
const SPECIAL_SELECTORS: u32 = 23;

/// Returns the symbol of the special selector with an index, as the special objects array has it.
pub(crate) fn special_selector(heap: &Heap, index: u8) -> Option<ObjectIndex>
    ensures selector { result ≡ special_selector heap.now index }
    ensures inside { IfSome result (λ selector. selector < object_count heap.now) }
{
    let array = target(heap, heap.special(), Slot::Field(SPECIAL_SELECTORS))?;
    target(heap, array, Slot::Field(2 * u32::from(index)))
}
