//! Objects that can be classes.

ghost use Rattle.std.specs.Prelude.{◌≡◌, ◌<◌};
ghost use Rattle.sqz_image.specs.Objects.{object_count};
ghost use Rattle.sqz_facts.specs.Classes.{can_be_class};

use sqz_image::Heap;
use sqz_object::{ObjectIndex, base_of};
use sqz_trace::fixed_by;

/// The format of objects with fixed fields alone.
const FIXED_FIELDS: u32 = 1;

/// The fields of a class.
const SUPERCLASS: u32 = 0;

const METHOD_DICTIONARY: u32 = 1;

/// Returns whether an object can be a class: it has fixed fields alone, states how many fixed
/// fields its instances have, and holds no SmallIntegers in its fields 0 and 1, which are the
/// superclass and the method dictionary of a class.
pub fn can_be_class(heap: &Heap, object: ObjectIndex) -> bool
    requires { object < object_count heap.now }
    ensures { result ≡ can_be_class heap.now object }
{
    if base_of(heap.object(object).header().base).format != FIXED_FIELDS {
        return false;
    }
    match fixed_by(heap, Some(object)) {
        Some(_) => {
            heap.field(object, SUPERCLASS) % 2 == 0
                && heap.field(object, METHOD_DICTIONARY) % 2 == 0
        }
        None => false,
    }
}
