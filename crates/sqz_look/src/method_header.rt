//! The header of a compiled method.

ghost use Rattle.std.specs.Prelude.{◌<◌};
ghost use Rattle.sqz_image.specs.Objects.{object_count};

use sqz_code::MethodHeader;
use sqz_image::Heap;
use sqz_object::{Layout, ObjectIndex};

/// Returns the header of a compiled method. None for another object, or without a header.
pub(crate) fn header_of(heap: &Heap, object: ObjectIndex) -> Option<MethodHeader>
    requires { object < object_count heap.now }
{
    let object = heap.object(object);
    if object.layout() != Layout::Method {
        return None;
    }
    MethodHeader::of(object.fields().get(0)?)
}
