//! Where objects lie in an image.

ghost use Rattle.sqz_look_view.specs.Inspectors.{IsObjectOf};

use sqz_look_view::Inspector;
use sqz_object::ObjectIndex;

/// Returns the place of an object: the number of the data word that its address is that of.
pub(crate) fn place_of(inspector: &Inspector<'_>, object: ObjectIndex) -> i64
    requires { IsObjectOf inspector.now object }
{
    i64::from(offset_of(inspector, inspector.live.graph.heap.address(object)) / 4)
}

/// Returns how many bytes an address is after that of the first data word.
pub(crate) fn offset_of(inspector: &Inspector<'_>, address: u32) -> u32 {
    address.saturating_sub(inspector.live.graph.heap.base())
}
