//! Making white objects grey.

ghost use Rattle.std.specs.Prelude.{◌≡◌, ◌<◌, length, slice_set, IfSome, IfNone, Some};
ghost use Rattle.sqz_image.specs.Objects.{object_count};
ghost use Rattle.sqz_trace.specs.declared.shades.Shade.TheVariants.{White, Grey};
ghost use Rattle.sqz_trace.specs.Edges.{edge_target};
ghost use Rattle.sqz_trace.specs.Shades.{shade_at};
ghost use Rattle.sqz_trace.specs.Greying.{Greys};

use crate::out_edges::OutEdges;
use crate::shades::Shade;
use sqz_image::Slot;
use sqz_object::ObjectIndex;

/// Makes the object that a strong slot points to grey if it is white. Returns the object if it
/// became grey.
pub(crate) fn grey_white_target(
    edges: &OutEdges<'_>,
    slot: Slot,
    shades: &mut [Shade],
) -> Option<ObjectIndex>
    requires { length shades.old ≡ object_count edges.now.memory }
    ensures greyed { Greys (λ index.
        edge_target edges.now slot ≡ Some index) shades.old shades.new }
    ensures one { IfSome result (λ found.
        (found < length shades.old) × (shade_at shades.old found ≡ White)
        × (shades.new ≡ slice_set shades.old found Grey)) }
    ensures none { IfNone result (shades.new ≡ shades.old) }
{
    let found = edges.target(slot)?;
    match shades[found as usize] {
        Shade::White => {
            shades[found as usize] = Shade::Grey;
            Some(found)
        }
        Shade::Grey | Shade::Black => None,
    }
}
