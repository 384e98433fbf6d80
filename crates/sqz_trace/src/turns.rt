//! Marking one object at a time, from a list of grey objects with room for every white one.

ghost use Rattle.std.specs.Prelude.{◌≡◌, ◌+◌, ◌<◌, ◌≤◌, length, Some, vec_capacity};
ghost use Rattle.sqz_image.specs.Objects.{object_count};
ghost use Rattle.sqz_trace.specs.declared.shades.Shade.TheVariants.{Grey};
ghost use Rattle.sqz_trace.specs.Edges.{edge_target, HasEdge};
ghost use Rattle.sqz_trace.specs.Shades.{shade_at};
ghost use Rattle.sqz_trace.specs.Greying.{Blackens, Greys, IsListed, white_count};

use crate::greying::grey_white_target;
use crate::out_edges::OutEdges;
use crate::shades::Shade;
use crate::weak::Weak;
use sqz_image::{Heap, Slot};
use sqz_object::ObjectIndex;

/// Makes the white targets of a grey object grey, appends them to the list, and makes the object
/// black. It allocates no memory: the list has room for all white objects.
pub fn blacken_listed(
    heap: &Heap,
    weak: Weak,
    object: ObjectIndex,
    shades: &mut [Shade],
    list: &mut Vec<ObjectIndex>,
)
    requires object { object < object_count heap.now }
    requires sized { length shades.old ≡ object_count heap.now }
    requires grey { shade_at shades.old object ≡ Grey }
    requires room { length list.old.items + white_count shades.old ≤ vec_capacity list.old }
    ensures blackened { Blackens (HasEdge heap.now weak object) object shades.old shades.new }
    ensures listed { IsListed shades.old shades.new list.old.items list.new.items }
    ensures room { length list.new.items + white_count shades.new ≤ vec_capacity list.new }
    ensures capacity { vec_capacity list.new ≡ vec_capacity list.old }
{
    let edges = OutEdges::of(heap, weak, object);
    for slot in edges.slots() {
        grey_listed(&edges, slot, shades, list);
    }
    shades[object as usize] = Shade::Black;
}

/// Makes the object that a strong slot points to grey if it is white, and then appends it to the
/// list.
fn grey_listed(edges: &OutEdges<'_>, slot: Slot, shades: &mut [Shade], list: &mut Vec<ObjectIndex>)
    requires sized { length shades.old ≡ object_count edges.now.memory }
    requires room { length list.old.items + white_count shades.old ≤ vec_capacity list.old }
    ensures greyed { Greys (λ index.
        edge_target edges.now slot ≡ Some index) shades.old shades.new }
    ensures listed { IsListed shades.old shades.new list.old.items list.new.items }
    ensures capacity { vec_capacity list.new ≡ vec_capacity list.old }
{
    if let Some(found) = grey_white_target(edges, slot, shades) {
        list.push_reserved(found);
    }
}
