//! Finishing a marking without allocating memory.

ghost use Rattle.std.specs.Prelude.{◌≡◌, ℕ, ◌+◌, ◌<◌, ◌≤◌, length, Some};
ghost use Rattle.sqz_image.specs.Objects.{object_count};
ghost use Rattle.sqz_trace.specs.declared.shades.Shade.TheVariants.{Grey};
ghost use Rattle.sqz_trace.specs.Edges.{edge_target, strong_slots, IsTargetAmong};
ghost use Rattle.sqz_trace.specs.Reachability.{IsReachability};
ghost use Rattle.sqz_trace.specs.Shades.{AreLawfulOf, shade_at};
ghost use Rattle.sqz_trace.specs.Greying.{Blackens, Greys, IsLowest};

use crate::greying::grey_white_target;
use crate::marks::Marks;
use crate::out_edges::OutEdges;
use crate::shades::{Shade, Shades};
use crate::weak::Weak;
use sqz_image::laws::heap_bounds;
use sqz_image::{Heap, Slot};
use sqz_object::ObjectIndex;

/// Finishes a marking, and returns the reachable objects of the heap. The shades must be lawful:
/// the special objects array is not white, every object that is not white is reachable, and no
/// strong slot of a black object points to a white one (the tri-colour invariant). It allocates no
/// memory.
///
/// If no object is grey, it reads each shade once. Otherwise it goes over the objects from the
/// lowest grey one on, and back to the lowest object that becomes grey on the way.
pub fn finish(heap: &Heap, weak: Weak, mut shades: Shades) -> Marks
    requires { AreLawfulOf heap.now weak shades.items }
    ensures { IsReachability heap.now weak result }
{
    let mut object = 0;
    while object < heap.len() {
        object = match shades[object as usize] {
            Shade::Grey => blacken(&OutEdges::of(heap, weak, object), object, &mut shades),
            Shade::White | Shade::Black => object + 1,
        };
    }
    Marks::new(shades)
}

/// Makes the white targets of a grey object grey, and the object black. Returns the lowest of
/// these targets or the next object, whichever is lower.
fn blacken(edges: &OutEdges<'_>, object: ObjectIndex, shades: &mut [Shade]) -> ObjectIndex
    requires object { object < 4294967295 }
    requires inside { object < length shades.old }
    requires sized { length shades.old ≡ object_count edges.now.memory }
    requires grey { shade_at shades.old object ≡ Grey }
    ensures blackened { Blackens (IsTargetAmong edges.now (strong_slots edges.now)) object
        shades.old shades.new }
    ensures lowest { IsLowest (object + 1) shades.old shades.new result }
{
    let mut lowest = object + 1;
    for slot in edges.slots() {
        lowest = grey_target(edges, slot, shades, lowest);
    }
    shades[object as usize] = Shade::Black;
    lowest
}

/// Makes the object that a strong slot points to grey if it is white. Returns this object or the
/// lowest one so far, whichever is lower; the lowest one so far if no object became grey.
fn grey_target(
    edges: &OutEdges<'_>,
    slot: Slot,
    shades: &mut [Shade],
    lowest: ObjectIndex,
) -> ObjectIndex
    requires { length shades.old ≡ object_count edges.now.memory }
    ensures greyed { Greys (λ index.
        edge_target edges.now slot ≡ Some index) shades.old shades.new }
    ensures lowest { IsLowest lowest shades.old shades.new result }
{
    match grey_white_target(edges, slot, shades) {
        Some(found) => lowest.min(found),
        None => lowest,
    }
}
