//! Whether two images are alike.

ghost use Rattle.std.specs.Prelude.{◌≡◌, ◌↔◌, IfOk};
ghost use Rattle.sqz_image.specs.Objects.{object_count};
ghost use Rattle.sqz_alike.specs.declared.alikeness.Alikeness.TheVariants.{Alike};
ghost use Rattle.sqz_alike.specs.Alike.{AreAlike, IsInside};
ghost use Rattle.sqz_alike.specs.FirstDifference.{IsFirst};
ghost use Rattle.sqz_alike.specs.Seen.{seen};

use crate::matching::{Matching, Pair};
use crate::objects::objects_match;
use sqz_trace::Live;
use std::alloc::{AllocError, Global};

/// Whether two images are alike.
#[derive(Clone, Copy)]
pub enum Alikeness {
    /// The live objects correspond one to one.
    Alike,
    /// They do not. These objects differ, though they would have to correspond: the same slots lead
    /// to both from the special objects arrays. They are the first that a walk finds.
    Differ(Pair),
}

/// Returns whether the live objects of two images correspond one to one. The special objects arrays
/// correspond; if two objects do, the targets of their slots do. Corresponding objects have the same
/// kind of header, format, compact class index, hash and size, the same SmallIntegers, and the same
/// untraced words; those of byte objects and methods are compared as bytes. A slot that points to a
/// dead object counts as nil. Addresses, byte orders and dead objects do not matter.
///
/// Walks both images at once, breadth first, in time and memory linear in their objects. Fails only
/// if out of memory.
pub fn compare(alloc: Global, old: &Live<'_>, new: &Live<'_>) -> Result<Alikeness, AllocError>
    ensures alike { IfOk result (λ found.
        (found ≡ Alike) ↔ ∥ AreAlike (seen old.now) (seen new.now) ∥₁) }
    ensures first { IfOk result (IsFirst (seen old.now) (seen new.now)) }
    ensures inside { IfOk result (IsInside (object_count old.now.graph.heap.now)
        (object_count new.now.graph.heap.now)) }
{
    let (heap, other) = (old.graph.heap, new.graph.heap);
    let mut matching = Matching::new(alloc, heap.len(), other.len())?;
    let roots = Pair {
        old: heap.special(),
        new: other.special(),
    };
    matching.join(roots)?;
    let mut next = 0;
    while next < matching.pairs.len() {
        let pair = matching.pairs[next];
        if !objects_match(old, new, pair, &mut matching)? {
            return Ok(Alikeness::Differ(pair));
        }
        next += 1;
    }
    Ok(Alikeness::Alike)
}
