//! Which pairs own themselves.

ghost use Rattle.std.specs.Prelude.{◌≡◌, ◌++◌, ◌∷◌, [], ℕ, List, false, IfOk};
ghost use Rattle.std.specs.Prelude.{slice_index_or, length};
ghost use Rattle.sqz_image.specs.Objects.{object_count};
ghost use Rattle.sqz_alike.specs.declared.matching.Pair.{Pair as APair};
ghost use Rattle.sqz_changes.specs.Anchors.{AreAnchored};
ghost use Rattle.sqz_changes.specs.Compared.{anchors, compared};

use crate::comparison::Comparison;
use sqz_alike::Pair;
use std::alloc::{AllocError, Global};

/// Returns for each object of the old image whether its pair is an anchor: whether it is among the
/// named pairs, or is the pair of the special objects arrays.
pub(crate) fn anchored(alloc: Global, comparison: &Comparison<'_>) -> Result<Vec<bool>, AllocError>
    ensures anchored { IfOk result (λ anchored. AreAnchored comparison.now.matching.now.new_of.items
        (anchors (compared comparison.now)) anchored.items) }
    ensures sized { IfOk result (λ anchored.
        length anchored.items ≡ object_count comparison.now.old.now.graph.heap.now) }
{
    let (old, new) = (comparison.old, comparison.new);
    let (heap, other) = (old.graph.heap, new.graph.heap);
    let mut anchored = vec![in alloc; false; heap.len() as usize]?;
    let named = comparison.named;
    for pair in named {
        anchor(&mut anchored, comparison, *pair);
    }
    let roots = Pair {
        old: heap.special(),
        new: other.special(),
    };
    anchor(&mut anchored, comparison, roots);
    Ok(anchored)
}

/// Notes that the pair of these objects is an anchor, if they are partners.
fn anchor(anchored: &mut Vec<bool>, comparison: &Comparison<'_>, pair: Pair)
    requires { length anchored.old.items ≡ object_count comparison.now.old.now.graph.heap.now }
    ensures anchored { (pairs : List APair) → AreAnchored comparison.now.matching.now.new_of.items
        pairs anchored.old.items → AreAnchored comparison.now.matching.now.new_of.items
        (pairs ++ pair ∷ []) anchored.new.items }
    ensures sized { length anchored.new.items ≡ length anchored.old.items }
{
    let matching = comparison.matching;
    if matching.new_of(pair.old) == Some(pair.new) {
        anchored[pair.old as usize] = true;
    }
}
