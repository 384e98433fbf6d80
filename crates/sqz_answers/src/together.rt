//! What the objects of each group retain together.

ghost use Rattle.std.specs.Prelude.{◌≡◌, IfOk};
ghost use Rattle.sqz_answers.specs.Outermost.{IsGroupedTree};
ghost use Rattle.sqz_answers.specs.Together.{AreRetainedByGroups, AreRetainedByKeys};

use crate::group_keys::{COMPACT_INDEXES, class_keys};
use crate::outermost::GroupedTree;
use sqz_dominators::{children_of, dominators_of};
use sqz_image::laws::heap_bounds;
use sqz_trace::ObjectGraph;
use std::alloc::{AllocError, Global};

/// Returns for each group, by its number, the bytes of the live objects that an object of the group
/// dominates, each counted once.
pub(crate) fn retained_by_groups(
    alloc: Global,
    graph: ObjectGraph<'_>,
) -> Result<Vec<u64>, AllocError>
    ensures { IfOk result (λ sums.
        AreRetainedByGroups graph.entry.heap.now graph.entry.weak sums.items) }
{
    heap_bounds(graph.heap); // fewer than 2^30 objects and words
    let dominators = dominators_of(alloc, graph)?;
    let children = children_of(alloc, &dominators)?;
    let keys = class_keys(alloc, graph)?;
    let tree = GroupedTree {
        graph,
        dominators: &dominators,
        children: &children,
        keys: &keys,
        bound: graph.heap.len() + COMPACT_INDEXES,
    };
    tree.retained_together(alloc)
}

impl GroupedTree<'_> {
    /// Returns for each group, by its number, the bytes of the live objects that an object of the
    /// group dominates, each counted once: what its outermost objects retain.
    pub(crate) fn retained_together(&self, alloc: Global) -> Result<Vec<u64>, AllocError>
        requires { IsGroupedTree self.now }
        ensures { IfOk result (λ sums. AreRetainedByKeys self.now sums.items) }
    {
        let outermost = self.outermost(alloc)?;
        let mut sums = vec![in alloc; 0u64; self.bound as usize]?;
        for object in 0..self.graph.heap.len() {
            if outermost[object as usize] {
                let key = self.keys[object as usize];
                sums[key as usize] += self.dominators.retained(object).bytes;
            }
        }
        Ok(sums)
    }
}
