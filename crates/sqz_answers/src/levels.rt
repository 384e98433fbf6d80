//! The level below a row.

ghost use Rattle.std.specs.Prelude.{◌≡◌, ◌<◌, ◌≤◌, ◌^◌, ◌*◌, ◌++◌, All, IfOk, OnOk};
ghost use Rattle.std.specs.Prelude.{length, map, not, sum_by};
ghost use Rattle.std.specs.List.{filter};
ghost use Rattle.std.specs.List.Sorted.{IsPermutation, IsSortedBy};
ghost use Rattle.sqz_image.specs.Objects.{object_count, chunk_words};
ghost use Rattle.sqz_answers.specs.Levels.{held_value, is_before, is_joined};
ghost use Rattle.sqz_answers.specs.Splits.{IsSplitOf};
ghost use Rattle.sqz_answers.specs.TopTrees.{IsTopTree, IsLevelOf, children_in};

use crate::top_tree::TopTree;
use sqz_image::Heap;
use sqz_object::ObjectIndex;
use std::alloc::{AllocError, Global};
use std::cmp::Reverse;

/// What a row stands for, and the level below it.
#[derive(Drop)]
pub(crate) struct Level {
    /// The value of the variable whose association the row's object is, if nothing else holds the
    /// value.
    pub(crate) value: Option<ObjectIndex>,
    /// The bytes of the objects that the row stands for: the row's object, this value, and the
    /// dictionaries and arrays under them that only hold variables.
    pub(crate) own: u64,
    /// The objects on the level below, those that retain most first.
    pub(crate) below: Vec<ObjectIndex>,
}

/// The objects under a row, while they are found.
#[derive(Drop)]
struct Split {
    /// Those that the row stands for.
    parts: Vec<ObjectIndex>,
    /// The other children of these.
    below: Vec<ObjectIndex>,
}

/// An object with the bytes that it retains.
#[derive(Clone, Copy)]
struct MeasuredObject {
    object: ObjectIndex,
    retained: u64,
}

/// Returns the objects without what they retain.
fn objects_of(alloc: Global, measured: &[MeasuredObject]) -> Result<Vec<ObjectIndex>, AllocError>
    ensures { IfOk result (λ objects. objects.items ≡ map (λ one. one.object) measured.now) }
{
    let mut objects = Vec::with_capacity(alloc, measured.len())?;
    for one in measured {
        objects.push(one.object)?;
    }
    Ok(objects)
}

impl TopTree<'_> {
    /// Returns the level below the row of an object.
    pub(crate) fn level_of(&self, alloc: Global, object: ObjectIndex) -> Result<Level, AllocError>
        requires tree { IsTopTree self.now }
        requires inside { object < object_count self.now.graph.heap.now }
        ensures { IfOk result (λ level. IsLevelOf self.now object level) }
    {
        let value = self.held_value(object);
        let split = self.split(alloc, object, value)?;
        let own = own_bytes(self.graph.heap, &split.parts);
        let below = self.in_order(alloc, &split.below)?;
        Ok(Level { value, own, below })
    }

    /// Returns objects in the order of what they retain, most first; on a tie by index.
    fn in_order(
        &self,
        alloc: Global,
        objects: &[ObjectIndex],
    ) -> Result<Vec<ObjectIndex>, AllocError>
        ensures permutation { IfOk result (λ sorted. IsPermutation objects.now sorted.items) }
        ensures sorted { IfOk result (λ sorted.
            IsSortedBy (is_before self.now.dominators.now) sorted.items) }
    {
        let mut measured = Vec::with_capacity(alloc, objects.len())?;
        for object in objects {
            let retained = self.dominators.retained(*object).bytes;
            let object = *object;
            measured.push(MeasuredObject { object, retained })?;
        }
        measured.sort_unstable_by_key(
            |one: &MeasuredObject| -> (Reverse<u64>, ObjectIndex)
                ensures { result ≡ (record { 0 = one.now.retained }, one.now.object) }
            { (Reverse(one.retained), one.object) },
        );
        objects_of(alloc, &measured)
    }

    /// Returns the parts of the row of an object, and the other children of these. Each object is a
    /// part once.
    fn split(
        &self,
        alloc: Global,
        object: ObjectIndex,
        value: Option<ObjectIndex>,
    ) -> Result<Split, AllocError>
        requires tree { IsTopTree self.now }
        requires inside { object < object_count self.now.graph.heap.now }
        requires value { value ≡ held_value self.now.dominators.now self.now.parts.now object }
        ensures { IfOk result (λ split. IsSplitOf self.now object
            (length split.parts.items) split.parts.items split.below.items) }
    {
        let mut split = Split {
            parts: Vec::new(alloc),
            below: Vec::new(alloc),
        };
        split.parts.push(object)?;
        let mut at = 0;
        while at < split.parts.len() {
            let part = split.parts[at];
            self.push_children(part, value, &mut split)?;
            at += 1;
        }
        Ok(split)
    }

    /// Appends the children of a part to the parts, or to the level below.
    fn push_children(
        &self,
        part: ObjectIndex,
        value: Option<ObjectIndex>,
        split: &mut Split,
    ) -> Result<(), AllocError>
        ensures parts { OnOk result (split.new.parts.items ≡ split.old.parts.items
            ++ filter (is_joined self.now.parts.now value) (children_in self.now part)) }
        ensures below { OnOk result (split.new.below.items ≡ split.old.below.items
            ++ filter (λ child. not (is_joined self.now.parts.now value child))
            (children_in self.now part)) }
    {
        for child in self.children.of(part) {
            if self.is_joined(value, child.object) {
                split.parts.push(child.object)?;
            } else {
                split.below.push(child.object)?;
            }
        }
        Ok(())
    }
}

/// Returns the bytes of the chunks of objects, header words included.
pub(crate) fn own_bytes(heap: &Heap, objects: &[ObjectIndex]) -> u64
    requires few { length objects.now ≤ 2 ^ 30 }
    requires inside { All (λ object. object < object_count heap.now) objects.now }
    ensures { result ≡ 4 * sum_by (λ object. length (chunk_words heap.now object)) objects.now }
{
    let mut words = 0u64;
    for object in objects {
        words += u64::from(heap.chunk_length(*object));
    }
    4 * words
}
