//! The groups of the objects that have no rows of their own.

ghost use Rattle.std.specs.Prelude.{◌≡◌, ◌<◌, All, IfOk};
ghost use Rattle.std.specs.List.{filter};
ghost use Rattle.sqz_image.specs.Objects.{object_count};
ghost use Rattle.sqz_answers.specs.GroupCounts.{AreCountsWithin};
ghost use Rattle.sqz_answers.specs.Smaller.{AreGroupsAt, AreGroupsBelow};
ghost use Rattle.sqz_answers.specs.Smaller.{AreGroupsOfRows, above_smaller};
ghost use Rattle.sqz_answers.specs.TopRows.{IsRowInside, is_smaller};
ghost use Rattle.sqz_answers.specs.TopTrees.{IsTopTree};

use crate::group_counts::{GroupCount, group_counts};
use crate::rows::{TopObjects, TopRow};
use crate::top_tree::TopTree;
use sqz_object::ObjectIndex;
use std::alloc::{AllocError, Global};

impl TopTree<'_> {
    /// Returns for each row the groups of the smaller objects that it stands for; none for a row of
    /// one object.
    pub(crate) fn groups_of_rows(
        &self,
        alloc: Global,
        rows: &[TopRow],
    ) -> Result<Vec<Vec<GroupCount>>, AllocError>
        requires tree { IsTopTree self.now }
        requires inside { All (IsRowInside (object_count self.now.graph.heap.now)) rows.now }
        ensures groups { IfOk result (λ groups. AreGroupsOfRows self.now.graph.heap.now
            self.now.graph.weak self.now.dominators.now self.now.parts.now self.now.limits
            rows.now groups.items) }
        ensures within { IfOk result (λ groups. All (λ counts.
            AreCountsWithin (object_count self.now.graph.heap.now) counts.items) groups.items) }
    {
        let mut groups = Vec::with_capacity(alloc, rows.len())?;
        for row in rows {
            groups.push(self.groups_of_row(alloc, *row)?)?;
        }
        Ok(groups)
    }

    /// Returns the groups of the smaller objects that a row stands for; none for a row of one
    /// object.
    fn groups_of_row(&self, alloc: Global, row: TopRow) -> Result<Vec<GroupCount>, AllocError>
        requires tree { IsTopTree self.now }
        requires inside { IsRowInside (object_count self.now.graph.heap.now) row }
        ensures groups { IfOk result (λ groups. AreGroupsAt self.now.graph.heap.now
            self.now.graph.weak self.now.dominators.now self.now.parts.now self.now.limits
            (above_smaller row) groups.items) }
        ensures within { IfOk result (λ groups.
            AreCountsWithin (object_count self.now.graph.heap.now) groups.items) }
    {
        match above_smaller(row) {
            Some(above) => self.groups_below(alloc, above),
            None => Ok(Vec::new(alloc)),
        }
    }

    /// Returns the groups of those objects on the level below the row of an object that have no row
    /// of their own.
    fn groups_below(
        &self,
        alloc: Global,
        object: ObjectIndex,
    ) -> Result<Vec<GroupCount>, AllocError>
        requires tree { IsTopTree self.now }
        requires inside { object < object_count self.now.graph.heap.now }
        ensures groups { IfOk result (λ counts. AreGroupsBelow self.now.graph.heap.now
            self.now.graph.weak self.now.dominators.now self.now.parts.now self.now.limits
            object counts.items) }
        ensures within { IfOk result (λ counts.
            AreCountsWithin (object_count self.now.graph.heap.now) counts.items) }
    {
        let level = self.level_of(alloc, object)?;
        let smaller = self.smaller_of(alloc, &level.below)?;
        group_counts(alloc, self.graph, &smaller)
    }

    /// Returns those of the objects that have no row of their own.
    fn smaller_of(
        &self,
        alloc: Global,
        below: &[ObjectIndex],
    ) -> Result<Vec<ObjectIndex>, AllocError>
        ensures { IfOk result (λ smaller. smaller.items
            ≡ filter (is_smaller self.now.dominators.now self.now.limits) below.now) }
    {
        let mut smaller = Vec::new(alloc);
        for object in below {
            if !self.is_shown(*object) {
                smaller.push(*object)?;
            }
        }
        Ok(smaller)
    }
}

/// Returns the object on whose level below the smaller objects of a row are, if it stands for such
/// objects.
fn above_smaller(row: TopRow) -> Option<ObjectIndex>
    ensures { result ≡ above_smaller row }
{
    match row.what {
        TopObjects::One { .. } => None,
        TopObjects::Smaller { .. } => row.parent,
    }
}
