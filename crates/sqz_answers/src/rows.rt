//! What retains most: the rows of a dominator tree.

ghost use Rattle.std.specs.Prelude.{◌≡◌, ◌<◌, ◌≤◌, ◌+◌, ◌^◌, true, All, IfOk};
ghost use Rattle.std.specs.Prelude.{OnOk, length, option_to_list, sum_by};
ghost use Rattle.std.specs.List.{filter};
ghost use Rattle.sqz_image.specs.Objects.{object_count};
ghost use Rattle.sqz_trace.specs.Graph.{is_marked};
ghost use Rattle.sqz_dominators.specs.Children.{retained_bytes};
ghost use Rattle.sqz_dominators.specs.Retained.{AreDominators};
ghost use Rattle.sqz_answers.specs.GroupCounts.{AreCountsWithin};
ghost use Rattle.sqz_answers.specs.Levels.{held_value};
ghost use Rattle.sqz_answers.specs.Smaller.{AreGroupsOfRows};
ghost use Rattle.sqz_answers.specs.TopRows.{AreTopRows, IsRowInside, is_smaller, object_row};
ghost use Rattle.sqz_answers.specs.TopRows.{retained_objects, smaller_rows};
ghost use Rattle.sqz_answers.specs.TopTrees.{AddsRows, IsTopTree};

use crate::group_counts::GroupCount;
use crate::levels::Level;
use crate::limits::TopLimits;
use crate::top_tree::TopTree;
use crate::variable_parts::VariableParts;
use sqz_dominators::{Dominators, children_of};
use sqz_image::laws::heap_bounds;
use sqz_object::ObjectIndex;
use sqz_trace::Live;
use std::alloc::{AllocError, Global};

/// What a row stands for.
#[derive(Clone, Copy, Debug, PartialEq, Eq)]
pub enum TopObjects {
    /// An object, with the dictionaries and arrays under it that only hold variables. If it is the
    /// association of a variable and nothing else holds the value, with that value.
    One {
        object: ObjectIndex,
        value: Option<ObjectIndex>,
    },
    /// Objects that retain too little to have rows of their own.
    Smaller {
        count: u32,
    },
}

/// A row of a dominator tree.
#[derive(Clone, Copy, Debug, PartialEq, Eq)]
pub struct TopRow {
    /// What it stands for.
    pub what: TopObjects,
    /// The number of rows above it.
    pub depth: u32,
    /// The object of the row above it.
    pub parent: Option<ObjectIndex>,
    /// The bytes of the objects that it stands for; for smaller objects, what they retain.
    pub own: u64,
    /// The bytes that no row below it retains.
    pub apart: u64,
    /// The bytes that it retains.
    pub retained: u64,
    /// The number of objects that it retains.
    pub objects: u64,
}

/// The rows of a dominator tree, with the groups of the objects that have no rows of their own.
#[derive(Drop)]
pub struct TopRows {
    pub rows: Vec<TopRow>,
    /// For each row the groups of the smaller objects that it stands for, with their numbers of
    /// these objects: more objects come first, and on a tie classes by address, then compact
    /// indexes. A row of one object has no such groups.
    pub groups: Vec<Vec<GroupCount>>,
}

/// Where a row is.
#[derive(Clone, Copy, Debug, PartialEq, Eq)]
pub(crate) struct Place {
    /// The object that it stands for.
    pub(crate) object: ObjectIndex,
    /// The number of rows above it.
    pub(crate) depth: u32,
    /// The object of the row above it.
    pub(crate) parent: Option<ObjectIndex>,
}

/// Some objects together.
#[derive(Clone, Copy, Debug, PartialEq, Eq)]
struct Sums {
    count: u32,
    /// What they retain, in bytes.
    bytes: u64,
    /// The number of objects that they retain.
    objects: u64,
}

/// Returns the rows of the dominator tree, from that of a live object: each row before those below
/// it, and below a row those that retain most first. Below each row, the objects that retain too
/// little have one row together, for which the result has their groups.
pub fn top_rows(
    alloc: Global,
    live: &Live<'_>,
    dominators: &Dominators,
    parts: &VariableParts,
    limits: TopLimits,
) -> Result<TopRows, AllocError>
    requires dominators { AreDominators live.now.graph.heap.now live.now.graph.weak dominators.now }
    requires live { is_marked live.now.marks limits.root ≡ true }
    ensures rows { IfOk result (λ top. AreTopRows live.now.graph.heap.now
        live.now.graph.weak parts.now limits top.rows.items) }
    ensures groups { IfOk result (λ top. AreGroupsOfRows live.now.graph.heap.now
        live.now.graph.weak dominators.now parts.now limits top.rows.items top.groups.items) }
    ensures inside { IfOk result (λ top.
        All (IsRowInside (object_count live.now.graph.heap.now)) top.rows.items) }
    ensures within { IfOk result (λ top. All (λ counts.
        AreCountsWithin (object_count live.now.graph.heap.now) counts.items) top.groups.items) }
{
    heap_bounds(live.graph.heap); // fewer than 2^30 objects and words
    let children = children_of(alloc, dominators)?;
    let tree = TopTree {
        graph: live.graph,
        dominators,
        children: &children,
        parts,
        limits,
    };
    let first = Place {
        object: limits.root,
        depth: 0,
        parent: None,
    };
    let mut rows = Vec::new(alloc);
    push_rows(alloc, &tree, first, &mut rows)?;
    let groups = tree.groups_of_rows(alloc, &rows)?;
    Ok(TopRows { rows, groups })
}

/// Appends the row of an object and the rows below it.
fn push_rows(
    alloc: Global,
    tree: &TopTree<'_>,
    place: Place,
    rows: &mut Vec<TopRow>,
) -> Result<(), AllocError>
    requires tree { IsTopTree tree.now }
    requires inside { place.object < object_count tree.now.graph.heap.now }
    requires deep { place.depth ≤ tree.now.limits.depth }
    ensures { OnOk result (AddsRows tree.now place rows.old.items rows.new.items) }
{
    let level = tree.level_of(alloc, place.object)?;
    if place.depth == tree.limits.depth {
        let apart = tree.dominators.retained(place.object).bytes;
        rows.push(object_row(tree, place, &level, apart))?;
        return Ok(());
    }
    rows.push(object_row(tree, place, &level, level.own))?;
    for object in &level.below {
        if tree.is_shown(*object) {
            push_rows(alloc, tree, place_below(place, *object), rows)?;
        }
    }
    if let Some(row) = smaller_row(tree, place, &level.below) {
        rows.push(row)?;
    }
    Ok(())
}

/// Returns the place of an object on the level below.
fn place_below(above: Place, object: ObjectIndex) -> Place
    requires { above.depth + 1 < 2 ^ 32 }
    ensures object { result.object ≡ object }
    ensures depth { result.depth ≡ above.depth + 1 }
    ensures parent { result.parent ≡ Some above.object }
{
    Place {
        object,
        depth: above.depth + 1,
        parent: Some(above.object),
    }
}

/// Returns the row of an object.
fn object_row(tree: &TopTree<'_>, place: Place, level: &Level, apart: u64) -> TopRow
    requires { level.now.value
        ≡ held_value tree.now.dominators.now tree.now.parts.now place.object }
    ensures { result ≡ object_row tree.now.dominators.now tree.now.parts.now
        place.depth place.parent place.object level.now.own apart }
{
    let retained = tree.dominators.retained(place.object);
    TopRow {
        what: TopObjects::One {
            object: place.object,
            value: level.value,
        },
        depth: place.depth,
        parent: place.parent,
        own: level.own,
        apart,
        retained: retained.bytes,
        objects: u64::from(retained.objects),
    }
}

/// Returns the row of those objects on the level below that have no row of their own, if there are
/// any.
fn smaller_row(tree: &TopTree<'_>, above: Place, below: &[ObjectIndex]) -> Option<TopRow>
    requires tree { IsTopTree tree.now }
    requires few { length below.now ≤ 2 ^ 30 }
    requires deep { above.depth + 1 < 2 ^ 32 }
    ensures { option_to_list result ≡ smaller_rows tree.now.dominators.now (above.depth + 1)
        above.object (filter (is_smaller tree.now.dominators.now tree.now.limits) below.now) }
{
    let sums = sums_of_smaller(tree, below);
    if sums.count == 0 {
        return None;
    }
    Some(TopRow {
        what: TopObjects::Smaller { count: sums.count },
        depth: above.depth + 1,
        parent: Some(above.object),
        own: sums.bytes,
        apart: sums.bytes,
        retained: sums.bytes,
        objects: sums.objects,
    })
}

/// Adds up the objects that have no row of their own.
fn sums_of_smaller(tree: &TopTree<'_>, below: &[ObjectIndex]) -> Sums
    requires tree { IsTopTree tree.now }
    requires few { length below.now ≤ 2 ^ 30 }
    ensures count { result.count
        ≡ length (filter (is_smaller tree.now.dominators.now tree.now.limits) below.now) }
    ensures bytes { result.bytes ≡ sum_by (retained_bytes tree.now.dominators.now)
        (filter (is_smaller tree.now.dominators.now tree.now.limits) below.now) }
    ensures objects { result.objects ≡ sum_by (retained_objects tree.now.dominators.now)
        (filter (is_smaller tree.now.dominators.now tree.now.limits) below.now) }
{
    let mut sums = Sums {
        count: 0,
        bytes: 0,
        objects: 0,
    };
    for object in below {
        if !tree.is_shown(*object) {
            let retained = tree.dominators.retained(*object);
            sums.count += 1;
            sums.bytes += retained.bytes;
            sums.objects += u64::from(retained.objects);
        }
    }
    sums
}
