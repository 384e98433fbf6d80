//! How many of some objects each group has.

ghost use Rattle.std.specs.Prelude.{◌≡◌, ◌<◌, ◌≤◌, ◌^◌, All, IfOk, OnOk, drop, length, map, sum_by};
ghost use Rattle.std.specs.Map.{values_of};
ghost use Rattle.std.specs.BTreeMap.{IsOrdered};
ghost use Rattle.std.specs.Ordering.{nat_cmp};
ghost use Rattle.std.specs.List.Sorted.{IsPermutation, IsSortedBy, IsStableBy};
ghost use Rattle.sqz_image.specs.Objects.{object_count};
ghost use Rattle.sqz_histogram.specs.Keys.{group_with};
ghost use Rattle.sqz_answers.specs.GroupCounts.{AreCountsWithin, AreGroupCounts, AreTallies};
ghost use Rattle.sqz_answers.specs.GroupCounts.{count_at, has_more};

use crate::group_keys::key_of;
use sqz_facts::group_of;
use sqz_histogram::{Group, ObjectClasses};
use sqz_image::laws::heap_bounds;
use sqz_object::ObjectIndex;
use sqz_trace::ObjectGraph;
use std::alloc::{AllocError, Global};
use std::cmp::Reverse;
use std::collections::BTreeMap;

/// A group, and its number of objects among some.
#[derive(Clone, Copy, Debug, PartialEq, Eq)]
pub struct GroupCount {
    pub group: Group,
    pub objects: u32,
}

/// Returns the number of the objects of each group that has any: groups with more objects come
/// first; on a tie classes by address, and then compact indexes. It takes time n log n in the
/// objects.
pub(crate) fn group_counts(
    alloc: Global,
    graph: ObjectGraph<'_>,
    objects: &[ObjectIndex],
) -> Result<Vec<GroupCount>, AllocError>
    requires few { length objects.now ≤ 2 ^ 30 }
    requires inside { All (λ object. object < object_count graph.heap.now) objects.now }
    ensures counts { IfOk result (λ counts. AreGroupCounts graph.entry.heap.now
        graph.entry.weak objects.now counts.items) }
    ensures within { IfOk result (λ counts.
        AreCountsWithin (object_count graph.entry.heap.now) counts.items) }
{
    let tallies = tallies_of(alloc, graph, objects)?;
    let mut counts = counts_of(alloc, graph.heap.len(), &tallies)?;
    sort_counts(&mut counts)?;
    Ok(counts)
}

/// Returns the number of the objects of all groups but the first `named`.
pub fn objects_after(counts: &[GroupCount], named: usize) -> u64
    requires { sum_by (λ count. count.objects) counts.now < 2 ^ 64 }
    ensures { result ≡ sum_by (λ count. count.objects) (drop named counts.now) }
{
    let mut objects = 0u64;
    for index in named..counts.len() {
        objects += u64::from(counts[index].objects);
    }
    objects
}

/// Returns by the number of each group that has any of the objects how many it has.
fn tallies_of(
    alloc: Global,
    graph: ObjectGraph<'_>,
    objects: &[ObjectIndex],
) -> Result<BTreeMap<u32, u32>, AllocError>
    requires few { length objects.now ≤ 2 ^ 30 }
    requires inside { All (λ object. object < object_count graph.heap.now) objects.now }
    ensures tallies { IfOk result (λ tallies. AreTallies graph.entry.heap.now
        graph.entry.weak objects.now tallies) }
    ensures total { IfOk result (λ tallies.
        sum_by (λ number. number) (values_of tallies.entries) ≡ length objects.now) }
{
    heap_bounds(graph.heap); // fewer than 2^30 objects
    let count = graph.heap.len();
    let classes = ObjectClasses::of(alloc, graph)?;
    let mut tallies = BTreeMap::new(alloc);
    for object in objects {
        let key = key_of(count, group_of(&classes, *object));
        let before = tallies.get(&key).copied().unwrap_or(0);
        tallies.insert(key, before + 1)?;
    }
    Ok(tallies)
}

/// Returns tallies with groups in place of their numbers, in the same order.
fn counts_of(
    alloc: Global,
    count: u32,
    tallies: &BTreeMap<u32, u32>,
) -> Result<Vec<GroupCount>, AllocError>
    ensures counts { IfOk result (λ counts.
        counts.items ≡ map (count_at count) tallies.now.entries) }
    ensures ordered { IfOk result (λ counts. IsOrdered nat_cmp tallies.now) }
{
    let mut counts = Vec::with_capacity(alloc, tallies.len())?;
    for (key, objects) in tallies {
        counts.push(GroupCount {
            group: group_with(count, *key),
            objects: *objects,
        })?;
    }
    Ok(counts)
}

/// Returns the group with a number, given the number of objects.
fn group_with(count: u32, key: u32) -> Group
    ensures { result ≡ group_with count key }
{
    if key < count {
        Group::Class(key)
    } else {
        Group::Compact(key - count)
    }
}

/// Sorts groups by their numbers of objects, most first. On a tie they keep their order. If out of
/// memory, none has moved.
fn sort_counts(counts: &mut Vec<GroupCount>) -> Result<(), AllocError>
    ensures permutation { IsPermutation counts.old.items counts.new.items }
    ensures sorted { OnOk result (IsSortedBy has_more counts.new.items) }
    ensures stable { IsStableBy has_more counts.old.items counts.new.items }
{
    counts.sort_by_key(
        |count: &GroupCount| -> Reverse<u32>
            ensures { result ≡ record { 0 = count.now.objects } }
        { Reverse(count.objects) },
    )?;
    Ok(())
}
