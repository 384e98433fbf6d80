//! The objects of a group, the live ones with what they retain.

ghost use Rattle.std.specs.Prelude.{◌≡◌, ◌<◌, ℕ, All, IfOk, OnOk, map};
ghost use Rattle.std.specs.List.Sorted.{IsPermutation, IsSortedBy, IsStableBy};
ghost use Rattle.sqz_image.specs.Objects.{object_count};
ghost use Rattle.sqz_trace.specs.Avoiding.{MarksListed};
ghost use Rattle.sqz_answers.specs.Listings.{IsDeadListing, IsListing, listed_by, retains_more};

use crate::cut_off::retained_by;
use sqz_dominators::{Dominators, dominators_of};
use sqz_facts::{Member, marked_bytes, members_of};
use sqz_histogram::Group;
use sqz_object::ObjectIndex;
use sqz_trace::{Live, Marks, complement};
use std::alloc::{AllocError, Global};
use std::cmp::Reverse;

/// A live object of a group.
#[derive(Clone, Copy, Debug, PartialEq, Eq)]
pub struct Listed {
    /// The index of the object.
    pub object: ObjectIndex,
    /// The bytes of its chunk, header words included.
    pub bytes: u64,
    /// The bytes that it retains.
    pub retained: u64,
}

/// The live objects of a group.
#[derive(Drop)]
pub struct Listing {
    /// The objects: longer ones first, and on a tie those with lower addresses.
    pub rows: Vec<Listed>,
    /// The bytes of all of them.
    pub bytes: u64,
    /// The bytes that they retain together.
    pub retained_together: u64,
}

/// Returns the live objects of a group, with what each retains and what they retain together.
pub fn listing_of(alloc: Global, live: &Live<'_>, group: Group) -> Result<Listing, AllocError>
    ensures listing { IfOk result (λ listing. IsListing live.now.graph.heap.now
        live.now.graph.weak live.now.marks group listing) }
    ensures inside { IfOk result (λ listing. All (λ row.
        row.object < object_count live.now.graph.heap.now) listing.rows.items) }
{
    let members = members_of(alloc, live.graph, &live.marks, group)?;
    let dominators = dominators_of(alloc, live.graph)?;
    let set = set_of(alloc, live, &members)?;
    Ok(Listing {
        rows: rows_of(alloc, &dominators, &members)?,
        bytes: marked_bytes(live.graph.heap, &set),
        retained_together: retained_by(alloc, live, &set)?,
    })
}

/// Sorts rows by what they retain, most first. On a tie they keep their order. If out of memory,
/// none has moved.
pub fn sort_by_retained(rows: &mut Vec<Listed>) -> Result<(), AllocError>
    ensures permutation { IsPermutation rows.old.items rows.new.items }
    ensures sorted { OnOk result (IsSortedBy retains_more rows.new.items) }
    ensures stable { IsStableBy retains_more rows.old.items rows.new.items }
    ensures inside { (count : ℕ) → All (λ row. row.object < count) rows.old.items
        → All (λ row. row.object < count) rows.new.items }
{
    rows.sort_by_key(
        |row: &Listed| -> Reverse<u64>
            ensures { result ≡ record { 0 = row.now.retained } }
        { Reverse(row.retained) },
    )?;
    Ok(())
}

/// The objects of a group that are not live.
#[derive(Drop)]
pub struct DeadListing {
    /// The objects: longer ones first, and on a tie those with lower addresses.
    pub rows: Vec<Member>,
    /// The bytes of all of them.
    pub bytes: u64,
}

/// Returns the objects of a group that are not live. Its class need not be live.
pub fn dead_listing_of(
    alloc: Global,
    live: &Live<'_>,
    group: Group,
) -> Result<DeadListing, AllocError>
    ensures listing { IfOk result (λ listing. IsDeadListing live.now.graph.heap.now
        live.now.graph.weak live.now.marks group listing) }
    ensures inside { IfOk result (λ listing. All (λ row.
        row.object < object_count live.now.graph.heap.now) listing.rows.items) }
{
    let dead = complement(alloc, live.graph.heap, &live.marks)?;
    let rows = members_of(alloc, live.graph, &dead, group)?;
    let set = set_of(alloc, live, &rows)?;
    let bytes = marked_bytes(live.graph.heap, &set);
    Ok(DeadListing { rows, bytes })
}

/// Returns the rows of members.
fn rows_of(
    alloc: Global,
    dominators: &Dominators,
    members: &[Member],
) -> Result<Vec<Listed>, AllocError>
    ensures { IfOk result (λ rows. rows.items ≡ map (listed_by dominators.now) members.now) }
{
    let mut rows = Vec::with_capacity(alloc, members.len())?;
    for member in members {
        rows.push(Listed {
            object: member.object,
            bytes: 4 * u64::from(member.words),
            retained: dominators.retained(member.object).bytes,
        })?;
    }
    Ok(rows)
}

/// Returns the set of members, as marks.
fn set_of(alloc: Global, live: &Live<'_>, members: &[Member]) -> Result<Marks, AllocError>
    ensures { IfOk result (λ set. MarksListed (object_count live.now.graph.heap.now)
        (map (λ member. member.object) members.now) set) }
{
    let mut objects = Vec::with_capacity(alloc, members.len())?;
    for member in members {
        objects.push(member.object)?;
    }
    Marks::listed(alloc, live.graph.heap, &objects)
}
