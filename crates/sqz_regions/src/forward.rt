//! The new address of each live object.

ghost use Rattle.std.specs.Prelude.{◌≡◌, ◌+◌, ◌*◌, ◌^◌, ◌<◌, ◌≤◌, None, length, slice_index_or};
ghost use Rattle.std.specs.Prelude.{IfOk, IfErr, IfSome};
ghost use Rattle.std.specs.List.{concat, flat_map};
ghost use Rattle.sqz_image.specs.declared.fault.Fault.TheVariants.{OutOfMemory};
ghost use Rattle.sqz_image.specs.Objects.{object_count};
ghost use Rattle.sqz_trace.specs.Live.{live_words_below};
ghost use Rattle.sqz_regions.specs.Bases.{AreBasesOf, ArePlacesOf};
ghost use Rattle.sqz_regions.specs.Entries.{AreEntriesOf, range_begin, AreEntriesOfRange};

use crate::regions::Regions;
use rayon::prelude::*;
use sqz_image::laws::heap_bounds;
use sqz_image::{Fault, Heap};
use sqz_object::{Address, ObjectIndex};
use sqz_trace::Marks;
use std::alloc::{AllocError, Global};
use std::marker::Model;
use std::ops::Range;
use std::thread::Threads;

/// The entry of an object that is not marked. It is not an address, since addresses are even.
const DEAD: u32 = u32::MAX;

/// The number of objects of a range, before its ends are moved to the first objects of their
/// regions.
const RANGE: u32 = 4096;

/// The place of each marked object: its new address (the forwarding address) in the compacted
/// memory. Contracts see a list with an entry for each object: the new address of its base header,
/// or none.
#[derive(Drop)]
pub struct Forward {
    /// The new address of each object, or `DEAD`. Addresses are multiples of four.
    places: Vec<Address>,
}

impl Model for Forward {
    ghost use Rattle.std.specs.Prelude.{ℕ, List, Option, map};
    ghost use Rattle.sqz_regions.specs.Entries.{HaveRoom};
    ghost use Rattle.sqz_regions.specs.Places.{place_of_entry};

    ghost Value = { List (Option ℕ) };

    ghost view = { λ forward. map place_of_entry forward.places.items };

    ghost invariant = { λ forward. HaveRoom forward.places.items };
}

impl Forward {
    /// Returns the new addresses of the marked objects, by the bases of their regions. If there
    /// are more than 4096 objects and more than one region, several threads build them, and each
    /// takes whole regions. Fails only if out of memory.
    pub fn build(
        rt: &(impl Threads + Sync),
        alloc: Global,
        heap: &Heap,
        regions: &Regions<'_>,
        marks: &Marks,
        bases: &[u64],
    ) -> Result<Forward, Fault>
        requires regions { regions.now.memory ≡ heap.now }
        requires sized { length marks.now ≡ object_count heap.now }
        requires bases { AreBasesOf regions.now marks.now bases.now }
        ensures places { IfOk result (λ forward. ArePlacesOf heap.now marks.now forward) }
        ensures refused { IfErr result (λ fault. fault ≡ OutOfMemory) }
    {
        let ranges = heap.len().div_ceil(RANGE);
        let parts = (0..ranges)
            .into_par_iter()
            .with_min_len(1)
            .map(
                |range: u32| -> Result<Vec<u32>, AllocError>
                    requires inside { range * RANGE < object_count regions.now.memory }
                    requires sized { length marks.now ≡ object_count regions.now.memory }
                    requires bases { AreBasesOf regions.now marks.now bases.now }
                    ensures { IfOk result (λ places.
                        AreEntriesOfRange regions.entry.now.cut regions.entry.now.memory
                        marks.entry.now range places.items) }
                { range_places(alloc, regions, marks, bases, range) },
            )
            .collect::<Result<Vec<Vec<u32>>, AllocError>>(rt, alloc)??;
        let places = concat_parts(alloc, heap.len(), &parts)?;
        Ok(Forward { places })
    }

    /// Returns the new address of the object's base header; None for an object that is not marked.
    pub fn place(&self, object: ObjectIndex) -> Option<Address>
        requires { object < length self.now }
        ensures place { result ≡ slice_index_or self.now object None }
        ensures within { IfSome result (λ place. place + 4 ≤ 2 ^ 32) }
    {
        let place = self.places[object as usize];
        if place == DEAD { None } else { Some(place) }
    }
}

/// Returns the first object of the range with this number: the first one of the region of object
/// `range * RANGE`. After the last range it is the number of objects.
fn first_of_range(regions: &Regions<'_>, objects: u32, range: u32) -> ObjectIndex
    requires objects { objects ≡ object_count regions.now.memory }
    requires few { range * RANGE < 2 ^ 32 }
    ensures { result ≡ range_begin regions.now.cut regions.now.memory range }
{
    let object = range * RANGE;
    if object < objects {
        regions.objects(regions.region(object)).0
    } else {
        objects
    }
}

/// Returns the entries of the objects of the range with this number.
fn range_places(
    alloc: Global,
    regions: &Regions<'_>,
    marks: &Marks,
    bases: &[u64],
    range: u32,
) -> Result<Vec<u32>, AllocError>
    requires inside { range * RANGE < object_count regions.now.memory }
    requires sized { length marks.now ≡ object_count regions.now.memory }
    requires bases { AreBasesOf regions.now marks.now bases.now }
    ensures { IfOk result (λ places.
        AreEntriesOfRange regions.now.cut regions.now.memory marks.now range places.items) }
{
    let heap = regions.heap();
    let objects = heap.len();
    let region = regions.region(range * RANGE);
    let (from, _) = regions.objects(region);
    let to = first_of_range(regions, objects, range + 1);
    heap_bounds(heap); // all words have addresses up to 2^32
    places_between(alloc, heap, marks, from..to, bases[region as usize])
}

/// Returns the entries of these objects; the first live one goes to `address`.
fn places_between(
    alloc: Global,
    heap: &Heap,
    marks: &Marks,
    objects: Range<ObjectIndex>,
    address: u64,
) -> Result<Vec<u32>, AllocError>
    requires ordered { objects.start ≤ objects.end }
    requires inside { objects.end ≤ object_count heap.now }
    requires sized { length marks.now ≡ object_count heap.now }
    requires begins { address ≡ heap.now.base + 4 * live_words_below heap.now marks.now
        objects.start }
    requires within { heap.now.base + 4 * length (concat heap.now.chunks) ≤ 2 ^ 32 }
    ensures { IfOk result (λ places.
        AreEntriesOf heap.now marks.now objects.start objects.end places.items) }
{
    let from = objects.start;
    let to = objects.end;
    let mut places = Vec::with_capacity(alloc, (to - from) as usize)?;
    let mut next = address;
    for object in from..to {
        if marks.has(object) {
            let chunk = heap.chunk(object);
            places.push((next + 4 * u64::from(chunk.before)) as u32)?;
            next += 4 * u64::from(chunk.length);
        } else {
            places.push(DEAD)?;
        }
    }
    Ok(places)
}

/// Concatenates the entries of all ranges.
fn concat_parts(alloc: Global, objects: u32, parts: &[Vec<u32>]) -> Result<Vec<u32>, AllocError>
    ensures { IfOk result (λ places. places.items ≡ flat_map (λ part. part.items) parts.now) }
{
    let mut places = Vec::with_capacity(alloc, objects as usize)?;
    for part in parts {
        places.extend_from_slice(part)?;
    }
    Ok(places)
}
