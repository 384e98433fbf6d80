//! The regions of a heap.

ghost use Rattle.std.specs.Prelude.{◌≡◌, ℕ, ◌+◌, ◌<◌, ◌≤◌, ◌↔◌, IfOk, IfErr};
ghost use Rattle.sqz_image.specs.declared.fault.Fault.TheVariants.{OutOfMemory};
ghost use Rattle.sqz_image.specs.Objects.{object_count};
ghost use Rattle.sqz_regions.specs.Regions.{region_count, region_at, objects_before};

use crate::cut::Cut;
use sqz_image::{Fault, Heap};
use sqz_object::ObjectIndex;
use std::alloc::Global;
use std::marker::Model;

/// The regions of a heap under a cut.
#[derive(Drop)]
pub struct Regions<'a> {
    heap: &'a Heap,
    cut: &'a Cut,
    /// For each region, the number of objects in it and in the regions before it.
    ends: Vec<u32>,
}

impl<'a> Model for Regions<'a> {
    ghost use Rattle.sqz_regions.specs.Regions.{Regioning};
    ghost use Rattle.sqz_regions.specs.Ends.{AreEnds};

    ghost Value = { Regioning };

    ghost view = { λ regions. record { cut = regions.cut.now; memory = regions.heap.now } };

    ghost invariant = { λ regions. AreEnds regions.cut.now regions.heap.now regions.ends.items };
}

impl<'a> Regions<'a> {
    /// Returns the regions of the heap under this cut. Takes time linear in the number of objects
    /// plus regions. Fails only if out of memory.
    pub fn of(alloc: Global, heap: &'a Heap, cut: &'a Cut) -> Result<Self, Fault>
        ensures regions { IfOk result (λ regions.
            regions ≡ record { cut = cut.now; memory = heap.now }) }
        ensures refused { IfErr result (λ fault. fault ≡ OutOfMemory) }
    {
        let count = cut.count(heap);
        let mut ends = Vec::with_capacity(alloc, count as usize)?;
        let mut end = 0;
        for region in 0..count {
            end = end_of(heap, cut, region, end);
            ends.push(end)?;
        }
        Ok(Regions { heap, cut, ends })
    }

    /// Returns the heap that is cut.
    pub fn heap(&self) -> &'a Heap
        ensures { result.now ≡ self.now.memory }
    {
        self.heap
    }

    /// Returns the number of regions. Each object is in one of them.
    pub fn count(&self) -> u32
        ensures count { result ≡ region_count self.now.cut self.now.memory }
        ensures all { objects_before self.now.cut self.now.memory result
            ≡ object_count self.now.memory }
    {
        self.cut.count(self.heap)
    }

    /// Returns the object's region: the number of cut points that are not above its chunk's first
    /// word. Takes constant time for a cut by `every`, and a binary search for one by `at`.
    pub fn region(&self, object: ObjectIndex) -> u32
        requires { object < object_count self.now.memory }
        ensures region { result ≡ region_at self.now.cut self.now.memory object }
        ensures inside { result < region_count self.now.cut self.now.memory }
    {
        self.cut.region(self.heap.first(object))
    }

    /// Returns the objects of a region: the index of the first, and the one after the last. For a
    /// region without objects both are the number of objects in the regions before.
    pub fn objects(&self, region: u32) -> (ObjectIndex, ObjectIndex)
        requires { region < region_count self.now.cut self.now.memory }
        ensures first { result.0 ≡ objects_before self.now.cut self.now.memory region }
        ensures end { result.1 ≡ objects_before self.now.cut self.now.memory (region + 1) }
        ensures ordered { result.0 ≤ result.1 }
        ensures inside { result.1 ≤ object_count self.now.memory }
        ensures exact { (object : ℕ) → object < object_count self.now.memory
            → ((result.0 ≤ object) × (object < result.1))
            ↔ (region_at self.now.cut self.now.memory object ≡ region) }
    {
        let region = region as usize;
        (self.before(region), self.before(region + 1))
    }

    /// Returns the number of objects in the regions before this one, or in all if it is the one
    /// after the last.
    fn before(&self, region: usize) -> u32
        requires { region ≤ region_count self.now.cut self.now.memory }
        ensures { result ≡ objects_before self.now.cut self.now.memory region }
    {
        if region == 0 {
            0
        } else {
            self.ends[region - 1]
        }
    }
}

/// Returns the number of objects in this region and in those before it. `known` is the number in
/// those before it.
fn end_of(heap: &Heap, cut: &Cut, region: u32, known: u32) -> u32
    requires { known ≡ objects_before cut.now heap.now region }
    ensures { result ≡ objects_before cut.now heap.now (region + 1) }
{
    let end = cut.end(region);
    let mut object = known;
    while object < heap.len() && u64::from(heap.first(object)) < end {
        object += 1;
    }
    object
}
