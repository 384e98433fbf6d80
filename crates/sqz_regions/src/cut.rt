//! Where data words are cut into regions.

ghost use Rattle.std.specs.Prelude.{◌≡◌, ℕ, ◌+◌, ◌^◌, ◌<◌, ◌≤◌, ◌↔◌, IfOk, IfErr, IsOk, IsTrue};
ghost use Rattle.sqz_image.specs.declared.fault.Fault.TheVariants.{BadCut};
ghost use Rattle.sqz_regions.specs.Regions.{Every, At, points_up_to, region_count};
ghost use Rattle.sqz_regions.specs.Cuts.{IsCutList, IsValidCut};

use sqz_image::{Fault, Heap};
use sqz_object::WordIndex;
use std::marker::Model;

/// The greatest number of words of a region, and the highest cut point.
const MOST: u32 = 1 << 30;

/// Where data words are cut into regions: at each multiple of a number of words, or at listed
/// words.
#[derive(Drop)]
pub struct Cut {
    division: Division,
}

#[derive(Drop)]
enum Division {
    /// At each positive multiple of this number of words.
    Every(u32),
    /// At these words, in ascending order.
    At(Vec<u32>),
}

impl Model for Cut {
    ghost use Rattle.sqz_regions.specs.Regions.{Cutting};
    ghost use Rattle.sqz_regions.specs.Cuts.{cutting_of, IsValidCut};

    ghost Value = { Cutting };

    ghost view = { λ cut. cutting_of cut.division };

    ghost invariant = { λ cut. IsValidCut (cutting_of cut.division) };
}

impl Cut {
    /// Returns a cut every `words` words. Fails with `BadCut` unless `words` is from 1 to 2^30.
    pub fn every(words: u32) -> Result<Cut, Fault>
        ensures cut { IfOk result (λ cut. cut ≡ Every words) }
        ensures refused { IfErr result (λ fault. fault ≡ BadCut) }
        ensures exact { IsOk result ↔ ((1 ≤ words) × (words ≤ 2 ^ 30)) }
    {
        if words == 0 || words > MOST {
            return Err(Fault::BadCut);
        }
        Ok(Cut {
            division: Division::Every(words),
        })
    }

    /// Returns a cut at these words; an empty list gives one region. The program itself uses only
    /// `every`. Fails with `BadCut`, and drops the list, unless each word is above the one before
    /// and none is above 2^30.
    pub fn at(list: Vec<u32>) -> Result<Cut, Fault>
        ensures cut { IfOk result (λ cut. cut ≡ At list.items) }
        ensures refused { IfErr result (λ fault. fault ≡ BadCut) }
        ensures exact { IsOk result ↔ IsCutList list.items }
    {
        if !is_cut_list(&list) {
            return Err(Fault::BadCut);
        }
        Ok(Cut {
            division: Division::At(list),
        })
    }

    /// Returns the number of regions of the heap.
    pub(crate) fn count(&self, heap: &Heap) -> u32
        ensures count { result ≡ region_count self.now heap.now }
        ensures few { result ≤ 2 ^ 30 + 2 }
        ensures valid { IsValidCut self.now }
    {
        match &self.division {
            Division::Every(words) => (heap.words() + (*words - 1)) / *words,
            Division::At(points) => points.len() as u32 + 1,
        }
    }

    /// Returns the region that a word is in.
    pub(crate) fn region(&self, word: WordIndex) -> u32
        ensures region { result ≡ points_up_to self.now word }
        ensures valid { IsValidCut self.now }
    {
        match &self.division {
            Division::Every(words) => word / *words,
            Division::At(points) => points.partition_point(|point| *point <= word) as u32,
        }
    }

    /// Returns the index of the first word after this region, or 2^32 if no cut point follows it.
    /// Takes constant time.
    pub(crate) fn end(&self, region: u32) -> u64
        ensures { (word : ℕ) → word < 2 ^ 32 → (word < result)
            ↔ (points_up_to self.now word ≤ region) }
    {
        match &self.division {
            Division::Every(words) => (u64::from(region) + 1) * u64::from(*words),
            Division::At(points) => match points.get(region as usize) {
                Some(point) => u64::from(*point),
                None => 1 << 32,
            },
        }
    }
}

/// Returns whether each point is above the one before, and none above 2^30.
fn is_cut_list(points: &[u32]) -> bool
    ensures { IsTrue result ↔ IsCutList points.now }
{
    let mut lowest = 0;
    for point in points {
        if *point < lowest || *point > MOST {
            return false;
        }
        lowest = *point + 1;
    }
    true
}
