//! The differences that are not quiet and the quiet ones, by their owners.

ghost use Rattle.std.specs.Prelude.{◌≡◌, ◌+◌, ◌<◌, ◌≤◌, ◌^◌, ◌∷◌, [], IfOk, OnOk, length, map};
ghost use Rattle.sqz_changes.specs.Compared.{compared};
ghost use Rattle.sqz_changes.specs.Differences.{at_places, common_slots, head_places, places_of};
ghost use Rattle.sqz_changes.specs.Differences.{slot_places};
ghost use Rattle.sqz_changes.specs.Tallies.{AreTallies, counted_in, none, tallied};
ghost use Rattle.sqz_changes.specs.Tallies.{with_place_of, with_places_of};

use crate::comparison::Comparison;
use crate::place::{Difference, Place};
use crate::tally::Tally;
use sqz_image::Slot;
use std::alloc::{AllocError, Global};

/// The shown and the quiet differences by their owners.
#[derive(Drop)]
pub(crate) struct Tallies {
    pub(crate) shown: Tally,
    pub(crate) quiet: Tally,
}

impl Tallies {
    /// Returns empty tallies for this number of owners.
    pub(crate) fn new(alloc: Global, owners: u32) -> Result<Self, AllocError>
        ensures tallies { IfOk result (AreTallies owners) }
        ensures none { IfOk result (λ tallies. tallied tallies ≡ none) }
        ensures counted { IfOk result (λ tallies. counted_in tallies ≡ 0) }
    {
        let shown = Tally::new(alloc, owners)?;
        let quiet = Tally::new(alloc, owners)?;
        Ok(Tallies { shown, quiet })
    }

    /// Adds the differences of a pair.
    pub(crate) fn add_pair(
        &mut self,
        alloc: Global,
        comparison: &Comparison<'_>,
        pair: u32,
        owner: u32,
    ) -> Result<(), AllocError>
        requires inside { pair < length comparison.now.matching.now.pairs.items }
        requires owner { owner < length comparison.now.matching.now.pairs.items }
        requires tallies { AreTallies (length comparison.now.matching.now.pairs.items) self.old }
        requires room { counted_in self.old + 2 ^ 33 < 2 ^ 63 }
        ensures tallied { OnOk result (tallied self.new ≡ with_places_of (compared comparison.now)
            owner (places_of (compared comparison.now) pair) (tallied self.old)) }
        ensures tallies { OnOk result (AreTallies
            (length comparison.now.matching.now.pairs.items) self.new) }
        ensures few { OnOk result (counted_in self.new ≤ counted_in self.old + 2 ^ 33) }
    {
        self.add_heads(alloc, comparison, pair, owner)?;
        self.add_slots(alloc, comparison, pair, owner)?;
        Ok(())
    }

    /// Adds the differences of a pair apart from those of slots.
    fn add_heads(
        &mut self,
        alloc: Global,
        comparison: &Comparison<'_>,
        pair: u32,
        owner: u32,
    ) -> Result<(), AllocError>
        requires inside { pair < length comparison.now.matching.now.pairs.items }
        requires owner { owner < length comparison.now.matching.now.pairs.items }
        requires tallies { AreTallies (length comparison.now.matching.now.pairs.items) self.old }
        requires room { counted_in self.old + 4 < 2 ^ 63 }
        ensures tallied { OnOk result (tallied self.new ≡ with_places_of (compared comparison.now)
            owner (at_places pair head_places) (tallied self.old)) }
        ensures tallies { OnOk result (AreTallies
            (length comparison.now.matching.now.pairs.items) self.new) }
        ensures few { OnOk result (counted_in self.new ≤ counted_in self.old + 4) }
    {
        self.add(alloc, comparison, Place::Header.of(pair), owner)?;
        self.add(alloc, comparison, Place::Hash.of(pair), owner)?;
        self.add(alloc, comparison, Place::Words.of(pair), owner)?;
        self.add(alloc, comparison, Place::Trailer.of(pair), owner)?;
        Ok(())
    }

    /// Adds the differences of a pair in slots.
    fn add_slots(
        &mut self,
        alloc: Global,
        comparison: &Comparison<'_>,
        pair: u32,
        owner: u32,
    ) -> Result<(), AllocError>
        requires inside { pair < length comparison.now.matching.now.pairs.items }
        requires owner { owner < length comparison.now.matching.now.pairs.items }
        requires tallies { AreTallies (length comparison.now.matching.now.pairs.items) self.old }
        requires room { counted_in self.old + 2 ^ 32 + 1 < 2 ^ 63 }
        ensures tallied { OnOk result (tallied self.new ≡ with_places_of (compared comparison.now)
            owner (at_places pair (slot_places (common_slots (compared comparison.now) pair)))
            (tallied self.old)) }
        ensures tallies { OnOk result (AreTallies
            (length comparison.now.matching.now.pairs.items) self.new) }
        ensures few { OnOk result (counted_in self.new ≤ counted_in self.old + 2 ^ 32 + 1) }
    {
        let count = comparison.common_fields(comparison.pair_at(pair));
        let class = Place::Slot(Slot::ClassWord);
        self.add(alloc, comparison, Difference { pair, place: class }, owner)?;
        for index in 0..count {
            let place = Place::Slot(Slot::Field(index));
            self.add(alloc, comparison, Difference { pair, place }, owner)?;
        }
        Ok(())
    }

    /// Adds a difference, if the objects of its pair differ there.
    fn add(
        &mut self,
        alloc: Global,
        comparison: &Comparison<'_>,
        at: Difference,
        owner: u32,
    ) -> Result<(), AllocError>
        requires inside { at.pair < length comparison.now.matching.now.pairs.items }
        requires owner { owner < length comparison.now.matching.now.pairs.items }
        requires tallies { AreTallies (length comparison.now.matching.now.pairs.items) self.old }
        requires room { counted_in self.old < 2 ^ 63 }
        ensures tallied { OnOk result (tallied self.new
            ≡ with_place_of (compared comparison.now) owner at (tallied self.old)) }
        ensures tallies { OnOk result (AreTallies
            (length comparison.now.matching.now.pairs.items) self.new) }
        ensures few { OnOk result (counted_in self.new ≤ counted_in self.old + 1) }
    {
        if !comparison.differs(alloc, at)? {
            return Ok(());
        }
        if comparison.is_quiet(at) {
            self.quiet.add(owner, at)?;
            return Ok(());
        }
        self.shown.add(owner, at)?;
        Ok(())
    }
}
