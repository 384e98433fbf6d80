//! Which objects of two images are partners.

ghost use Rattle.std.specs.Prelude.{◌≡◌, ◌<◌, Contains, IfOk, OnOk};
ghost use Rattle.sqz_image.specs.Objects.{object_count};
ghost use Rattle.sqz_alike.specs.Alike.{IsOneToOne};
ghost use Rattle.sqz_alike.specs.Matching.{IsMatching, are_free};
ghost use Rattle.sqz_alike.specs.Partners.{AreFound, are_live, are_of_one_kind};
ghost use Rattle.sqz_alike.specs.Partners.{are_partners, common_slots, offer};
ghost use Rattle.sqz_alike.specs.Partners.{offer_slots, offer_targets, seen_sides};
ghost use Rattle.sqz_alike.specs.Walk.{IsWalk};

use crate::matching::{Matching, Pair};
use crate::seen::seen_target;
use crate::sides::Sides;
use sqz_image::Slot;
use sqz_trace::traced_fields;
use std::alloc::{AllocError, Global};

/// Returns which live objects of two images are partners, one to one. Two objects that are offered
/// as a pair become partners if neither has a partner, and both have the same number. The named
/// pairs are offered first, then the special objects arrays, and then, breadth first, what the same
/// slot of both partners of a pair leads to: the class word before the fields. A slot that points
/// to a dead object counts as nil.
///
/// Takes time and memory linear in the objects and the named pairs. Fails only if out of memory.
pub fn partners_of(alloc: Global, sides: &Sides<'_>, named: &[Pair]) -> Result<Matching, AllocError>
    ensures found { IfOk result (λ found.
        AreFound (seen_sides sides.now) named.now found.pairs.items) }
    ensures once { IfOk result (λ found. IsOneToOne found.pairs.items) }
    ensures walk { IfOk result (IsWalk sides.now.old.now sides.now.new.now) }
{
    let (old, new) = (sides.old, sides.new);
    let (heap, other) = (old.graph.heap, new.graph.heap);
    let mut matching = Matching::new(alloc, heap.len(), other.len())?;
    for pair in named {
        matching.offer(sides, *pair)?;
    }
    let roots = Pair {
        old: heap.special(),
        new: other.special(),
    };
    matching.offer(sides, roots)?;
    let mut next = 0;
    while next < matching.pairs.len() {
        let pair = matching.pairs[next];
        matching.offer_slots(sides, pair)?;
        next += 1;
    }
    Ok(matching)
}

impl Matching {
    /// Pairs two objects if they can be partners.
    fn offer(&mut self, sides: &Sides<'_>, pair: Pair) -> Result<(), AllocError>
        requires walk { IsWalk sides.now.old.now sides.now.new.now self.old }
        ensures walk { OnOk result (IsWalk sides.now.old.now sides.now.new.now self.new) }
        ensures pairs { OnOk result (self.new.pairs.items
            ≡ offer (seen_sides sides.now) self.old.pairs.items pair) }
    {
        if self.are_partners(sides, pair) {
            self.join(pair)?;
        }
        Ok(())
    }

    /// Returns whether two objects can become partners: whether they are live, neither has a
    /// partner, and they have the same number.
    fn are_partners(&self, sides: &Sides<'_>, pair: Pair) -> bool
        requires walk { IsWalk sides.now.old.now sides.now.new.now self.now }
        ensures { result ≡ are_partners (seen_sides sides.now) self.now.pairs.items pair }
    {
        are_live(sides, pair) && self.are_free(pair) && are_of_one_kind(sides, pair)
    }

    /// Returns whether two objects have no partners.
    fn are_free(&self, pair: Pair) -> bool
        requires { IsMatching self.now.pairs.items self.now.new_of.items self.now.old_of.items }
        ensures { result ≡ are_free self.now.pairs.items pair }
    {
        self.new_of(pair.old).is_none() && self.old_of(pair.new).is_none()
    }

    /// Pairs what the slots of a pair lead to, if they can be partners: the class word before the
    /// fields.
    fn offer_slots(&mut self, sides: &Sides<'_>, pair: Pair) -> Result<(), AllocError>
        requires walk { IsWalk sides.now.old.now sides.now.new.now self.old }
        requires paired { Contains self.old.pairs.items pair }
        ensures walk { OnOk result (IsWalk sides.now.old.now sides.now.new.now self.new) }
        ensures pairs { OnOk result (self.new.pairs.items ≡ offer_slots (seen_sides sides.now)
            self.old.pairs.items pair (common_slots (seen_sides sides.now) pair)) }
    {
        let (old, new) = (sides.old, sides.new);
        let (object, other) = (
            old.graph.heap.object(pair.old),
            new.graph.heap.object(pair.new),
        );
        let count = traced_fields(&object).min(traced_fields(&other));
        self.offer_targets(sides, pair, Slot::ClassWord)?;
        for index in 0..count {
            self.offer_targets(sides, pair, Slot::Field(index))?;
        }
        Ok(())
    }

    /// Pairs what a slot of a pair leads to in both images, if they can be partners.
    fn offer_targets(&mut self, sides: &Sides<'_>, pair: Pair, slot: Slot) -> Result<(), AllocError>
        requires walk { IsWalk sides.now.old.now sides.now.new.now self.old }
        requires old { pair.old < object_count sides.now.old.now.graph.heap.now }
        requires new { pair.new < object_count sides.now.new.now.graph.heap.now }
        ensures walk { OnOk result (IsWalk sides.now.old.now sides.now.new.now self.new) }
        ensures pairs { OnOk result (self.new.pairs.items
            ≡ offer_targets (seen_sides sides.now) self.old.pairs.items pair slot) }
    {
        let found = seen_target(sides.old, pair.old, slot);
        let other = seen_target(sides.new, pair.new, slot);
        match (found, other) {
            (Some(old), Some(new)) => self.offer(sides, Pair { old, new }),
            _ => Ok(()),
        }
    }
}

/// Returns whether both objects are live.
fn are_live(sides: &Sides<'_>, pair: Pair) -> bool
    ensures { result ≡ are_live (seen_sides sides.now) pair }
{
    let (old, new) = (sides.old, sides.new);
    old.marks.has(pair.old) && new.marks.has(pair.new)
}

/// Returns whether two objects have the same number.
fn are_of_one_kind(sides: &Sides<'_>, pair: Pair) -> bool
    requires old { pair.old < object_count sides.now.old.now.graph.heap.now }
    requires new { pair.new < object_count sides.now.new.now.graph.heap.now }
    ensures { result ≡ are_of_one_kind (seen_sides sides.now) pair }
{
    let (old, new) = (sides.old_kinds, sides.new_kinds);
    old[pair.old as usize] == new[pair.new as usize]
}
