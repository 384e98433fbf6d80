//! Whether two objects match.

ghost use Rattle.std.specs.Prelude.{◌≡◌, IfOk, IsTrue, OnOk, Contains};
ghost use Rattle.sqz_alike.specs.Alike.{ObjectsMatch, SlotMatches};
ghost use Rattle.sqz_alike.specs.FirstDifference.{any_kind};
ghost use Rattle.sqz_alike.specs.Partners.{common_slots, offer_slots, offer_targets};
ghost use Rattle.sqz_alike.specs.Seen.{seen};
ghost use Rattle.sqz_alike.specs.Walk.{FirstSlotsMatch, Finds, IsWalk};

use crate::matching::{Matching, Pair};
use crate::seen::seen_target;
use crate::words::words_match;
use sqz_image::Slot;
use sqz_trace::{Live, slot_word, traced_fields};
use std::alloc::AllocError;

/// Returns whether the objects of a pair match. The objects that their slots lead to become pairs.
pub(crate) fn objects_match(
    old: &Live<'_>,
    new: &Live<'_>,
    pair: Pair,
    matching: &mut Matching,
) -> Result<bool, AllocError>
    requires walk { IsWalk old.now new.now matching.old }
    requires paired { Contains matching.old.pairs.items pair }
    ensures walk { OnOk result (IsWalk old.now new.now matching.new) }
    ensures finds { IfOk result (Finds
        (λ pairs. ObjectsMatch (seen old.now) (seen new.now) pairs pair)
        matching.old.pairs.items matching.new.pairs.items) }
    ensures offered { IfOk result (λ found. IsTrue found → matching.new.pairs.items
        ≡ offer_slots (any_kind (seen old.now) (seen new.now)) matching.old.pairs.items pair
        (common_slots (any_kind (seen old.now) (seen new.now)) pair)) }
{
    let (heap, other_heap) = (old.graph.heap, new.graph.heap);
    let (object, other) = (heap.object(pair.old), other_heap.object(pair.new));
    if !words_match(heap.order(), &object, other_heap.order(), &other) {
        return Ok(false);
    }
    slots_match(old, new, pair, traced_fields(&object), matching)
}

/// Returns whether the class word and the first `count` fields of a pair match, as slots. The
/// objects that they lead to become pairs, in this order.
fn slots_match(
    old: &Live<'_>,
    new: &Live<'_>,
    pair: Pair,
    count: u32,
    matching: &mut Matching,
) -> Result<bool, AllocError>
    requires walk { IsWalk old.now new.now matching.old }
    requires paired { Contains matching.old.pairs.items pair }
    ensures walk { OnOk result (IsWalk old.now new.now matching.new) }
    ensures finds { IfOk result (Finds (FirstSlotsMatch (seen old.now) (seen new.now) pair count)
        matching.old.pairs.items matching.new.pairs.items) }
    ensures offered { IfOk result (λ found. IsTrue found → matching.new.pairs.items
        ≡ offer_slots (any_kind (seen old.now) (seen new.now)) matching.old.pairs.items pair
        count) }
{
    if !slot_matches(old, new, pair, Slot::ClassWord, matching)? {
        return Ok(false);
    }
    for index in 0..count {
        if !slot_matches(old, new, pair, Slot::Field(index), matching)? {
            return Ok(false);
        }
    }
    Ok(true)
}

/// Returns whether a slot of a pair leads to objects that are a pair, or become one, or holds the
/// same word in both, which points to no object.
fn slot_matches(
    old: &Live<'_>,
    new: &Live<'_>,
    pair: Pair,
    slot: Slot,
    matching: &mut Matching,
) -> Result<bool, AllocError>
    requires walk { IsWalk old.now new.now matching.old }
    requires paired { Contains matching.old.pairs.items pair }
    ensures walk { OnOk result (IsWalk old.now new.now matching.new) }
    ensures finds { IfOk result (Finds
        (λ pairs. SlotMatches (seen old.now) (seen new.now) pairs pair slot)
        matching.old.pairs.items matching.new.pairs.items) }
    ensures offered { OnOk result (matching.new.pairs.items
        ≡ offer_targets (any_kind (seen old.now) (seen new.now)) matching.old.pairs.items pair
        slot) }
{
    let found = seen_target(old, pair.old, slot);
    let other = seen_target(new, pair.new, slot);
    match (found, other) {
        (Some(old), Some(new)) => matching.join(Pair { old, new }),
        (None, None) => {
            let word = slot_word(old.graph.heap, pair.old, slot);
            let other_word = slot_word(new.graph.heap, pair.new, slot);
            Ok(word == other_word)
        }
        (Some(_), None) => Ok(false),
        (None, Some(_)) => Ok(false),
    }
}
