//! Whether two partners differ at a place.

ghost use Rattle.std.specs.Prelude.{◌≡◌, ◌<◌, length, IfOk};
ghost use Rattle.sqz_image.specs.Objects.{object_count};
ghost use Rattle.sqz_changes.specs.Compared.{compared, new_chunk, old_chunk};
ghost use Rattle.sqz_changes.specs.Differences.{differs, is_quiet, is_quiet_place};
ghost use Rattle.sqz_changes.specs.Differences.{slot_differs};
ghost use Rattle.sqz_changes.specs.Headers.{hash_differs, header_differs};
ghost use Rattle.sqz_changes.specs.Words.{trailer_differs, words_differ};

use crate::bytecodes::bytecodes_differ;
use crate::comparison::Comparison;
use crate::headers::{are_methods, hash_differs, header_differs, shape_differs};
use crate::place::{Difference, Place};
use sqz_alike::{Pair, bytes_match, seen_target, untraced, untraced_match};
use sqz_image::Slot;
use sqz_trace::slot_word;
use std::alloc::{AllocError, Global};

impl Comparison<'_> {
    /// Returns whether the objects of a pair differ at a place.
    pub(crate) fn differs(&self, alloc: Global, at: Difference) -> Result<bool, AllocError>
        requires { at.pair < length self.now.matching.now.pairs.items }
        ensures { IfOk result (λ found. found ≡ differs (compared self.now) at) }
    {
        let pair = self.pair_at(at.pair);
        match at.place {
            Place::Header => Ok(self.header_differs(pair)),
            Place::Hash => Ok(self.hash_differs(pair)),
            Place::Words => self.words_differ(alloc, pair),
            Place::Trailer => Ok(self.trailer_differs(pair)),
            Place::Slot(slot) => Ok(self.slot_differs(pair, slot)),
        }
    }

    /// Returns whether the objects of a pair differ in their headers, apart from their hashes.
    fn header_differs(&self, pair: Pair) -> bool
        requires old { pair.old < object_count self.now.old.now.graph.heap.now }
        requires new { pair.new < object_count self.now.new.now.graph.heap.now }
        ensures { result ≡ header_differs (old_chunk (compared self.now) pair)
            (new_chunk (compared self.now) pair) }
    {
        let (old, new) = (self.old, self.new);
        let object = old.graph.heap.object(pair.old);
        let other = new.graph.heap.object(pair.new);
        header_differs(&object, &other)
    }

    /// Returns whether the objects of a pair have different hashes.
    fn hash_differs(&self, pair: Pair) -> bool
        requires old { pair.old < object_count self.now.old.now.graph.heap.now }
        requires new { pair.new < object_count self.now.new.now.graph.heap.now }
        ensures { result ≡ hash_differs (old_chunk (compared self.now) pair)
            (new_chunk (compared self.now) pair) }
    {
        let (old, new) = (self.old, self.new);
        let object = old.graph.heap.object(pair.old);
        let other = new.graph.heap.object(pair.new);
        hash_differs(&object, &other)
    }

    /// Returns whether the objects of a pair have different words after their traced fields;
    /// methods different bytecodes.
    fn words_differ(&self, alloc: Global, pair: Pair) -> Result<bool, AllocError>
        requires old { pair.old < object_count self.now.old.now.graph.heap.now }
        requires new { pair.new < object_count self.now.new.now.graph.heap.now }
        ensures { IfOk result (λ found. found ≡ words_differ
            self.now.old.now.graph.heap.now.order self.now.new.now.graph.heap.now.order
            (old_chunk (compared self.now) pair) (new_chunk (compared self.now) pair)) }
    {
        let (old, new) = (self.old, self.new);
        let (heap, other_heap) = (old.graph.heap, new.graph.heap);
        let (object, other) = (heap.object(pair.old), other_heap.object(pair.new));
        if are_methods(&object, &other) {
            return bytecodes_differ(alloc, heap, pair.old, other_heap, pair.new);
        }
        Ok(!untraced_match(heap.order(), &object, other_heap.order(), &other))
    }

    /// Returns whether both objects of a pair are methods, and differ in the kinds of header, the
    /// sizes, the formats or the bytes after the traced fields.
    fn trailer_differs(&self, pair: Pair) -> bool
        requires old { pair.old < object_count self.now.old.now.graph.heap.now }
        requires new { pair.new < object_count self.now.new.now.graph.heap.now }
        ensures { result ≡ trailer_differs
            self.now.old.now.graph.heap.now.order self.now.new.now.graph.heap.now.order
            (old_chunk (compared self.now) pair) (new_chunk (compared self.now) pair) }
    {
        let (old, new) = (self.old, self.new);
        let (heap, other_heap) = (old.graph.heap, new.graph.heap);
        let (object, other) = (heap.object(pair.old), other_heap.object(pair.new));
        let (words, others) = (untraced(&object), untraced(&other));
        are_methods(&object, &other)
            && (shape_differs(&object, &other)
                || !bytes_match(heap.order(), &words, other_heap.order(), &others))
    }

    /// Returns whether a slot of a pair leads to objects that are no partners, or to an object on
    /// one side alone, or holds different words that lead to no object.
    fn slot_differs(&self, pair: Pair, slot: Slot) -> bool
        requires old { pair.old < object_count self.now.old.now.graph.heap.now }
        requires new { pair.new < object_count self.now.new.now.graph.heap.now }
        ensures { result ≡ slot_differs (compared self.now) pair slot }
    {
        let (old, new) = (self.old, self.new);
        let found = seen_target(old, pair.old, slot);
        let other = seen_target(new, pair.new, slot);
        match (found, other) {
            (Some(found), Some(other)) => !self.are_partners(found, other),
            (None, None) => {
                let word = slot_word(old.graph.heap, pair.old, slot);
                let other_word = slot_word(new.graph.heap, pair.new, slot);
                word != other_word
            }
            (Some(_), None) => true,
            (None, Some(_)) => true,
        }
    }

    /// Returns whether a difference is quiet.
    pub(crate) fn is_quiet(&self, at: Difference) -> bool
        requires { at.pair < length self.now.matching.now.pairs.items }
        ensures { result ≡ is_quiet (compared self.now) at }
    {
        let pair = self.pair_at(at.pair);
        is_quiet_place(at.place) || self.old_quiet.has(pair.old) || self.new_quiet.has(pair.new)
    }
}

/// Returns whether the differences at a place are quiet, whatever the objects are.
fn is_quiet_place(place: Place) -> bool
    ensures { result ≡ is_quiet_place place }
{
    matches!(place, Place::Hash | Place::Trailer)
}
