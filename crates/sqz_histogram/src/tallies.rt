//! The number of marked objects of each group.

ghost use Rattle.std.specs.Prelude.{◌≡◌, length, IfOk};
ghost use Rattle.sqz_image.specs.Objects.{object_count};
ghost use Rattle.sqz_trace.specs.declared.weak.Weak.{Weak};
ghost use Rattle.sqz_histogram.specs.Keys.{AreEntries};
ghost use Rattle.sqz_histogram.specs.Tallies.{AreTallies, FitWords};

use crate::classes::COMPACT_INDEXES;
use crate::entries::{Entry, NO_GROUP};
use sqz_image::Heap;
use sqz_image::laws::heap_bounds;
use sqz_trace::Marks;
use std::alloc::{AllocError, Global};

/// The number of marked objects of a group, and their total length in words.
#[derive(Clone, Copy)]
pub(crate) struct Tally {
    pub(crate) count: u32,
    pub(crate) words: u32,
}

/// Returns the tally of each group, by key. The policy on weak slots is that of the entries.
pub(crate) fn tallies_of(
    alloc: Global,
    heap: &Heap,
    marks: &Marks,
    entries: &[Entry],
) -> Result<Vec<Tally>, AllocError>
    requires sized { length marks.now ≡ object_count heap.now }
    requires entries { (weak : Weak) × AreEntries heap.now weak marks.now entries.now }
    ensures tallies { IfOk result (λ tallies.
        (weak : Weak) → AreEntries heap.now weak marks.now entries.now
        → AreTallies heap.now weak marks.now tallies.items) }
    ensures fit { IfOk result (λ tallies. FitWords tallies.items) }
{
    heap_bounds(heap); // fewer than 2^30 words in all, so no tally overflows
    let none = Tally { count: 0, words: 0 };
    let mut tallies = vec![in alloc; none; (heap.len() + COMPACT_INDEXES) as usize]?;
    for entry in entries {
        if entry.key != NO_GROUP {
            let tally = &mut tallies[entry.key as usize];
            tally.count += 1;
            tally.words += entry.words;
        }
    }
    Ok(tallies)
}
