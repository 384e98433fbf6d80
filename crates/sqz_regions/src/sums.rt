//! The number of live words of each region.

ghost use Rattle.std.specs.Prelude.{◌≡◌, ◌+◌, ◌*◌, ◌^◌, ◌<◌, ◌≤◌, length, IfOk, IfErr};
ghost use Rattle.std.specs.List.{concat, sum};
ghost use Rattle.sqz_image.specs.declared.fault.Fault.TheVariants.{OutOfMemory};
ghost use Rattle.sqz_image.specs.Objects.{object_count};
ghost use Rattle.sqz_trace.specs.Live.{live_words, live_words_below};
ghost use Rattle.sqz_regions.specs.Bases.{AreSums};

use crate::regions::Regions;
use sqz_image::laws::heap_bounds;
use sqz_image::{Fault, Heap};
use sqz_object::ObjectIndex;
use sqz_trace::Marks;
use std::alloc::Global;

/// Returns the total length in words of the chunks of the marked objects among `from..to`.
fn live_words_between(heap: &Heap, marks: &Marks, from: ObjectIndex, to: ObjectIndex) -> u32
    requires ordered { from ≤ to }
    requires inside { to ≤ object_count heap.now }
    requires sized { length marks.now ≡ object_count heap.now }
    requires few { length (concat heap.now.chunks) < 2 ^ 30 }
    ensures { live_words_below heap.now marks.now from + result
        ≡ live_words_below heap.now marks.now to }
{
    let mut words = 0;
    for object in from..to {
        if marks.has(object) {
            words += heap.chunk_length(object);
        }
    }
    words
}

/// Returns, for each region, the total length of its marked objects' chunks in words. From the
/// heap's base on, all these words fit below 2^32, as `bases` requires. Fails only if out of
/// memory.
pub fn live_words(
    alloc: Global,
    heap: &Heap,
    regions: &Regions<'_>,
    marks: &Marks,
) -> Result<Vec<u32>, Fault>
    requires regions { regions.now.memory ≡ heap.now }
    requires sized { length marks.now ≡ object_count heap.now }
    ensures sums { IfOk result (λ sums. AreSums regions.now marks.now sums.items) }
    ensures whole { IfOk result (λ sums. sum sums.items ≡ live_words heap.now marks.now) }
    ensures room { IfOk result (λ sums. heap.now.base + 4 * sum sums.items ≤ 2 ^ 32) }
    ensures refused { IfErr result (λ fault. fault ≡ OutOfMemory) }
{
    heap_bounds(heap); // fewer than 2^30 words, with addresses up to 2^32
    let count = regions.count();
    let mut sums = Vec::with_capacity(alloc, count as usize)?;
    for region in 0..count {
        let (from, to) = regions.objects(region);
        sums.push(live_words_between(heap, marks, from, to))?;
    }
    Ok(sums)
}
