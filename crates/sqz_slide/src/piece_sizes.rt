//! The number of words of a piece.

ghost use Rattle.std.specs.Prelude.{◌≡◌, ℕ, ◌+◌, ◌-◌, ◌*◌, ◌^◌, ◌<◌, ◌≤◌, Bool, true, List, None};
ghost use Rattle.std.specs.Prelude.{is_some, length};
ghost use Rattle.std.specs.Prelude.{slice_index_or};
ghost use Rattle.sqz_image.specs.Objects.{object_count};
ghost use Rattle.sqz_trace.specs.Graph.{is_marked};
ghost use Rattle.sqz_trace.specs.Live.{live_words_below};
ghost use Rattle.sqz_regions.specs.Bases.{ArePlacesOf};

use sqz_image::Heap;
use sqz_object::ObjectIndex;
use sqz_regions::Forward;

/// Returns the total number of words of the live objects among `from..to`: from where the first of
/// them begins to where the last ends in the compacted memory. It reads no header of the objects
/// between these two.
pub(crate) fn piece_size(heap: &Heap, forward: &Forward, from: ObjectIndex, to: ObjectIndex) -> u64
    requires ordered { from ≤ to }
    requires inside { to ≤ object_count heap.now }
    requires one_each { length forward.now ≡ object_count heap.now }
    ensures { (marks : List Bool)
        → ArePlacesOf heap.now marks forward.now
        → live_words_below heap.now marks from + result ≡ live_words_below heap.now marks to }
{
    let first = first_live(forward, from, to);
    let end = end_of_live(forward, first, to);
    if first == end {
        return 0;
    }
    let begin = begin_of(heap, forward, first);
    let last = begin_of(heap, forward, end - 1);
    let length = u64::from(heap.chunk_length(end - 1));
    (last + 4 * length).saturating_sub(begin) / 4
}

/// Returns the address of the first word of the object's chunk in the compacted memory.
fn begin_of(heap: &Heap, forward: &Forward, object: ObjectIndex) -> u64
    requires object { object < object_count heap.now }
    requires one_each { length forward.now ≡ object_count heap.now }
    ensures begin { (marks : List Bool)
        → ArePlacesOf heap.now marks forward.now
        → is_marked marks object ≡ true
        → result ≡ heap.now.base + 4 * live_words_below heap.now marks object }
    ensures few { result < 2 ^ 32 }
{
    let place = forward.place(object).unwrap_or(0);
    u64::from(place).saturating_sub(4 * u64::from(heap.chunk(object).before))
}

/// Returns the first object among `from..to` that has a new address, or `to` if none has.
fn first_live(forward: &Forward, from: ObjectIndex, to: ObjectIndex) -> ObjectIndex
    requires ordered { from ≤ to }
    requires inside { to ≤ length forward.now }
    ensures low { from ≤ result }
    ensures high { result ≤ to }
    ensures none { (index : ℕ) → from ≤ index → index < result
        → slice_index_or forward.now index None ≡ None }
    ensures there { result < to → is_some (slice_index_or forward.now result None) ≡ true }
{
    for object in from..to {
        if forward.place(object).is_some() {
            return object;
        }
    }
    to
}

/// Returns the object after the last one among `from..to` that has a new address, or `from` if
/// none has.
fn end_of_live(forward: &Forward, from: ObjectIndex, to: ObjectIndex) -> ObjectIndex
    requires ordered { from ≤ to }
    requires inside { to ≤ length forward.now }
    ensures low { from ≤ result }
    ensures high { result ≤ to }
    ensures none { (index : ℕ) → result ≤ index → index < to → slice_index_or forward.now index None
        ≡ None }
    ensures there { from < result → is_some (slice_index_or forward.now (result - 1) None) ≡ true }
{
    let mut end = to;
    while end > from && forward.place(end - 1).is_none() {
        end -= 1;
    }
    end
}
