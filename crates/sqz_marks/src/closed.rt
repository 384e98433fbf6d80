//! What is left of a mark table.

ghost use Rattle.std.specs.Prelude.{◌≡◌, ℕ, ◌+◌, ◌^◌, ◌<◌, ◌≤◌, length, map, take, slice_index};
ghost use Rattle.std.specs.Slots.{slots_items, slots_len, IsFull};
ghost use Rattle.sqz_marks.specs.Table.{shade_of};

use sqz_trace::{Shade, Shades};
use std::alloc::Global;

/// What is left of a mark table when marking is complete.
#[derive(Drop)]
pub struct Closed {
    /// The shade of each object, as `finish` takes them.
    pub shades: Shades,
    /// For each region, the total length of its marked objects' chunks in words.
    pub live_words: Vec<u32>,
}

/// Returns the shade that a word encodes.
pub(crate) fn shade_of(word: u64) -> Shade
    ensures { result ≡ shade_of word }
{
    match word {
        0 => Shade::White,
        1 => Shade::Grey,
        _ => Shade::Black,
    }
}

/// Stores the shade that each object's word encodes.
pub(crate) fn read_shades(closed: &atomic_table::Closed<(), Global>, shades: &mut [Shade])
    requires inside { length shades.old ≤ slots_len closed.now.words }
    requires full { IsFull closed.now.words }
    ensures { shades.new ≡ map shade_of (take (length shades.old) (slots_items closed.now.words)) }
{
    for object in 0..shades.len() {
        shades[object] = shade_of(closed.word(object));
    }
}

/// Stores the sum that each region's word holds. `first` is the index of the first of these words.
pub(crate) fn read_sums(closed: &atomic_table::Closed<(), Global>, first: usize, sums: &mut [u32])
    requires inside { first + length sums.old ≤ slots_len closed.now.words }
    requires full { IsFull closed.now.words }
    requires few { (region : ℕ) → region < length sums.old
        → slice_index (slots_items closed.now.words) (first + region) < 2 ^ 30 }
    ensures sized { length sums.new ≡ length sums.old }
    ensures read { (region : ℕ) → region < length sums.old → slice_index sums.new region
        ≡ slice_index (slots_items closed.now.words) (first + region) }
{
    for region in 0..sums.len() {
        sums[region] = closed.word(first + region) as u32;
    }
}
