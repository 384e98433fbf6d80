//! Gaps as free chunks.

ghost use Rattle.std.specs.Prelude.{◌≡◌, ◌+◌, ◌*◌, ◌/◌, ◌^◌, ◌<◌, ◌≤◌, length, drop, slice_set};
ghost use Rattle.sqz_object.specs.Bytes.{words_of};
ghost use Rattle.sqz_damage.specs.Filled.{AreGapsIn, filled, free_header};

use crate::gap::Gap;
use sqz_object::{Order, put_word};

/// Writes each gap as a free chunk into the bytes of an image's data: the first word of the gap
/// becomes the header of a free chunk of the gap's length. All other bytes stay.
pub fn fill_gaps(bytes: &mut [u8], order: Order, gaps: &[Gap])
    requires few { length bytes.old < 2 ^ 32 }
    requires inside { AreGapsIn 0 (length bytes.old / 4) gaps.now }
    ensures words { words_of order bytes.new ≡ filled (words_of order bytes.old) gaps.now }
    ensures rest { let end = length bytes.old / 4 * 4 in drop end bytes.new ≡ drop end bytes.old }
    ensures len { length bytes.new ≡ length bytes.old }
{
    for gap in gaps {
        put_free_chunk(bytes, order, *gap);
    }
}

/// Writes a gap as a free chunk into the bytes of an image's data.
fn put_free_chunk(bytes: &mut [u8], order: Order, gap: Gap)
    requires few { length bytes.old < 2 ^ 32 }
    requires some { 0 < gap.words }
    requires inside { gap.first + gap.words ≤ length bytes.old / 4 }
    ensures words { words_of order bytes.new
        ≡ slice_set (words_of order bytes.old) gap.first (free_header gap.words) }
    ensures rest { let end = length bytes.old / 4 * 4 in drop end bytes.new ≡ drop end bytes.old }
{
    let at = 4 * gap.first as usize;
    bytes[at..at + 4].copy_from_slice(&put_word(order, 4 * gap.words + 2));
}
