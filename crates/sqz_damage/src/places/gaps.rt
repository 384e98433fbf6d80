//! Where gaps are.

ghost use Rattle.std.specs.Prelude.{◌≡◌, ◌*◌, ◌<◌, ◌^◌, sum_by};
ghost use Rattle.sqz_damage.specs.Bytes.{byte_of_word};

use crate::Gap;
use crate::places::bytes::byte_of_word;
use sqz_object::WordIndex;

/// Where a gap is, and its length.
#[derive(Clone, Copy)]
pub struct GapPlace {
    /// The index of its first word among the data words.
    pub word: WordIndex,
    /// Where this word begins in the file, in bytes.
    pub byte: u64,
    /// The length in bytes.
    pub bytes: u64,
}

/// Returns where a gap is in a file, given the offset of the header in bytes. `byte` is exact if it
/// is less than 2^64.
pub fn gap_place(offset: usize, gap: Gap) -> GapPlace
    ensures word { result.word ≡ gap.first }
    ensures byte { let byte = byte_of_word offset gap.first in byte < 2 ^ 64 → result.byte ≡ byte }
    ensures bytes { result.bytes ≡ 4 * gap.words }
{
    GapPlace {
        word: gap.first,
        byte: byte_of_word(offset, u64::from(gap.first)),
        bytes: 4 * u64::from(gap.words),
    }
}

/// Returns the length of gaps in bytes. It is exact if it is less than 2^64.
pub fn bytes_in_gaps(gaps: &[Gap]) -> u64
    ensures { let bytes = sum_by (λ gap. 4 * gap.words) gaps.now in
        bytes < 2 ^ 64 → result ≡ bytes }
{
    let mut bytes = 0u64;
    for gap in gaps {
        bytes = bytes.saturating_add(4 * u64::from(gap.words));
    }
    bytes
}
