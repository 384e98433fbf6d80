//! Where data words begin in a file.

ghost use Rattle.std.specs.Prelude.{◌≡◌, ◌<◌, ◌^◌};
ghost use Rattle.sqz_damage.specs.Bytes.{byte_of_word};

use sqz_image::HEADER_SIZE;

/// Returns where a data word begins in a file, in bytes, given the offset of the header in bytes
/// and the index of the word. The result is exact if it is less than 2^64.
pub fn byte_of_word(offset: usize, word: u64) -> u64
    ensures { let byte = byte_of_word offset word in byte < 2 ^ 64 → result ≡ byte }
{
    let start = (offset as u64).saturating_add(HEADER_SIZE as u64);
    start.saturating_add(word.saturating_mul(4))
}
