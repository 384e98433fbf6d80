//! How a file encodes words, and what the words of an object mean.

ghost use Rattle.std.specs.Prelude.{◌≡◌, [], ◌∷◌, take, drop, pos, negsuc};
ghost use Rattle.sqz_object.specs.declared.value.Value.TheVariants.{Int, Pointer, Odd};
ghost use Rattle.sqz_object.specs.Value.{value_of};
ghost use Rattle.sqz_test_fixtures.specs.Files.{image_bytes_of};

use sqz_test_fixtures::TestImage;
use sqz_test_fixtures::accepted::{BIG_ENDIAN, DEAD_ARRAY};

/// A little-endian file has the lowest byte of each word first: here the first five header words,
/// and the data words after all sixteen.
fn little_endian() -> TestImage
    ensures header { take 20 (image_bytes_of result)
        ≡ 0x66 ∷ 0x19 ∷ 0 ∷ 0 ∷ 0x40 ∷ 0 ∷ 0 ∷ 0 ∷
        0x18 ∷ 0 ∷ 0 ∷ 0 ∷ 0 ∷ 0x10 ∷ 0 ∷ 0 ∷
        0x10 ∷ 0x10 ∷ 0 ∷ 0 ∷ [] }
    ensures words { drop 64 (image_bytes_of result)
        ≡ 7 ∷ 0x10 ∷ 0 ∷ 0 ∷ 0x0F ∷ 0x32 ∷ 0 ∷ 0 ∷
        1 ∷ 0 ∷ 0 ∷ 0 ∷ 1 ∷ 0 ∷ 0 ∷ 0 ∷
        0x0B ∷ 0x32 ∷ 0 ∷ 0 ∷ 0 ∷ 0x10 ∷ 0 ∷ 0 ∷ [] }
{
    DEAD_ARRAY
}

/// A big-endian file has the highest byte of each word first: here the words of `little_endian`.
fn big_endian() -> TestImage
    ensures header { take 20 (image_bytes_of result)
        ≡ 0 ∷ 0 ∷ 0x19 ∷ 0x66 ∷ 0 ∷ 0 ∷ 0 ∷ 0x40 ∷
        0 ∷ 0 ∷ 0 ∷ 0x18 ∷ 0 ∷ 0 ∷ 0x10 ∷ 0 ∷
        0 ∷ 0 ∷ 0x10 ∷ 0x10 ∷ [] }
    ensures words { drop 64 (image_bytes_of result)
        ≡ 0 ∷ 0 ∷ 0x10 ∷ 7 ∷ 0 ∷ 0 ∷ 0x32 ∷ 0x0F ∷
        0 ∷ 0 ∷ 0 ∷ 1 ∷ 0 ∷ 0 ∷ 0 ∷ 1 ∷
        0 ∷ 0 ∷ 0x32 ∷ 0x0B ∷ 0 ∷ 0 ∷ 0x10 ∷ 0 ∷ [] }
{
    BIG_ENDIAN
}

/// A SmallInteger is the word's upper 31 bits in two's complement; a word that is neither that nor
/// a multiple of four is odd.
fn values()
    ensures lowest { value_of 0x80000001 ≡ Int (negsuc 1073741823) }
    ensures minus_one { value_of 0xFFFFFFFF ≡ Int (negsuc 0) }
    ensures zero { value_of 1 ≡ Int (pos 0) }
    ensures highest { value_of 0x7FFFFFFF ≡ Int (pos 1073741823) }
    ensures address { value_of 0x1000 ≡ Pointer 0x1000 }
    ensures odd { value_of 0x1002 ≡ Odd 0x1002 }
{}
