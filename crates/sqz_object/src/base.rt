//! The bit fields of a base header word.

ghost use Rattle.std.specs.Prelude.{◌≡◌};
ghost use Rattle.sqz_object.specs.Value.{base_of, padding};

use crate::bit_field::BitField;

/// Where each field lies in a base header word.
const KIND: BitField = BitField {
    lowest: 0,
    width: 2,
};

const SIZE_FIELD: BitField = BitField {
    lowest: 2,
    width: 6,
};

const FORMAT: BitField = BitField {
    lowest: 8,
    width: 4,
};

const COMPACT: BitField = BitField {
    lowest: 12,
    width: 5,
};

const HASH: BitField = BitField {
    lowest: 17,
    width: 12,
};

/// The fields of a base header word. Bits 29 to 31 belong to the garbage collector of the virtual
/// machine that saved the image, and no field covers them.
#[derive(Clone, Copy, Debug, PartialEq, Eq)]
pub struct Base {
    /// The header type: bits 0 and 1.
    pub kind: u32,
    /// The size in words, counting the base header: bits 2 to 7.
    pub size_field: u32,
    /// Bits 8 to 11.
    pub format: u32,
    /// The compact class index: bits 12 to 16.
    pub compact: u32,
    /// Bits 17 to 28.
    pub hash: u32,
}

impl Base {
    /// Returns the number of padding bytes in the last word of a byte object or a method: the low
    /// two bits of its format. 0 for the other formats.
    pub fn padding(&self) -> u32
        ensures { result ≡ padding self.now }
    {
        if self.format < 8 { 0 } else { self.format % 4 }
    }
}

/// Returns the bit fields of a base header word.
pub fn base_of(word: u32) -> Base
    ensures { result ≡ base_of word }
{
    Base {
        kind: KIND.get(word),
        size_field: SIZE_FIELD.get(word),
        format: FORMAT.get(word),
        compact: COMPACT.get(word),
        hash: HASH.get(word),
    }
}
