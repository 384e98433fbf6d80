//! The header of a compiled method.

ghost use Rattle.std.specs.Prelude.{◌≡◌};
ghost use Rattle.sqz_code.specs.Headers.{method_header};

use sqz_object::BitField;

/// The number of the primitive, but for its highest bit.
const PRIMITIVE: BitField = BitField {
    lowest: 1,
    width: 9,
};

const LITERALS: BitField = BitField {
    lowest: 10,
    width: 8,
};

const LARGE_FRAME: BitField = BitField {
    lowest: 18,
    width: 1,
};

const TEMPORARIES: BitField = BitField {
    lowest: 19,
    width: 6,
};

const ARGUMENTS: BitField = BitField {
    lowest: 25,
    width: 4,
};

/// The highest bit of the number of the primitive.
const HIGH_PRIMITIVE: BitField = BitField {
    lowest: 29,
    width: 1,
};

/// What the header of a compiled method says.
#[derive(Clone, Copy)]
pub struct MethodHeader {
    /// The number of arguments.
    pub arguments: u32,
    /// The number of temporaries, arguments included.
    pub temporaries: u32,
    /// The number of literals.
    pub literals: u32,
    /// The number of the primitive that runs first; 0 if there is none.
    pub primitive: u32,
    /// Whether a context of the method is a large one.
    pub has_large_frame: bool,
}

impl MethodHeader {
    /// Returns what a header word says. None if the word is not a SmallInteger.
    pub fn of(word: u32) -> Option<MethodHeader>
        ensures { result ≡ method_header word }
    {
        if word % 2 != 1 {
            return None;
        }
        Some(MethodHeader {
            arguments: ARGUMENTS.get(word),
            temporaries: TEMPORARIES.get(word),
            literals: LITERALS.get(word),
            primitive: PRIMITIVE.get(word) + 512 * HIGH_PRIMITIVE.get(word),
            has_large_frame: LARGE_FRAME.get(word) == 1,
        })
    }
}
