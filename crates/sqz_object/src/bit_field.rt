//! A field of adjacent bits of a word.

ghost use Rattle.std.specs.Prelude.{◌≡◌, ◌/◌, ◌%◌, ◌^◌, ◌<◌};

/// A field of `width` adjacent bits of a word; `lowest` is the number of the lowest one. Bit 0 is
/// the least significant bit.
#[derive(Clone, Copy, Debug, PartialEq, Eq)]
pub struct BitField {
    pub lowest: u32,
    pub width: u32,
}

impl BitField {
    /// Returns the field's value in `word`, shifted down to bit 0.
    pub const fn get(self, word: u32) -> u32
        requires inside { self.lowest < 32 }
        requires narrow { self.width < 32 }
        ensures { result ≡ word / 2 ^ self.lowest % 2 ^ self.width }
    {
        (word >> self.lowest) % (1 << self.width)
    }
}
