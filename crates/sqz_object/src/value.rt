//! What a word of an object means.

ghost use Rattle.std.specs.Prelude.{◌≡◌};
ghost use Rattle.sqz_object.specs.Value.{value_of};

/// A word of an object: a SmallInteger of 31 bits (bit 0 is 1), an object pointer (oop), which is
/// the address of a base header (the low bits are 00), or neither (10).
#[derive(Clone, Copy, Debug, PartialEq, Eq)]
pub enum Value {
    Int(i32),
    Pointer(u32),
    Odd(u32),
}

/// Returns the value of a word.
pub fn value_of(word: u32) -> Value
    ensures { result ≡ value_of word }
{
    match word % 4 {
        0 => Value::Pointer(word),
        2 => Value::Odd(word),
        _ => Value::Int(word.cast_signed() >> 1),
    }
}
