//! What 32-bit numbers stand for in signatures.

/// The index of an object. Objects are counted from 0 in address order; free chunks are not
/// objects.
pub type ObjectIndex = u32;

/// An address in bytes, as an object pointer (oop) holds it.
pub type Address = u32;

/// The index of a data word, counted from 0.
pub type WordIndex = u32;
