//! A slot of an object.

use std::fmt;

/// A word of an object that may point to another object.
#[derive(Clone, Copy, Debug, PartialEq, Eq)]
pub enum Slot {
    /// The class word of a header of two or three words.
    ClassWord,
    /// The field with this index: 0 is the word after the base header.
    Field(u32),
}

impl fmt::Display for Slot {
    fn fmt<W: fmt::Write>(&self, f: &mut fmt::Formatter<W>) -> fmt::Result {
        match self {
            Slot::ClassWord => write!(f, "class"),
            Slot::Field(index) => write!(f, "field {index}"),
        }
    }
}
