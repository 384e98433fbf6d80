//! A data word that is written anew.

use sqz_object::WordIndex;

/// What a data word becomes.
#[derive(Clone, Copy, Debug, PartialEq, Eq)]
pub enum Becomes {
    /// A pointer to nil.
    Nil,
    /// The header of a free chunk.
    FreeChunk,
}

/// A data word that is written anew.
#[derive(Clone, Copy, Debug, PartialEq, Eq)]
pub struct Patch {
    /// The index of the word among the data words.
    pub word: WordIndex,
    /// The new word.
    pub value: u32,
    /// What the word becomes.
    pub becomes: Becomes,
}
