//! A gap between chunks.

use sqz_object::WordIndex;

/// A run of data words that no chunk covers.
#[derive(Clone, Copy, Debug, PartialEq, Eq)]
pub struct Gap {
    /// The index of the first word.
    pub first: WordIndex,
    /// The number of words.
    pub words: u32,
}
