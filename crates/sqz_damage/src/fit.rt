//! An object of damaged data words, and whether slots lead to it.

use sqz_object::WordIndex;

/// An object of a reading, and whether a slot leads to it.
#[derive(Clone, Copy)]
pub(crate) struct Fit {
    /// The index of its first word.
    pub(crate) first: WordIndex,
    /// Whether a slot leads to it if no words were lost before it.
    pub(crate) stays: bool,
    /// Whether a slot leads to it if words were lost before it.
    pub(crate) moves: bool,
}
