//! Where the chunks of objects begin, and which are followed by the next object's chunk.

ghost use Rattle.std.specs.Prelude.{◌≡◌, ◌^◌, ◌<◌, ◌↔◌, true, drop, IsTrue};
ghost use Rattle.sqz_object.specs.Chunk.{is_object};
ghost use Rattle.sqz_image.specs.Starts.{first_of, IsFollowed};

use sqz_object::{WordIndex, Words};

/// Word indexes are below this.
const WORDS: u32 = 1 << 30;

/// The low two bits of the first word of a free chunk.
const FREE: u32 = 2;

/// Where an object's chunk begins among the data words, and whether the next object's chunk
/// follows directly, with no free chunk between.
#[derive(Clone, Copy)]
pub(crate) struct Start {
    /// The index of the chunk's first word, plus 2^30 if no object's chunk follows directly.
    index: u32,
}

impl Start {
    /// Returns the start of a chunk that begins at word `first`.
    pub(crate) fn new(first: WordIndex, is_followed: bool) -> Start
        requires { first < 2 ^ 30 }
        ensures first { first_of result ≡ first }
        ensures followed { IsFollowed result ↔ (is_followed ≡ true) }
    {
        Start {
            index: if is_followed { first } else { first + WORDS },
        }
    }

    /// Returns the index of the chunk's first word.
    pub(crate) fn first(&self) -> WordIndex
        ensures first { result ≡ first_of self.now }
        ensures few { result < 2 ^ 30 }
    {
        self.index % WORDS
    }

    /// Returns whether the next object's chunk follows directly.
    pub(crate) fn is_followed(&self) -> bool
        ensures { IsTrue result ↔ IsFollowed self.now }
    {
        self.index < WORDS
    }
}

/// Returns whether the chunk at word `p`, if there is one, is an object: its first word does not
/// have the type of a free chunk.
pub(crate) fn begins_object(words: &Words<'_>, p: usize) -> bool
    ensures { result ≡ is_object (drop p words.now) }
{
    p < words.len() && words.at(p) % 4 != FREE
}
