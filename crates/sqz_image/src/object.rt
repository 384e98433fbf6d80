//! One object of an object memory.

ghost use Rattle.std.specs.Prelude.{◌≡◌, ◌^◌, ◌<◌, length};
ghost use Rattle.sqz_object.specs.Chunk.{fields};
ghost use Rattle.sqz_object.specs.Layout.{layout};
ghost use Rattle.sqz_object.specs.Reading.{description};

use sqz_object::{Chunk, Layout, Words, base_of};
use std::marker::Model;

/// An object's chunk: what its header states, and all its words. Contracts see the list of its
/// words.
#[derive(Drop)]
pub struct Object<'a> {
    header: Chunk,
    words: Words<'a>,
}

impl<'a> Model for Object<'a> {
    ghost use Rattle.std.specs.Prelude.{ℕ, List};
    ghost use Rattle.sqz_image.specs.Header.{IsHeaderOf};

    ghost Value = { List ℕ };

    ghost view = { λ object. object.words };

    ghost invariant = { λ object. IsHeaderOf object.words object.header };
}

impl<'a> Object<'a> {
    /// Returns the object with these words, header words included. `header` is what its header words
    /// state.
    pub fn new(header: Chunk, words: Words<'a>) -> Self
        requires described { header ≡ description words }
        requires headed { header.before < header.length }
        requires few { header.length < 2 ^ 30 }
        ensures { result ≡ words.entry }
    {
        Object { header, words }
    }

    /// Returns what the header words state.
    pub fn header(&self) -> Chunk
        ensures described { result ≡ description self.now }
        ensures headed { result.before < result.length }
        ensures few { result.length < 2 ^ 30 }
    {
        self.header
    }

    /// Returns the layout of the fields.
    pub fn layout(&self) -> Layout
        ensures { result ≡ layout self.now }
    {
        Layout::of(&base_of(self.header.base))
    }

    /// Returns all words of the chunk, header words included.
    pub fn words(&self) -> &Words<'a>
        ensures { result.now ≡ self.now }
    {
        &self.words
    }

    /// Returns the words after the base header.
    pub fn fields(&self) -> Words<'a>
        ensures fields { result ≡ fields self.now }
        ensures few { length result < 2 ^ 30 }
    {
        let (_, fields) = self.words.split_at(self.header.before as usize + 1);
        fields
    }
}
