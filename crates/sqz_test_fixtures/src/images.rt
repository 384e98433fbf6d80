//! What an image of a test is, and the words of one.

ghost use Rattle.std.specs.Prelude.{◌≡◌, IfOk};
ghost use Rattle.sqz_test_fixtures.specs.Words.{data_words};

use super::chunks::{Chunk, put_chunk};
use sqz_object::Order;
use std::alloc::{AllocError, Global};

/// A test image.
#[derive(Clone, Copy)]
pub struct TestImage {
    /// Its byte order.
    pub order: Order,
    /// Its version.
    pub version: u32,
    /// The size of its header, in bytes, as the header states it.
    pub header_size: u32,
    /// The size of its data, in bytes, as its header states it; none if it is that of the words.
    pub data_size: Option<u32>,
    /// The address of its first data word.
    pub base: u32,
    /// Its chunks, in the order of their addresses.
    pub chunks: &'static [Chunk],
    /// The address of its special objects array.
    pub special: u32,
    /// The header words after that address.
    pub others: [u32; 11],
    /// The change that is made to its data words after the chunks, if any.
    pub changed: Option<Change>,
}

/// A change of one data word.
#[derive(Clone, Copy)]
pub struct Change {
    /// The index of the data word.
    pub index: usize,
    /// Its new value.
    pub word: u32,
}

/// An image without data words, in a little-endian file. Its base and the address of its special
/// objects array are 0x1000.
pub const EMPTY: TestImage = TestImage {
    order: Order::Little,
    version: 6502,
    header_size: 64,
    data_size: None,
    base: 0x1000,
    chunks: &[],
    special: 0x1000,
    others: [0; 11],
    changed: None,
};

/// An image, and what it is compacted to.
#[derive(Clone, Copy)]
pub struct Compaction {
    /// The image.
    pub image: TestImage,
    /// What it is compacted to.
    pub answer: TestImage,
}

/// The image with the data word at `index` changed to `word`, and no other.
pub const fn with_word(image: TestImage, index: usize, word: u32) -> TestImage {
    TestImage {
        changed: Some(Change { index, word }),
        ..image
    }
}

/// The data words of an image.
pub fn words_of(alloc: Global, image: &TestImage) -> Result<Vec<u32>, AllocError>
    ensures { IfOk result (λ words. words.items ≡ data_words image.now) }
{
    let mut words = Vec::new(alloc);
    for chunk in image.chunks {
        put_chunk(&mut words, chunk)?;
    }
    if let Some(change) = image.changed
        && change.index < words.len()
    {
        words[change.index] = change.word;
    }
    Ok(words)
}
