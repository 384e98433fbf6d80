//! An image: the bytes before its header, its header, and the object memory after it.

ghost use Rattle.std.specs.Prelude.{◌≡◌, ◌⊎◌, ◌<◌, length, slice_index};
ghost use Rattle.sqz_image.specs.File.{prefix_size, data_size, renewed};

use crate::header::{DATA_SIZE_WORD, HEADER_WORDS, SPECIAL_WORD};
use crate::heap::Heap;
use sqz_object::Address;
use std::marker::Model;

/// An image as it was saved.
#[derive(Drop)]
pub struct Image {
    prefix: Vec<u8>,
    header: [u32; HEADER_WORDS],
    heap: Heap,
}

impl Model for Image {
    ghost use Rattle.std.specs.Prelude.{◌≡◌, ◌⊎◌, length};
    ghost use Rattle.sqz_image.specs.File.{prefix_size};
    ghost use Rattle.sqz_image.specs.Objects.{SavedImage};

    ghost Value = { SavedImage };

    ghost view = { λ image. record {
      prefix = image.prefix.items;
      header = image.header;
      memory =
          image.heap;
    } };

    ghost invariant = { λ image. (length image.prefix.items ≡ 0)
        ⊎ (length image.prefix.items ≡ prefix_size) };
}

impl Image {
    pub(crate) fn new(prefix: Vec<u8>, header: [u32; HEADER_WORDS], heap: Heap) -> Self
        requires { (length prefix.items ≡ 0) ⊎ (length prefix.items ≡ prefix_size) }
        ensures prefix { result.prefix ≡ prefix.items }
        ensures header { result.header ≡ header }
        ensures heap { result.memory ≡ heap }
    {
        Image {
            prefix,
            header,
            heap,
        }
    }

    /// Returns the bytes before the header: none, or 512.
    pub fn prefix(&self) -> &[u8]
        ensures prefix { result.now ≡ self.now.prefix }
        ensures sized { (length result.now ≡ 0) ⊎ (length result.now ≡ prefix_size) }
    {
        &self.prefix
    }

    /// Returns the header words, with `size` as the data size in bytes and `special` as the
    /// address of the special objects array.
    pub(crate) fn renewed_header(&self, size: u32, special: Address) -> [u32; HEADER_WORDS]
        ensures { result ≡ renewed self.now.header size special }
    {
        let mut header = self.header;
        header[DATA_SIZE_WORD] = size;
        header[SPECIAL_WORD] = special;
        header
    }

    /// Returns the object memory.
    pub fn heap(&self) -> &Heap
        ensures { result.now ≡ self.now.memory }
    {
        &self.heap
    }

    /// Returns the size of the data in bytes that the header states.
    pub fn data_size(&self) -> u32
        ensures { result ≡ data_size self.now.header }
    {
        self.header[DATA_SIZE_WORD]
    }

    /// Returns header word `k` of the sixteen, as it was read.
    pub fn header(&self, k: u32) -> u32
        requires { k < 16 }
        ensures { result ≡ slice_index self.now.header k }
    {
        self.header[k as usize]
    }
}
