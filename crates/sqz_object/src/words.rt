//! The words of a file, read from its bytes.

ghost use Rattle.std.specs.Prelude.{◌≡◌, ◌-◌, ◌<◌, ◌≤◌, ◌↔◌, [], IsTrue, length, take, drop};
ghost use Rattle.std.specs.Prelude.{slice_index, slice_get};
ghost use Rattle.std.specs.Iterator.{YieldsFirst, item_count};
ghost use Rattle.sqz_object.specs.Bytes.{words_of};

use crate::order::Order;
use crate::word::word_of;
use crate::word_list::WordList;
use std::marker::Model;

/// 32-bit words that stay as bytes of a file: four bytes each, in one byte order. Contracts see
/// the list of the words.
#[derive(Drop)]
pub struct Words<'a> {
    order: Order,
    bytes: &'a [[u8; 4]],
}

impl<'a> Model for Words<'a> {
    ghost use Rattle.std.specs.Prelude.{ℕ, List, map};
    ghost use Rattle.sqz_object.specs.Bytes.{number_of};

    ghost Value = { List ℕ };

    ghost view = { λ words. map (number_of words.order) words.bytes.now };
}

impl<'a> Words<'a> {
    /// Returns the words that `bytes` encode. One to three bytes left over at the end are ignored.
    pub fn of(order: Order, bytes: &'a [u8]) -> Self
        ensures { result ≡ words_of order bytes.now }
    {
        let (bytes, _) = bytes.as_chunks::<4>();
        Words { order, bytes }
    }

    /// Returns the number of words.
    pub fn len(&self) -> usize
        ensures { result ≡ length self.now }
    {
        self.bytes.len()
    }

    /// Returns whether there are no words.
    pub fn is_empty(&self) -> bool
        ensures { IsTrue result ↔ (length self.now ≡ 0) }
    {
        self.len() == 0
    }

    /// Returns word `k`.
    pub fn at(&self, k: usize) -> u32
        requires { k < length self.now }
        ensures { result ≡ slice_index self.now k }
    {
        word_of(self.order, &self.bytes[k])
    }

    /// Returns word `k`, if there is one.
    pub fn get(&self, k: usize) -> Option<u32>
        ensures { result ≡ slice_get self.now k }
    {
        if k < self.len() {
            Some(self.at(k))
        } else {
            None
        }
    }

    /// Returns the words from `start` up to `end`.
    pub fn part(&self, start: usize, end: usize) -> Words<'a>
        requires ordered { start ≤ end }
        requires inside { end ≤ length self.now }
        ensures { result ≡ take (end - start) (drop start self.now) }
    {
        let bytes = &self.bytes[start..end];
        Words {
            order: self.order,
            bytes,
        }
    }

    /// Returns the first `count` words, and the remaining ones.
    pub fn split_at(&self, count: usize) -> (Words<'a>, Words<'a>)
        requires { count ≤ length self.now }
        ensures front { result.0 ≡ take count self.now }
        ensures back { result.1 ≡ drop count self.now }
    {
        let order = self.order;
        let (front, back) = self.bytes.split_at(count);
        let front = Words {
            order,
            bytes: front,
        };
        let back = Words { order, bytes: back };
        (front, back)
    }

    /// Returns an iterator over the words.
    pub fn iter(&self) -> WordIter<'a>
        ensures { result ≡ self.now }
    {
        WordIter {
            order: self.order,
            bytes: self.bytes,
        }
    }
}

impl WordList for Words<'_> {
    ghost words = { λ words. words };

    fn count(&self) -> usize {
        self.len()
    }

    fn word(&self, k: usize) -> u32 {
        self.at(k)
    }
}

/// An iterator over the words of a file. Contracts see the list of the words that are left.
#[derive(Drop)]
pub struct WordIter<'a> {
    order: Order,
    bytes: &'a [[u8; 4]],
}

impl<'a> Model for WordIter<'a> {
    ghost use Rattle.std.specs.Prelude.{ℕ, List, map};
    ghost use Rattle.sqz_object.specs.Bytes.{number_of};

    ghost Value = { List ℕ };

    ghost view = { λ words. map (number_of words.order) words.bytes.now };
}

impl Iterator for WordIter<'_> {
    type Item = u32;

    ghost next_gives = { YieldsFirst (λ rest. rest) };

    ghost remaining = { item_count (λ rest. rest) };

    fn next(&mut self) -> Option<u32> {
        let (first, rest) = self.bytes.split_first()?;
        self.bytes = rest;
        Some(word_of(self.order, first))
    }

    fn size_hint(&self) -> (usize, Option<usize>) {
        let len = self.bytes.len();
        (len, Some(len))
    }
}
