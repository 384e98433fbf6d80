//! The header of an image file, and its offset in the file.

ghost use Rattle.std.specs.Prelude.{◌≡◌, ◌⊎◌, ◌≤◌, length, take, IfOk, IfErr, IsTrue, Some};
ghost use Rattle.sqz_object.specs.Bytes.{words_of};
ghost use Rattle.sqz_image.specs.File.{order_of, prefix_size, header_offset, header_of};
ghost use Rattle.sqz_image.specs.File.{IsHeader, HasNoHeader, base_address, data_size, special_address};
ghost use Rattle.sqz_image.specs.Refusals.{header_fault, file_fault, words_fault};
ghost use Rattle.sqz_image.specs.Fronts.{BeginsNoImage};

use crate::fault::Fault;
use sqz_object::{Address, Order, word_at};

/// The first header word of a supported image.
const VERSION: u32 = 6502;

/// The size of the header in bytes.
pub const HEADER_SIZE: usize = 64;

/// The size of the header in words.
pub(crate) const HEADER_WORDS: usize = 16;

/// The index of the header word that holds the size of the header in bytes.
const HEADER_SIZE_WORD: usize = 1;

/// The index of the header word that holds the size of the data in bytes.
pub(crate) const DATA_SIZE_WORD: usize = 2;

/// The index of the header word that holds the address of the first data word.
pub(crate) const BASE_WORD: usize = 3;

/// The index of the header word that holds the address of the special objects array.
pub(crate) const SPECIAL_WORD: usize = 4;

/// The number of bytes before the header, if the header does not begin the file.
const PREFIX_SIZE: usize = 512;

/// The header of an image file.
#[derive(Clone, Copy, Debug, PartialEq, Eq)]
pub struct Header {
    /// The byte order of the file.
    pub order: Order,
    /// The offset of the header in the file in bytes: 0, or 512.
    pub offset: usize,
    /// The sixteen header words.
    pub words: [u32; HEADER_WORDS],
}

impl Header {
    /// Returns the header of a file, whatever sizes and addresses it states. Fails with `TooShort`
    /// or `BadVersion` if the file has none.
    pub fn of(file: &[u8]) -> Result<Self, Fault>
        ensures header { IfOk result (IsHeader file.now) }
        ensures fault { IfErr result (λ fault. file_fault file.now ≡ Some fault) }
        ensures none { IfErr result (λ fault. HasNoHeader file.now) }
    {
        let offset = header_offset(file);
        let bytes = &file[offset..];
        if bytes.len() < HEADER_SIZE {
            return Err(Fault::TooShort);
        }
        let Some(order) = order_of(bytes) else {
            return Err(Fault::BadVersion);
        };
        let words = header_words(order, bytes);
        Ok(Header {
            order,
            offset,
            words,
        })
    }

    /// Returns whether the first bytes of a file are enough to know that its header has a fault:
    /// `BadVersion`, `BadHeaderSize`, `BadDataSize` or `BadBase`, whatever follows them. The answer
    /// is no for fewer bytes than a prefix and a header take.
    pub(crate) fn is_refused(front: &[u8]) -> bool
        ensures { IsTrue result → BeginsNoImage front.now }
    {
        if front.len() < PREFIX_SIZE + HEADER_SIZE {
            return false;
        }
        match Header::of(front) {
            Ok(header) => header.words_fault().is_some(),
            Err(_) => true,
        }
    }

    /// Returns the address of the first data word that the header states.
    pub fn base(&self) -> Address
        ensures { result ≡ base_address self.now.words }
    {
        self.words[BASE_WORD]
    }

    /// Returns the size of the data in bytes that the header states.
    pub fn data_size(&self) -> u32
        ensures { result ≡ data_size self.now.words }
    {
        self.words[DATA_SIZE_WORD]
    }

    /// Returns the address of the special objects array that the header states.
    pub fn special(&self) -> Address
        ensures { result ≡ special_address self.now.words }
    {
        self.words[SPECIAL_WORD]
    }

    /// Returns what is wrong with the header words, whatever follows them: `BadHeaderSize`,
    /// `BadDataSize` or `BadBase`.
    pub fn words_fault(&self) -> Option<Fault>
        ensures { result ≡ words_fault self.now.words }
    {
        words_fault(&self.words)
    }

    /// Returns the first fault of the header of a file, if it has one.
    pub(crate) fn fault(&self, file: &[u8]) -> Option<Fault>
        requires { IsHeader file.now self.now }
        ensures { result ≡ file_fault file.now }
    {
        header_fault(&self.words, file.len() - self.offset)
    }
}

/// Returns the byte order in which the first word is the version, if there is one.
fn order_of(bytes: &[u8]) -> Option<Order>
    requires { 4 ≤ length bytes.now }
    ensures { result ≡ order_of bytes.now }
{
    if word_at(bytes, Order::Little, 0) == VERSION {
        return Some(Order::Little);
    }
    if word_at(bytes, Order::Big, 0) == VERSION {
        return Some(Order::Big);
    }
    None
}

/// Returns the offset of the header in bytes: 512 if the version is at offset 512, in either byte
/// order, and not at offset 0; else 0.
fn header_offset(file: &[u8]) -> usize
    ensures offset { result ≡ header_offset file.now }
    ensures inside { result ≤ length file.now }
    ensures one_of { (result ≡ 0) ⊎ (result ≡ prefix_size) }
{
    if file.len() < PREFIX_SIZE + 4 || order_of(file).is_some() {
        return 0;
    }
    match order_of(&file[PREFIX_SIZE..]) {
        Some(_) => PREFIX_SIZE,
        None => 0,
    }
}

/// Returns the sixteen words that the first 64 bytes encode.
fn header_words(order: Order, bytes: &[u8]) -> [u32; HEADER_WORDS]
    requires { 64 ≤ length bytes.now }
    ensures { result ≡ words_of order (take 64 bytes.now) }
{
    let bytes = &bytes[..HEADER_SIZE];
    let mut words = [0u32; HEADER_WORDS];
    for k in 0..HEADER_WORDS {
        words[k] = word_at(bytes, order, k);
    }
    words
}

/// Returns what is wrong with the header words, if anything. `bytes` is the number of bytes from
/// the header on.
fn header_fault(words: &[u32; HEADER_WORDS], bytes: usize) -> Option<Fault>
    ensures { result ≡ header_fault words.now bytes }
{
    if let Some(fault) = words_fault(words) {
        return Some(fault);
    }
    if bytes < HEADER_SIZE + words[DATA_SIZE_WORD] as usize {
        return Some(Fault::Truncated);
    }
    None
}

/// Returns what is wrong with the header words, whatever follows them.
fn words_fault(words: &[u32; HEADER_WORDS]) -> Option<Fault>
    ensures { result ≡ words_fault words.now }
{
    let header_size = words[HEADER_SIZE_WORD];
    let data_size = words[DATA_SIZE_WORD];
    let base = words[BASE_WORD];
    if header_size as usize != HEADER_SIZE {
        return Some(Fault::BadHeaderSize);
    }
    if data_size % 4 != 0 {
        return Some(Fault::BadDataSize);
    }
    if base % 4 != 0 || u64::from(base) + u64::from(data_size) > 1 << 32 {
        return Some(Fault::BadBase);
    }
    None
}
