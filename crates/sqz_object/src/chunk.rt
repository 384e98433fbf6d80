//! One chunk of the object memory, read from its header words.

ghost use Rattle.std.specs.Prelude.{◌≡◌, ◌==◌, ◌-◌, ◌^◌, ◌<◌, ◌≤◌, length, take, drop, slice_index};
ghost use Rattle.std.specs.Prelude.{IfOk, IfErr};
ghost use Rattle.std.specs.List.{list_all};
ghost use Rattle.sqz_object.specs.Chunk.{header_type, kind_of, words_before};
ghost use Rattle.sqz_object.specs.Partition.{size_stated};
ghost use Rattle.sqz_object.specs.Reading.{BeginsWith, HasNoChunk};

use crate::base::base_of;
use crate::word_list::WordList;

/// The kind of a chunk, by the type of its first word: an object with a header of three words, two
/// words or one word (`Short`), or a free chunk.
#[derive(Clone, Copy, Debug, PartialEq, Eq)]
pub enum Kind {
    Three,
    Two,
    Free,
    Short,
}

/// What the header words of a chunk state.
#[derive(Clone, Copy, Debug, PartialEq, Eq)]
pub struct Chunk {
    pub kind: Kind,
    /// The number of header words before the base header.
    pub before: u32,
    /// The number of words of the whole chunk, header words included.
    pub length: u32,
    /// The base header word; for a free chunk, its only header word.
    pub base: u32,
}

/// Why no chunk begins at a word.
#[derive(Clone, Copy, Debug, PartialEq, Eq)]
pub enum ChunkFault {
    /// The header states a size of 0 words.
    ZeroSize,
    /// The header words have different types.
    HeaderMismatch,
    /// The header, or the words that it states, run past the end.
    Overrun,
}

/// Returns the chunk that begins at word `p`, or the first reason why none does: the header words
/// run past the end (`Overrun`), their types differ (`HeaderMismatch`), they state a size of 0
/// words (`ZeroSize`), or the stated words run past the end (`Overrun`).
pub fn chunk_at(words: &[u32], p: usize) -> Result<Chunk, ChunkFault>
    requires inside { p < length words.now }
    requires bounded { length words.now < 2 ^ 30 }
    ensures chunk { IfOk result (λ chunk. BeginsWith (drop p words.now) chunk) }
    ensures fault { IfErr result (λ fault. HasNoChunk (drop p words.now) fault) }
{
    chunk_in(&words, p)
}

/// As `chunk_at`, for any list of words.
pub fn chunk_in<W: WordList>(words: &W, p: usize) -> Result<Chunk, ChunkFault>
    requires inside { p < length (W.words words.now) }
    requires bounded { length (W.words words.now) < 2 ^ 30 }
    ensures chunk { IfOk result (λ chunk. BeginsWith (drop p (W.words words.now)) chunk) }
    ensures fault { IfErr result (λ fault. HasNoChunk (drop p (W.words words.now)) fault) }
{
    let count = words.count() - p;
    let first = words.word(p);
    let kind = kind_of(first);
    let before = words_before(kind);
    if count < before as usize + 1 {
        return Err(ChunkFault::Overrun);
    }
    let at = p + before as usize;
    if !is_of_one_type(words, p, at + 1) {
        return Err(ChunkFault::HeaderMismatch);
    }
    let base = words.word(at);
    let size = stated_size(kind, first, base);
    if size == 0 {
        return Err(ChunkFault::ZeroSize);
    }
    let length = before + size;
    if count < length as usize {
        return Err(ChunkFault::Overrun);
    }
    Ok(Chunk {
        kind,
        before,
        length,
        base,
    })
}

/// Returns the chunk that is known to begin at word `p`. Its header is read, but not checked
/// again.
pub fn known_chunk<W: WordList>(words: &W, p: usize) -> Chunk
    requires begins { (chunk : Chunk) × BeginsWith (drop p (W.words words.now)) chunk }
    requires bounded { length (W.words words.now) < 2 ^ 30 }
    ensures { BeginsWith (drop p (W.words words.now)) result }
{
    let first = words.word(p);
    let kind = kind_of(first);
    let before = words_before(kind);
    let base = words.word(p + before as usize);
    let length = before + stated_size(kind, first, base);
    Chunk {
        kind,
        before,
        length,
        base,
    }
}

/// Returns the kind of the chunk that begins with `word`, by the word's header type.
fn kind_of(word: u32) -> Kind
    ensures { result ≡ kind_of word }
{
    match word % 4 {
        0 => Kind::Three,
        1 => Kind::Two,
        2 => Kind::Free,
        _ => Kind::Short,
    }
}

/// Returns the number of header words before the base header of a chunk.
fn words_before(kind: Kind) -> u32
    ensures before { result ≡ words_before kind }
    ensures few { result ≤ 2 }
{
    match kind {
        Kind::Three => 2,
        Kind::Two => 1,
        Kind::Free | Kind::Short => 0,
    }
}

/// Returns whether the words from `start` up to `end` all have the header type of the first one.
fn is_of_one_type<W: WordList>(words: &W, start: usize, end: usize) -> bool
    requires some { start < end }
    requires inside { end ≤ length (W.words words.now) }
    ensures { result ≡ list_all (λ word.
        header_type word == header_type (slice_index (W.words words.now) start))
        (take (end - start) (drop start (W.words words.now))) }
{
    let first = words.word(start) % 4;
    for k in start + 1..end {
        if words.word(k) % 4 != first {
            return false;
        }
    }
    true
}

/// Returns the size in words, from the base header on, that a chunk's header states. `first` is
/// the chunk's first word, `base` its base header word.
fn stated_size(kind: Kind, first: u32, base: u32) -> u32
    ensures { result ≡ size_stated kind first base }
{
    match kind {
        Kind::Three | Kind::Free => first / 4,
        Kind::Two | Kind::Short => base_of(base).size_field,
    }
}
