//! The chunks of an image, by the parts of their headers.

ghost use Rattle.std.specs.Prelude.{◌≡◌, ◌%◌, ◌<◌, ◌++◌, OnOk};
ghost use Rattle.sqz_object.specs.Value.{base_of};
ghost use Rattle.sqz_test_fixtures.specs.Words.{base_header_of, count, short_words, classed_words};
ghost use Rattle.sqz_test_fixtures.specs.Words.{each_words, long_array_words, chunk_words};

use std::alloc::AllocError;

/// A chunk of a test image: the parts of its header, and the words after it. The size that the
/// header states is computed from them.
#[derive(Clone, Copy)]
pub enum Chunk {
    /// An object with a header of one word.
    Short {
        /// Its compact index.
        compact: u32,
        /// Its format.
        format: u32,
        /// The words of its fields.
        fields: &'static [u32],
    },
    /// Objects with headers of one word that differ in nothing else.
    Each {
        /// The compact index and the format of each.
        kinds: &'static [(u32, u32)],
        /// The words of the fields of each.
        fields: &'static [u32],
    },
    /// An object of compact index 1 and format 1, with a header of one word: the words of its
    /// fields.
    Fixed(&'static [u32]),
    /// An array of compact index 3 and format 2, as most special objects arrays are: the words of
    /// its fields.
    Array(&'static [u32]),
    /// An array of 29 fields, as a special objects array is that points to the array of compact
    /// classes. The fields that are not given hold the integer 0.
    LongArray {
        /// The words of its first fields.
        first: &'static [u32],
        /// The word of its last field, which points to the array of compact classes.
        last: u32,
    },
    /// An object with a header of two words.
    Classed {
        /// The address of its class.
        class: u32,
        /// Its compact index.
        compact: u32,
        /// Its format.
        format: u32,
        /// The words of its fields.
        fields: &'static [u32],
    },
    /// An object of format 1 with a header of two words.
    Instance {
        /// The address of its class.
        class: u32,
        /// The words of its fields.
        fields: &'static [u32],
    },
    /// A weak object with a header of two words.
    Weak {
        /// The address of its class.
        class: u32,
        /// The words of its fields.
        fields: &'static [u32],
    },
    /// An object with a header of three words, whose base header states no size.
    Long {
        /// The address of its class.
        class: u32,
        /// Its compact index.
        compact: u32,
        /// Its format.
        format: u32,
        /// The words of its first fields.
        first: &'static [u32],
        /// The words of its other fields.
        others: &'static [u32],
    },
    /// A free chunk: the words after its first.
    Free(&'static [u32]),
    /// Words as they are.
    Words(&'static [u32]),
}

/// An object without fields, which is nil at the front of an image.
pub const NIL: Chunk = Chunk::Short {
    compact: 1,
    format: 0,
    fields: &[],
};

/// An object with one field, the integer 0: it points to no object.
pub const LEAF: Chunk = Chunk::Short {
    compact: 1,
    format: 0,
    fields: &[1],
};

/// A word that is neither an integer nor an address.
pub const ODD: u32 = 0xFFFF_FFFE;

/// The type of the words of a header of three, which leaves a size and an address as they are.
const OF_THREE: u32 = 0;

/// The type of the words of a header of two.
const OF_TWO: u32 = 1;

/// The type of the one word of a free chunk's header.
const OF_FREE: u32 = 2;

/// The type of a header's only word.
const OF_ONE: u32 = 3;

/// The base header with these parts and a hash of 0. The bits of a part for which there is no room
/// are dropped.
fn base_header(kind: u32, compact: u32, format: u32, size: u32) -> u32
    requires { kind < 4 }
    ensures word { result ≡ base_header_of kind compact format size }
    ensures parts { base_of result ≡ record {
      kind = kind;
      size_field = size % 64;
      format = format % 16;
      compact = compact % 32;
      hash = 0;
    } }
{
    kind + size % 64 * 4 + format % 16 * 256 + compact % 32 * 4096
}

/// The fields of an array of 29 but the last: integers 0.
const ZEROS: [u32; 28] = [1; 28];

/// The number of words. It is at most 999, which no test image exceeds.
pub(crate) fn count_of(words: &[u32]) -> u32
    ensures bound { result < 1000 }
    ensures number { result ≡ count words.now }
{
    words.len().min(999) as u32
}

/// Puts the words of a chunk with a header of one word at the end of words.
fn put_short(
    words: &mut Vec<u32>,
    compact: u32,
    format: u32,
    fields: &[u32],
) -> Result<(), AllocError>
    ensures { OnOk result (words.new.items
        ≡ words.old.items ++ short_words compact format fields.now) }
{
    words.push(base_header(OF_ONE, compact, format, 1 + count_of(fields)))?;
    words.extend_from_slice(fields)
}

/// Puts the words of a chunk with a header of two words at the end of words.
fn put_classed(
    words: &mut Vec<u32>,
    class: u32,
    compact: u32,
    format: u32,
    fields: &[u32],
) -> Result<(), AllocError>
    ensures { OnOk result (words.new.items
        ≡ words.old.items ++ classed_words class compact format fields.now) }
{
    let base = base_header(OF_TWO, compact, format, 1 + count_of(fields));
    words.extend_from_slice(&[class | OF_TWO, base])?;
    words.extend_from_slice(fields)
}

/// Puts the words of objects that differ in compact index and format alone at the end of words.
fn put_each(words: &mut Vec<u32>, kinds: &[(u32, u32)], fields: &[u32]) -> Result<(), AllocError>
    ensures { OnOk result (words.new.items ≡ words.old.items ++ each_words kinds.now fields.now) }
{
    for (compact, format) in kinds {
        put_short(words, *compact, *format, fields)?;
    }
    Ok(())
}

/// Puts the words of an array of 29 fields at the end of words.
fn put_long_array(words: &mut Vec<u32>, first: &[u32], last: u32) -> Result<(), AllocError>
    ensures { OnOk result (words.new.items ≡ words.old.items ++ long_array_words first.now last) }
{
    words.push(base_header(OF_ONE, 3, 2, 30))?;
    words.extend_from_slice(first)?;
    words.extend_from_slice(&ZEROS[first.len().min(28)..])?;
    words.push(last)?;
    Ok(())
}

/// Puts the words of a chunk at the end of words.
pub(crate) fn put_chunk(words: &mut Vec<u32>, chunk: &Chunk) -> Result<(), AllocError>
    ensures { OnOk result (words.new.items ≡ words.old.items ++ chunk_words chunk.now) }
{
    match *chunk {
        Chunk::Short {
            compact,
            format,
            fields,
        } => put_short(words, compact, format, fields),
        Chunk::Each { kinds, fields } => put_each(words, kinds, fields),
        Chunk::Fixed(fields) => put_short(words, 1, 1, fields),
        Chunk::Array(fields) => put_short(words, 3, 2, fields),
        Chunk::LongArray { first, last } => put_long_array(words, first, last),
        Chunk::Classed {
            class,
            compact,
            format,
            fields,
        } => put_classed(words, class, compact, format, fields),
        Chunk::Instance { class, fields } => put_classed(words, class, 0, 1, fields),
        Chunk::Weak { class, fields } => put_classed(words, class, 0, 4, fields),
        Chunk::Long {
            class,
            compact,
            format,
            first,
            others,
        } => {
            let size = 4 * (1 + count_of(first) + count_of(others));
            let base = base_header(OF_THREE, compact, format, 0);
            words.extend_from_slice(&[size, class, base])?;
            words.extend_from_slice(first)?;
            words.extend_from_slice(others)
        }
        Chunk::Free(others) => {
            words.push(4 * (1 + count_of(others)) | OF_FREE)?;
            words.extend_from_slice(others)
        }
        Chunk::Words(plain) => words.extend_from_slice(plain),
    }
}
