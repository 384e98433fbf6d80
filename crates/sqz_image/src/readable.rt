//! What can be read of a file before a chunk that cannot be read.

ghost use Rattle.std.specs.Prelude.{◌≡◌, ◌+◌, ◌*◌, ◌%◌, ◌^◌, ◌<◌, ◌≤◌, length, IfOk, IsSome};
ghost use Rattle.std.specs.Prelude.{IfSome};
ghost use Rattle.sqz_image.specs.Readable.{IsReadable, IsReadableOf};
ghost use Rattle.sqz_image.specs.Refusals.{HasUnreadableChunk};
ghost use Rattle.sqz_image.specs.Unread.{IsUnread};

use crate::header::HEADER_SIZE;
use crate::index::index_of;
use crate::laws::byte_bounds;
use crate::reading::UnreadFile;
use sqz_object::{Address, Words, known_chunk};
use std::alloc::{AllocError, Global};

/// The objects of a file before a chunk that cannot be read.
#[derive(Clone, Copy, Debug, PartialEq, Eq)]
pub struct Readable {
    /// The number of objects.
    pub objects: u32,
    /// The address of the last object. None if there is no object.
    pub last: Option<Address>,
}

impl UnreadFile {
    /// Returns the objects before the chunk that cannot be read. None if every chunk can be read,
    /// or if the header has a fault.
    pub fn readable(&self, alloc: Global) -> Result<Option<Readable>, AllocError>
        requires { IsUnread self.now.bytes.items self.now }
        ensures objects { IfOk result (λ readable.
            IfSome readable (IsReadableOf self.now.bytes.items self.now.fault)) }
        ensures some { IfOk result (λ readable.
            HasUnreadableChunk self.now.bytes.items self.now.fault → IsSome readable) }
    {
        byte_bounds(&self.bytes); // each byte is below 256
        let Some(word) = self.fault.unread_word() else {
            return Ok(None);
        };
        let Some(header) = self.header else {
            return Ok(None);
        };
        if let Some(_) = header.fault(&self.bytes) {
            return Ok(None);
        }
        let start = header.offset + HEADER_SIZE;
        let end = start + header.data_size() as usize;
        let words = Words::of(header.order, &self.bytes[start..end]);
        let (front, _) = words.split_at((word as usize).min(words.len()));
        let readable = readable_in(alloc, header.base(), &front)?;
        Ok(Some(readable))
    }
}

/// Returns the objects of words that are a sequence of chunks. `base` is the address of word 0.
/// Fails if out of memory, and if the words are not a sequence of chunks.
fn readable_in(alloc: Global, base: Address, words: &Words<'_>) -> Result<Readable, AllocError>
    requires few { length words.now < 2 ^ 30 }
    requires within { base + 4 * length words.now ≤ 2 ^ 32 }
    requires aligned { base % 4 ≡ 0 }
    ensures { IfOk result (IsReadable base words.now) }
{
    let index = match index_of(alloc, words) {
        Ok(index) => index,
        Err(_) => return Err(AllocError),
    };
    let objects = index.starts.len() as u32;
    if objects == 0 {
        return Ok(Readable {
            objects,
            last: None,
        });
    }
    let first = index.starts[objects as usize - 1].first();
    let offset = first + known_chunk(words, first as usize).before;
    let last = Some(base + 4 * offset);
    Ok(Readable { objects, last })
}
