//! The chunk that has a data word.

ghost use Rattle.std.specs.Prelude.{◌≤◌, length, IfSome, IfNone};
ghost use Rattle.std.specs.List.{concat};
ghost use Rattle.sqz_facts.specs.Placed.{HasWord};

use sqz_image::Heap;
use sqz_object::{Chunk, Kind, ObjectIndex, WordIndex, known_chunk};

/// A chunk of a heap, and where it lies.
#[derive(Clone, Copy)]
pub(crate) struct PlacedChunk {
    /// The index of its first word among the data words.
    pub first: WordIndex,
    /// The number of objects before it: its own index, if it is an object.
    pub object: ObjectIndex,
    /// What its header words state.
    pub header: Chunk,
}

/// Returns the chunk that has this data word. None if there are fewer data words.
pub(crate) fn chunk_with(heap: &Heap, word: WordIndex) -> Option<PlacedChunk>
    ensures found { IfSome result (λ placed. HasWord heap.now word placed) }
    ensures none { IfNone result (length (concat heap.now.chunks) ≤ word) }
{
    let data = heap.data();
    let mut object = 0;
    let mut at = 0;
    while at < data.len() {
        let header = known_chunk(&data, at);
        let end = at + header.length as usize;
        if (word as usize) < end {
            let first = at as u32;
            return Some(PlacedChunk {
                first,
                object,
                header,
            });
        }
        match header.kind {
            Kind::Free => {}
            _ => object += 1,
        }
        at = end;
    }
    None
}
