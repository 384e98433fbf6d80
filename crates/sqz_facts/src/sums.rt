//! How many words the chunks of a heap have, by what the chunks are.

ghost use Rattle.std.specs.Prelude.{◌≡◌};
ghost use Rattle.sqz_trace.specs.Dead.{bytes_in};
ghost use Rattle.sqz_trace.specs.Live.{live};
ghost use Rattle.sqz_facts.specs.Sums.{sums_of};

use sqz_image::Heap;
use sqz_object::{Kind, known_chunk};
use sqz_trace::Marks;

/// The words of the chunks of a heap, header words included, and the number of free chunks.
#[derive(Clone, Copy)]
pub(crate) struct ChunkSums {
    /// The words of the marked objects.
    pub live_words: u32,
    /// The words of the other objects.
    pub dead_words: u32,
    /// The number of free chunks.
    pub free_chunks: u32,
    /// The words of the free chunks.
    pub free_words: u32,
}

/// Returns the sums over the chunks of a heap.
pub(crate) fn chunk_sums(heap: &Heap, marks: &Marks) -> ChunkSums
    ensures { result ≡ sums_of marks.now heap.now.chunks }
{
    let data = heap.data();
    let mut sums = ChunkSums {
        live_words: 0,
        dead_words: 0,
        free_chunks: 0,
        free_words: 0,
    };
    let mut object = 0;
    let mut at = 0;
    while at < data.len() {
        let chunk = known_chunk(&data, at);
        match chunk.kind {
            Kind::Free => {
                sums.free_chunks += 1;
                sums.free_words += chunk.length;
            }
            _ => {
                if marks.has(object) {
                    sums.live_words += chunk.length;
                } else {
                    sums.dead_words += chunk.length;
                }
                object += 1;
            }
        }
        at += chunk.length as usize;
    }
    sums
}

/// Returns the number of bytes of the chunks of the marked objects, header words included. It reads
/// the header of each chunk once, and allocates no memory.
pub fn marked_bytes(heap: &Heap, marks: &Marks) -> u64
    ensures { result ≡ bytes_in (live heap.now marks.now) }
{
    4 * u64::from(chunk_sums(heap, marks).live_words)
}
