//! What an image holds.

ghost use Rattle.std.specs.Prelude.{◌≡◌, ◌+◌, ◌*◌, length};
ghost use Rattle.std.specs.List.{concat};
ghost use Rattle.sqz_image.specs.Objects.{object_count};
ghost use Rattle.sqz_trace.specs.Live.{live};
ghost use Rattle.sqz_trace.specs.Dead.{dead, bytes_in};
ghost use Rattle.sqz_facts.specs.FreeChunks.{free_chunks, free_bytes};

use crate::sums::chunk_sums;
use sqz_image::Image;
use sqz_object::{Address, Order};
use sqz_trace::Marks;

/// What an image holds. All numbers of bytes include header words.
#[derive(Clone, Copy)]
pub struct FileFacts {
    /// The byte order.
    pub order: Order,
    /// The number of bytes before the header: 0 or 512.
    pub offset: u32,
    /// The address of the first data word.
    pub base: Address,
    /// The size of the data in bytes.
    pub data_bytes: u64,
    /// The address of the special objects array.
    pub special_objects: Address,
    /// The number of objects.
    pub objects: u32,
    /// The number of marked objects.
    pub live_objects: u32,
    /// The bytes of the marked objects.
    pub live_bytes: u64,
    /// The bytes of the objects that are not marked.
    pub dead_bytes: u64,
    /// The number of free chunks.
    pub free_chunks: u32,
    /// The bytes of the free chunks.
    pub free_bytes: u64,
}

/// Returns what an image holds. With the marks of the reachable objects, the marked objects are
/// the live ones. It reads the header of each chunk once, and allocates no memory.
pub fn file_facts(image: &Image, marks: &Marks) -> FileFacts
    requires { length marks.now ≡ object_count image.now.memory }
    ensures order { result.order ≡ image.now.memory.order }
    ensures offset { result.offset ≡ length image.now.prefix }
    ensures base { result.base ≡ image.now.memory.base }
    ensures data { result.data_bytes ≡ 4 * length (concat image.now.memory.chunks) }
    ensures special { result.special_objects ≡ image.now.memory.special }
    ensures objects { result.objects ≡ object_count image.now.memory }
    ensures live_objects { result.live_objects ≡ length (live image.now.memory marks.now) }
    ensures live_bytes { result.live_bytes ≡ bytes_in (live image.now.memory marks.now) }
    ensures dead_bytes { result.dead_bytes ≡ bytes_in (dead image.now.memory marks.now) }
    ensures free_chunks { result.free_chunks ≡ length (free_chunks image.now.memory) }
    ensures free_bytes { result.free_bytes ≡ free_bytes image.now.memory }
    ensures whole { result.live_bytes + result.dead_bytes + result.free_bytes ≡ result.data_bytes }
{
    let heap = image.heap();
    let sums = chunk_sums(heap, marks);
    FileFacts {
        order: heap.order(),
        offset: image.prefix().len() as u32,
        base: heap.base(),
        data_bytes: 4 * u64::from(heap.words()),
        special_objects: heap.address(heap.special()),
        objects: heap.len(),
        live_objects: marks.count(),
        live_bytes: 4 * u64::from(sums.live_words),
        dead_bytes: 4 * u64::from(sums.dead_words),
        free_chunks: sums.free_chunks,
        free_bytes: 4 * u64::from(sums.free_words),
    }
}
