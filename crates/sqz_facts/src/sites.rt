//! What lies at an address.

ghost use Rattle.std.specs.Prelude.{◌≡◌};
ghost use Rattle.sqz_facts.specs.Sites.{IsSite, object_site};

use crate::placed::chunk_with;
use sqz_image::Heap;
use sqz_image::laws::heap_bounds;
use sqz_object::{Address, Kind, ObjectIndex};

/// What lies at an address.
#[derive(Clone, Copy, Debug, PartialEq, Eq)]
pub enum Site {
    /// The base header of an object: the address is that of the object.
    Object(ObjectIndex),
    /// A header word before the base header of an object, or the second, third or fourth byte of
    /// the base header.
    HeaderWord(ObjectIndex),
    /// A byte of a field of an object.
    Field { object: ObjectIndex, field: u32 },
    /// A byte of a free chunk: the address where the chunk begins, and its length in bytes.
    FreeChunk { address: Address, bytes: u32 },
    /// No byte of the data.
    Outside,
}

/// Returns what lies at an address. All four bytes of a field belong to the field. It reads the
/// headers of the chunks up to the address, and allocates no memory.
pub fn site_of(heap: &Heap, address: Address) -> Site
    ensures { IsSite heap.now address result }
{
    heap_bounds(heap); // every data word lies below address 2^32
    let base = heap.base();
    let Some(offset) = address.checked_sub(base) else {
        return Site::Outside;
    };
    let Some(placed) = chunk_with(heap, offset / 4) else {
        return Site::Outside;
    };
    let first = 4 * placed.first;
    match placed.header.kind {
        Kind::Free => Site::FreeChunk {
            address: base + first,
            bytes: 4 * placed.header.length,
        },
        _ => object_site(placed.object, placed.header.before, offset - first),
    }
}

/// Returns what lies at a byte of an object's chunk. `before` is the number of header words before
/// the base header.
fn object_site(object: ObjectIndex, before: u32, byte: u32) -> Site
    ensures { result ≡ object_site object before byte }
{
    let word = byte / 4;
    if word == before && byte % 4 == 0 {
        Site::Object(object)
    } else if word <= before {
        Site::HeaderWord(object)
    } else {
        Site::Field {
            object,
            field: word - before - 1,
        }
    }
}
