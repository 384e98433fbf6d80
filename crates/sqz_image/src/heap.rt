//! The object memory of an image, and its objects.

ghost use Rattle.std.specs.Prelude.{◌≡◌, ◌⊎◌, ℕ, ◌+◌, ◌-◌, ◌*◌, ◌%◌, ◌^◌, ◌<◌, ◌≤◌, List, map};
ghost use Rattle.std.specs.Prelude.{length, slice_index};
ghost use Rattle.std.specs.Prelude.{Some, IfOk, IfErr};
ghost use Rattle.std.specs.List.{concat, AllByRecursion};
ghost use Rattle.sqz_object.specs.Bytes.{words_of};
ghost use Rattle.sqz_object.specs.Chunk.{fields, IsChunk};
ghost use Rattle.sqz_object.specs.Reading.{description};
ghost use Rattle.sqz_image.specs.declared.fault.Fault.TheVariants.{OutOfMemory};
ghost use Rattle.sqz_image.specs.Objects.{object_count, object_at, address_of, chunk_words, find};
ghost use Rattle.sqz_image.specs.Memory.{memory_of, IsKept, IsNoMemory};
ghost use Rattle.sqz_image.specs.Ranks.{IsPlaceOf, IsRanked, IsTable};

use crate::data_bytes::DataBytes;
use crate::fault::Fault;
use crate::index::{Index, index_of};
use crate::object::Object;
use crate::ranks::{Block, place_of};
use crate::starts::Start;
use sqz_object::{Address, Chunk, ObjectIndex, Order, WordIndex, Words, known_chunk};
use std::alloc::Global;
use std::marker::Model;

/// An object memory as it was saved: chunks of words, each an object or free. An object is
/// referred to by its index, counted from 0 in address order.
#[derive(Drop)]
pub struct Heap {
    order: Order,
    base: Address,
    special: Address,
    special_object: ObjectIndex,
    /// The data words, as bytes of the file.
    bytes: DataBytes,
    /// Where each object's chunk begins.
    starts: Vec<Start>,
    /// The table of the word indexes of the base headers.
    headers: Vec<Block>,
}

impl Model for Heap {
    ghost use Rattle.sqz_object.specs.Bytes.{words_of};
    ghost use Rattle.sqz_image.specs.Objects.{Memory};
    ghost use Rattle.sqz_image.specs.Memory.{memory_of, IsKept};

    ghost Value = { Memory };

    ghost view = { λ heap. memory_of heap.order heap.base heap.special (words_of heap.order
        heap.bytes) };

    ghost invariant = { λ heap. IsKept (memory_of heap.order heap.base heap.special (words_of
        heap.order heap.bytes))
        (words_of heap.order heap.bytes) heap.starts.items heap.headers.items heap.special_object };
}

/// Where the objects of an object memory lie among its data words.
#[derive(Drop)]
pub(crate) struct HeapIndex {
    /// Where each object's chunk begins.
    starts: Vec<Start>,
    /// The table of the word indexes of the base headers.
    headers: Vec<Block>,
    /// The index of the special objects array.
    special_object: ObjectIndex,
}

impl HeapIndex {
    /// Returns where the objects lie that these data bytes encode.
    ///
    /// Fails with `ZeroSize`, `HeaderMismatch` or `Overrun` if the data words are not a sequence
    /// of chunks, and with `BadSpecialObjects` if no object has the address `special`. Otherwise
    /// fails only if out of memory.
    pub(crate) fn of(
        alloc: Global,
        order: Order,
        base: Address,
        special: Address,
        bytes: &[u8],
    ) -> Result<Self, Fault>
        requires few { length (words_of order bytes.now) < 2 ^ 30 }
        requires within { base + 4 * length (words_of order bytes.now) ≤ 2 ^ 32 }
        requires aligned { base % 4 ≡ 0 }
        ensures kept { IfOk result (λ index.
            IsKept (memory_of order base special (words_of order bytes.now))
            (words_of order bytes.now) index.starts.items index.headers.items
            index.special_object) }
        ensures refused { IfErr result (λ fault. (fault ≡ OutOfMemory)
            ⊎ IsNoMemory order base special (words_of order bytes.now) fault) }
    {
        let words = Words::of(order, bytes);
        let index = index_of(alloc, &words)?;
        let Index { starts, headers } = index;
        let Some(special_object) = place_at(&headers, base, special) else {
            return Err(Fault::BadSpecialObjects);
        };
        Ok(HeapIndex {
            starts,
            headers,
            special_object,
        })
    }
}

impl Heap {
    /// Returns the object memory with these data, whose objects lie where an index says.
    pub(crate) fn of(
        order: Order,
        base: Address,
        special: Address,
        bytes: DataBytes,
        index: HeapIndex,
    ) -> Self
        requires { IsKept (memory_of order base special (words_of order bytes))
            (words_of order bytes) index.starts.items index.headers.items index.special_object }
        ensures { result ≡ memory_of order base special (words_of order bytes) }
    {
        Heap {
            order,
            base,
            special,
            special_object: index.special_object,
            bytes,
            starts: index.starts,
            headers: index.headers,
        }
    }

    /// Returns the data words, free chunks included.
    pub fn data(&self) -> Words<'_>
        ensures words { result ≡ concat self.now.chunks }
        ensures few { length result < 2 ^ 30 }
        ensures chunks { AllByRecursion IsChunk self.now.chunks }
    {
        Words::of(self.order, self.bytes.as_slice())
    }

    /// Returns the byte order of the file.
    pub fn order(&self) -> Order
        ensures { result ≡ self.now.order }
    {
        self.order
    }

    /// Returns the address of the first data word.
    pub fn base(&self) -> Address
        ensures base { result ≡ self.now.base }
        ensures aligned { result % 4 ≡ 0 }
    {
        self.base
    }

    /// Returns the number of data words.
    pub fn words(&self) -> u32
        ensures words { result ≡ length (concat self.now.chunks) }
        ensures few { result < 2 ^ 30 }
    {
        self.data().len() as u32
    }

    /// Returns the number of objects.
    pub fn len(&self) -> u32
        ensures objects { result ≡ object_count self.now }
        ensures few { result < 2 ^ 30 }
    {
        self.starts.len() as u32
    }

    /// Returns the address of the object's base header.
    pub fn address(&self, object: ObjectIndex) -> Address
        requires { object < object_count self.now }
        ensures address { result ≡ address_of self.now object }
        ensures within { result + 4 ≤ 2 ^ 32 }
    {
        let offset = 4 * (self.first(object) + self.chunk(object).before);
        offset + self.base
    }

    /// Returns the index of the first word of the object's chunk among the data words.
    pub fn first(&self, object: ObjectIndex) -> WordIndex
        requires { object < object_count self.now }
        ensures first { result ≡ (object_at self.now object).first }
        ensures inside { result + length (chunk_words self.now object) < 2 ^ 30 }
    {
        self.starts[object as usize].first()
    }

    /// Returns the object: its chunk's header and words.
    pub fn object(&self, object: ObjectIndex) -> Object<'_>
        requires { object < object_count self.now }
        ensures { result ≡ chunk_words self.now object }
    {
        let header = self.chunk(object);
        let first = self.first(object) as usize;
        let words = self.data().part(first, first + header.length as usize);
        Object::new(header, words)
    }

    /// Returns what the header words of the object's chunk state.
    pub fn chunk(&self, object: ObjectIndex) -> Chunk
        requires { object < object_count self.now }
        ensures described { result ≡ description (chunk_words self.now object) }
        ensures headed { result.before < result.length }
        ensures few { result.length < 2 ^ 30 }
    {
        known_chunk(&self.data(), self.first(object) as usize)
    }

    /// Returns the length of the object's chunk in words. The header is read only if the next
    /// object's chunk does not follow directly.
    pub fn chunk_length(&self, object: ObjectIndex) -> u32
        requires { object < object_count self.now }
        ensures length { result ≡ length (chunk_words self.now object) }
        ensures few { result < 2 ^ 30 }
    {
        let start = self.starts[object as usize];
        if start.is_followed() {
            self.first(object + 1) - start.first()
        } else {
            self.chunk(object).length
        }
    }

    /// Returns word `k` of the object's chunk, counting header words.
    pub fn word(&self, object: ObjectIndex, k: u32) -> u32
        requires object { object < object_count self.now }
        requires word { k < length (chunk_words self.now object) }
        ensures { result ≡ slice_index (chunk_words self.now object) k }
    {
        self.data().at((self.first(object) + k) as usize)
    }

    /// Returns the number of the object's fields: the words after its base header.
    pub fn fields(&self, object: ObjectIndex) -> u32
        requires { object < object_count self.now }
        ensures { result ≡ length (fields (chunk_words self.now object)) }
    {
        let chunk = self.chunk(object);
        chunk.length - chunk.before - 1
    }

    /// Returns field `k` of the object. Loops over fields use the slice that `object` returns.
    pub fn field(&self, object: ObjectIndex, k: u32) -> u32
        requires object { object < object_count self.now }
        requires field { k < length (fields (chunk_words self.now object)) }
        ensures { result ≡ slice_index (fields (chunk_words self.now object)) k }
    {
        self.word(object, self.chunk(object).before + 1 + k)
    }

    /// Returns the object whose base header has this address, if there is one.
    pub fn find(&self, address: Address) -> Option<ObjectIndex>
        ensures { result ≡ find self.now address }
    {
        place_at(&self.headers, self.base, address)
    }

    /// Returns the special objects array.
    pub fn special(&self) -> ObjectIndex
        ensures special { find self.now self.now.special ≡ Some result }
        ensures inside { result < object_count self.now }
    {
        self.special_object
    }
}

/// There are fewer than 2^30 objects and fewer than 2^30 data words, and every data word lies
/// below address 2^32. A law of every heap: the call does nothing.
pub fn heap_bounds(heap: &Heap)
    ensures objects { object_count heap.now < 2 ^ 30 }
    ensures words { length (concat heap.now.chunks) < 2 ^ 30 }
    ensures within { heap.now.base + 4 * length (concat heap.now.chunks) ≤ 2 ^ 32 }
{
    // the invariant of a heap says so; it is known when a field is used
    let _ = &heap.bytes;
}

/// Returns the index of the object whose base header has this address, if there is one. `headers`
/// is the table of the word indexes of the base headers, `base` the address of word 0.
fn place_at(headers: &[Block], base: Address, address: Address) -> Option<ObjectIndex>
    requires { IsTable headers.now }
    ensures { (indexes : List ℕ) → IsRanked indexes headers.now
        → IsPlaceOf (map (λ index. base + 4 * index) indexes) address result }
{
    let offset = address.checked_sub(base)?;
    if offset % 4 != 0 {
        return None;
    }
    place_of(headers, offset / 4)
}
