//! What an object's header says.

ghost use Rattle.std.specs.Prelude.{◌≡◌, ◌+◌, ◌*◌, ◌<◌, length, IfSome};
ghost use Rattle.sqz_object.specs.Value.{base_of};
ghost use Rattle.sqz_object.specs.Chunk.{before, base_word, format, compact_index, fields};
ghost use Rattle.sqz_image.specs.Objects.{object_count, address_of, chunk_words};
ghost use Rattle.sqz_trace.specs.Strong.{class_of};

use sqz_object::{Address, ObjectIndex, base_of};
use sqz_trace::{ObjectGraph, class_of};

/// An object's address, class and size, and the bit fields of its header.
#[derive(Clone, Copy, Debug, PartialEq, Eq)]
pub struct ObjectFacts {
    /// The address of the base header.
    pub address: Address,
    /// The object's class, if it is found.
    pub class: Option<ObjectIndex>,
    /// The length of the chunk in bytes, header words included.
    pub bytes: u64,
    /// The number of header words: 1, 2 or 3.
    pub header_words: u32,
    /// The format: below 16.
    pub format: u32,
    /// The identity hash: below 4096.
    pub hash: u32,
    /// The compact class index: below 32.
    pub compact_index: u32,
    /// The number of fields: the words after the base header.
    pub fields: u32,
}

/// Returns an object's address, class and size, and the bit fields of its header.
pub fn object_facts(graph: ObjectGraph<'_>, object: ObjectIndex) -> ObjectFacts
    requires { object < object_count graph.heap.now }
    ensures address { result.address ≡ address_of graph.entry.heap.now object }
    ensures class { let chunk = chunk_words graph.entry.heap.now object in
        result.class ≡ class_of graph.entry.heap.now graph.entry.weak chunk }
    ensures inside { IfSome result.class (λ class. class < object_count graph.entry.heap.now) }
    ensures bytes { result.bytes ≡ 4 * length (chunk_words graph.entry.heap.now object) }
    ensures header { result.header_words ≡ before (chunk_words graph.entry.heap.now object) + 1 }
    ensures format { result.format ≡ format (chunk_words graph.entry.heap.now object) }
    ensures hash { let word = base_word (chunk_words graph.entry.heap.now object) in
        result.hash ≡ (base_of word).hash }
    ensures compact { let chunk = chunk_words graph.entry.heap.now object in
        result.compact_index ≡ compact_index chunk }
    ensures fields { let chunk = chunk_words graph.entry.heap.now object in
        result.fields ≡ length (fields chunk) }
    ensures whole { result.bytes ≡ 4 * (result.header_words + result.fields) }
{
    let heap = graph.heap;
    let chunk = heap.object(object);
    let header = chunk.header();
    let base = base_of(header.base);
    ObjectFacts {
        address: heap.address(object),
        class: class_of(heap, graph.weak, &chunk),
        bytes: 4 * u64::from(header.length),
        header_words: header.before + 1,
        format: base.format,
        hash: base.hash,
        compact_index: base.compact,
        fields: heap.fields(object),
    }
}
