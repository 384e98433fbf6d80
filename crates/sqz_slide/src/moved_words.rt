//! One word of an object after the move.

ghost use Rattle.std.specs.Prelude.{◌≡◌, ◌<◌, Bool, List, length, slice_index};
ghost use Rattle.sqz_image.specs.Objects.{object_count, chunk_words};
ghost use Rattle.sqz_regions.specs.Bases.{ArePlacesOf};
ghost use Rattle.sqz_slide.specs.ClassWord.{is_class_word};
ghost use Rattle.sqz_slide.specs.Moved.{moved};

use crate::mover::Mover;
use sqz_image::Heap;
use sqz_object::{Kind, ObjectIndex};
use sqz_regions::Forward;
use sqz_trace::{Weak, is_weak, strong_fields};

/// Returns word `k` of the object's chunk after the move, counting header words; a run moves whole
/// objects. A traced field that points to a live object becomes that object's new address. So does
/// a class word, which keeps its low two bits. A weak field that points to a dead object becomes
/// nil's new address. Every other word stays.
pub fn moved_word(heap: &Heap, weak: Weak, forward: &Forward, object: ObjectIndex, k: u32) -> u32
    requires object { object < object_count heap.now }
    requires word { k < length (chunk_words heap.now object) }
    requires one_each { length forward.now ≡ object_count heap.now }
    ensures { (marks : List Bool)
        → ArePlacesOf heap.now marks forward.now
        → result ≡ slice_index (moved heap.now weak marks (chunk_words heap.now object)) k }
{
    let mover = Mover {
        heap,
        weak,
        forward,
    };
    let object = heap.object(object);
    let before = object.header().before;
    let word = object.words().at(k as usize);
    if is_class_word(object.header().kind, k) {
        mover.moved_class(word)
    } else if k <= before {
        word
    } else if k - before <= strong_fields(heap, weak, &object) {
        mover.moved_field(word)
    } else if is_weak(weak, &object) {
        mover.moved_weak(word, mover.nil_place())
    } else {
        word
    }
}

/// Returns whether word `k` of a chunk of this kind is its class word.
fn is_class_word(kind: Kind, k: u32) -> bool
    ensures { result ≡ is_class_word kind k }
{
    match kind {
        Kind::Three => k == 1,
        Kind::Two => k == 0,
        Kind::Free | Kind::Short => false,
    }
}
