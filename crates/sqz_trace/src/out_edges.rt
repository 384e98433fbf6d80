//! The outgoing edges of an object.

ghost use Rattle.std.specs.Prelude.{◌≡◌, ◌^◌, ◌<◌, ◌≤◌, length, IfSome};
ghost use Rattle.sqz_image.specs.Objects.{object_count};
ghost use Rattle.sqz_trace.specs.Edges.{out_edges, edges_by_word, strong_slots, edge_target, nil};
ghost use Rattle.sqz_trace.specs.Soundness.{is_good_slot, is_well_formed};

use crate::classes::class_named;
use crate::defects::{is_bad_context, is_bad_method, is_bad_word, lacks_class};
use crate::edge_slots::StrongSlots;
use crate::fixed::{fixed_of, is_weak};
use crate::slots::{named_among, traced_fields, word_among};
use crate::strong_slots::strong_fields;
use crate::weak::Weak;
use sqz_image::{Heap, Object, Slot};
use sqz_object::ObjectIndex;
use std::marker::Model;

/// The outgoing edges of an object: its strong slots, and the objects that they point to. The
/// header of the object is read once.
#[derive(Drop)]
pub struct OutEdges<'a> {
    heap: &'a Heap,
    object: Object<'a>,
    /// The number of its strong fields.
    strong: u32,
}

impl<'a> Model for OutEdges<'a> {
    ghost use Rattle.std.specs.Prelude.{◌≤◌, length};
    ghost use Rattle.sqz_object.specs.Chunk.{fields};
    ghost use Rattle.sqz_trace.specs.Edges.{OutEdges};

    ghost Value = { OutEdges };

    ghost view = { λ edges. record {
      memory = edges.heap.now;
      words = edges.object;
      strong =
          edges.strong;
    } };

    ghost invariant = { λ edges. edges.strong ≤ length (fields edges.object) };
}

impl<'a> OutEdges<'a> {
    /// Returns the edges of the object with this index.
    pub fn of(heap: &'a Heap, weak: Weak, index: ObjectIndex) -> Self
        requires { index < object_count heap.now }
        ensures { result ≡ out_edges heap.now weak index }
    {
        let object = heap.object(index);
        let strong = strong_fields(heap, weak, &object);
        OutEdges {
            heap,
            object,
            strong,
        }
    }

    /// Returns the edges of the object with this index, taking as its class what its class word
    /// points to.
    pub(crate) fn by_class_word(heap: &'a Heap, weak: Weak, index: ObjectIndex) -> Self
        requires { index < object_count heap.now }
        ensures { result ≡ edges_by_word heap.now weak index }
    {
        let object = heap.object(index);
        let strong = if is_weak(weak, &object) {
            fixed_of(heap, class_named(heap, &object), &object)
        } else {
            traced_fields(&object)
        };
        OutEdges {
            heap,
            object,
            strong,
        }
    }

    /// Returns the strong slots: the class word, and then the strong fields in order.
    pub fn slots(&self) -> StrongSlots
        ensures { result ≡ strong_slots self.now }
    {
        StrongSlots::new(self.strong)
    }

    /// There are at most 2^30 strong slots. A law of all edges: the call does nothing.
    pub fn slot_bounds(&self)
        ensures { length (strong_slots self.now) ≤ 2 ^ 30 }
    {
        let _fields = self.object.fields(); // fewer than 2^30 words
    }

    /// Returns the object that a strong slot points to. None for a weak slot, and if the object
    /// has no such slot.
    pub fn target(&self, slot: Slot) -> Option<ObjectIndex>
        ensures target { result ≡ edge_target self.now slot }
        ensures inside { IfSome result (λ found. found < object_count self.now.memory) }
    {
        named_among(self.heap, &self.object, self.strong, slot)
    }

    /// Returns whether a strong slot holds a SmallInteger or the address of an object. True also for
    /// a weak slot, and if the object has no such slot.
    pub fn is_good(&self, slot: Slot) -> bool
        ensures { result ≡ is_good_slot self.now slot }
    {
        match word_among(&self.object, self.strong, slot) {
            Some(word) => !is_bad_word(self.heap, word),
            None => true,
        }
    }

    /// Returns whether the object has a class word or a compact class index, and is neither a bad
    /// method nor a bad context.
    pub fn is_well_formed(&self) -> bool
        ensures { result ≡ is_well_formed self.now.words }
    {
        !lacks_class(&self.object) && !is_bad_method(&self.object) && !is_bad_context(&self.object)
    }
}

/// Returns nil: the object that field 0 of the special objects array points to, if that is a
/// strong slot.
pub fn nil(heap: &Heap, weak: Weak) -> Option<ObjectIndex>
    ensures nil { result ≡ nil heap.now weak }
    ensures inside { IfSome result (λ nil. nil < object_count heap.now) }
{
    OutEdges::of(heap, weak, heap.special()).target(Slot::Field(0))
}
