//! The objects of a heap, with the edges between them.

ghost use Rattle.std.specs.Prelude.{◌≡◌, ◌<◌, IfSome};
ghost use Rattle.sqz_image.specs.Objects.{object_count, chunk_words};
ghost use Rattle.sqz_trace.specs.Edges.{out_edges};
ghost use Rattle.sqz_trace.specs.Strong.{class_of};
ghost use Rattle.sqz_trace.specs.Targets.{target};

use crate::classes::class_of;
use crate::out_edges::OutEdges;
use crate::slots::target;
use crate::weak::Weak;
use sqz_image::{Heap, Slot};
use sqz_object::ObjectIndex;

/// The objects of a heap, with the edges that a policy on weak slots gives them.
#[derive(Clone, Copy)]
pub struct ObjectGraph<'a> {
    /// The objects.
    pub heap: &'a Heap,
    /// Whether weak slots are edges.
    pub weak: Weak,
}

impl<'a> ObjectGraph<'a> {
    /// Returns the outgoing edges of the object with this index.
    pub fn edges(self, object: ObjectIndex) -> OutEdges<'a>
        requires { object < object_count self.heap.now }
        ensures { result ≡ out_edges self.entry.heap.now self.entry.weak object }
    {
        OutEdges::of(self.heap, self.weak, object)
    }

    /// Returns the class of the object with this index. None if no class is found.
    pub fn class_of(self, object: ObjectIndex) -> Option<ObjectIndex>
        requires { object < object_count self.heap.now }
        ensures class { result
            ≡ class_of self.entry.heap.now self.entry.weak (chunk_words self.entry.heap.now object) }
        ensures inside { IfSome result (λ class. class < object_count self.entry.heap.now) }
    {
        class_of(self.heap, self.weak, &self.heap.object(object))
    }

    /// Returns the object that a traced slot of an object points to, whether the slot is weak or
    /// not. None also if the object has no such slot.
    pub fn target(self, object: ObjectIndex, slot: Slot) -> Option<ObjectIndex>
        requires { object < object_count self.heap.now }
        ensures target { result ≡ target self.entry.heap.now object slot }
        ensures inside { IfSome result (λ found. found < object_count self.entry.heap.now) }
    {
        target(self.heap, object, slot)
    }
}
