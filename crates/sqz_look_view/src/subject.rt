//! An image with its live objects.

ghost use Rattle.std.specs.Prelude.{IfOk, ◌≡◌, ◌<◌};
ghost use Rattle.sqz_image.specs.Objects.{object_count, address_of};

use crate::hex::Hex;
use sqz_image::Image;
use sqz_names::{name_of_class, name_of_class_of};
use sqz_object::ObjectIndex;
use sqz_trace::{Live, ObjectGraph, Weak};
use std::alloc::{AllocError, Global};

/// An image with its live objects. Only classes are named: the names of other objects take more to
/// find.
#[derive(Drop)]
pub struct Subject<'a> {
    pub alloc: Global,
    pub image: &'a Image,
    pub live: Live<'a>,
    ghost one_heap: { live.graph.heap.now ≡ image.now.memory },
}

impl<'a> Subject<'a> {
    /// Returns an image with its live objects under a policy on weak slots.
    pub fn of(alloc: Global, image: &'a Image, weak: Weak) -> Result<Self, AllocError>
        ensures { IfOk result (λ subject.
            (subject.image.now ≡ image.now) × (subject.live.graph.weak ≡ weak)) }
    {
        let heap = image.heap();
        let live = Live::of(alloc, ObjectGraph { heap, weak })?;
        Ok(Subject { alloc, image, live })
    }

    /// Returns the address of an object.
    pub fn address(&self, object: ObjectIndex) -> Hex
        requires { object < object_count self.now.live.graph.heap.now }
        ensures { result.0 ≡ address_of self.now.live.graph.heap.now object }
    {
        Hex(self.live.graph.heap.address(object))
    }

    /// Returns the name of a class as a class histogram prints it.
    pub fn name_of_class(&self, class: ObjectIndex) -> Result<String, AllocError>
        requires { class < object_count self.now.live.graph.heap.now }
    {
        name_of_class(self.alloc, self.live.graph, class)
    }

    /// Returns the name of an object's class as a class histogram prints it, and `compact K` with
    /// the compact index if the object has no class.
    pub fn name_of_class_of(&self, object: ObjectIndex) -> Result<String, AllocError>
        requires { object < object_count self.now.live.graph.heap.now }
    {
        name_of_class_of(self.alloc, self.live.graph, object)
    }
}
