//! What an image is inspected with.

ghost use Rattle.std.specs.Prelude.{IfOk, length, ◌≡◌, ◌*◌, ◌<◌};
ghost use Rattle.sqz_image.specs.Objects.{object_count, chunk_words, address_of};

use crate::hex::Hex;
use crate::subject::Subject;
use sqz_image::Image;
use sqz_names::Names;
use sqz_object::ObjectIndex;
use sqz_trace::Live;
use std::alloc::{AllocError, Global};

/// An image with its live objects and the names of what it holds.
#[derive(Drop)]
pub struct Inspector<'a> {
    pub alloc: Global,
    pub image: &'a Image,
    pub live: Live<'a>,
    pub names: Names<'a>,
    ghost one_heap: { live.graph.heap.now ≡ image.now.memory },
    ghost one_graph: { names.graph ≡ live.graph },
}

impl<'a> Inspector<'a> {
    /// Returns an inspector of an image, with all its names.
    pub fn of(subject: Subject<'a>) -> Result<Self, AllocError>
        ensures { IfOk result (λ inspector. (inspector.image.now ≡ subject.entry.image.now)
            × (inspector.live.graph.weak ≡ subject.entry.live.graph.weak)) }
    {
        let Subject { alloc, image, live } = subject;
        let names = Names::of(alloc, &live)?;
        Ok(Inspector {
            alloc,
            image,
            live,
            names,
        })
    }

    /// Returns the length in bytes of an object's chunk.
    pub fn bytes(&self, object: ObjectIndex) -> u64
        requires { object < object_count self.now.live.graph.heap.now }
        ensures { result ≡ 4 * length (chunk_words self.now.live.graph.heap.now object) }
    {
        4 * u64::from(self.live.graph.heap.chunk_length(object))
    }

    /// Returns the address of an object.
    pub fn address(&self, object: ObjectIndex) -> Hex
        requires { object < object_count self.now.live.graph.heap.now }
        ensures { result.0 ≡ address_of self.now.live.graph.heap.now object }
    {
        Hex(self.live.graph.heap.address(object))
    }
}
