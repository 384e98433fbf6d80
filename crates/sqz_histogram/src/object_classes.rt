//! The classes of the objects of a heap.

ghost use Rattle.std.specs.Prelude.{◌≡◌, ◌<◌, IfOk, IfSome};
ghost use Rattle.std.proofs.Props.{props};
ghost use Rattle.sqz_image.specs.Objects.{object_count, chunk_words};
ghost use Rattle.sqz_trace.specs.Strong.{class_of};
ghost use Rattle.sqz_histogram.specs.Keys.{AreCompactClasses};

use crate::classes::{class_by_table, class_table};
use sqz_object::ObjectIndex;
use sqz_trace::ObjectGraph;
use std::alloc::{AllocError, Global};

/// The classes of the objects of a heap. Those that compact indexes stand for are looked up once,
/// and not for each object.
#[derive(Drop)]
pub struct ObjectClasses<'a> {
    /// The objects.
    pub graph: ObjectGraph<'a>,
    /// The class that each compact index stands for, by index.
    by_index: Vec<Option<ObjectIndex>>,
    ghost are_classes: { AreCompactClasses graph.heap.now graph.weak by_index.items } by { Prim.hlevel props },
}

impl<'a> ObjectClasses<'a> {
    /// Returns the classes of the objects of a heap. Fails only if out of memory.
    pub fn of(alloc: Global, graph: ObjectGraph<'a>) -> Result<Self, AllocError>
        ensures { IfOk result (λ classes. classes.graph ≡ graph.entry) }
    {
        let by_index = class_table(alloc, graph)?;
        Ok(ObjectClasses { graph, by_index })
    }

    /// Returns the class of the object with this index. None if no class is found.
    pub fn class_of(&self, object: ObjectIndex) -> Option<ObjectIndex>
        requires { object < object_count self.now.graph.heap.now }
        ensures class { result ≡ class_of self.now.graph.heap.now self.now.graph.weak
            (chunk_words self.now.graph.heap.now object) }
        ensures inside { IfSome result (λ class. class < object_count self.now.graph.heap.now) }
    {
        let heap = self.graph.heap;
        class_by_table(heap, &self.by_index, &heap.object(object))
    }
}
