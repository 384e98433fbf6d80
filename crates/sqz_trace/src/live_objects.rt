//! The live objects of a heap.

ghost use Rattle.std.specs.Prelude.{◌≡◌, IfOk, None, length};
ghost use Rattle.std.specs.Bool.{OnTrue};
ghost use Rattle.sqz_image.specs.Objects.{object_count};
ghost use Rattle.sqz_trace.specs.Faults.{first_fault};
ghost use Rattle.sqz_trace.specs.Reachability.{IsReachability};

use crate::marking::{Marking, mark_reachable};
use crate::marks::Marks;
use crate::object_graph::ObjectGraph;
use std::alloc::{AllocError, Global};

/// The objects of a heap, with the marks of the live ones: those that are reachable.
#[derive(Drop)]
pub struct Live<'a> {
    /// The objects.
    pub graph: ObjectGraph<'a>,
    /// One mark per object; the reachable objects are marked.
    pub marks: Marks,
    /// Whether it is known that the image has no fault. False says nothing.
    pub(crate) is_sound: bool,
    ghost one_each: { length marks ≡ object_count graph.heap.now },
    ghost reachable: { ∥ IsReachability graph.heap.now graph.weak marks ∥₁ },
    ghost sound: { ∥ OnTrue is_sound (first_fault graph.heap.now graph.weak marks ≡ None) ∥₁ },
}

impl<'a> Live<'a> {
    /// Marks the live objects of a heap, in one thread, and notes whether all that is reached is
    /// sound.
    pub fn of(alloc: Global, graph: ObjectGraph<'a>) -> Result<Self, AllocError>
        ensures { IfOk result (λ live. live.graph ≡ graph.entry) }
    {
        let Marking { marks, is_sound } = mark_reachable(alloc, graph)?;
        Ok(Live {
            graph,
            marks,
            is_sound,
        })
    }
}
