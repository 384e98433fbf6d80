//! What a run works with.

use std::alloc::Global;

/// What a run works with: the runtime, the allocator, the gate that its workers pass, and the
/// observer of its stages.
#[derive(Drop)]
pub struct Session<'a, T, G, O> {
    pub rt: &'a T,
    pub alloc: Global,
    pub gate: &'a G,
    pub observer: &'a mut O,
}
