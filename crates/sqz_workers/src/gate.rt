//! The gate that workers pass.

/// What workers do in a turn.
#[derive(Clone, Copy, PartialEq, Eq, Debug)]
pub enum Phase {
    /// They mark reachable objects.
    Mark,
    /// They move the live objects of a region.
    Slide,
}

/// What each worker passes at the beginning of each of its turns. A gate may hold a worker for a
/// while, so that a test sees that others go on meanwhile; it lets each through in the end.
pub trait Gate: Sync {
    /// Called by the worker with this number, at the beginning of this turn of the phase. Turns
    /// are counted from 0. A worker without work passes once too.
    fn pass(&self, phase: Phase, worker: u32, turn: u64);
}

/// The gate that holds no worker.
#[derive(Clone, Copy)]
pub struct OpenGate;

impl Gate for OpenGate {
    /// Lets the worker through at once.
    fn pass(&self, _phase: Phase, _worker: u32, _turn: u64) {}
}
