//! Marking by workers in turns, and the gate that each worker passes at the beginning of a turn.
#![tactic(auto)]

mod gate;
mod locked;
mod locked_marking;
mod marked;
mod remaining;
mod scanning;
mod shared_work;
mod stealing;
mod team;
mod turns;
mod worklist;

pub use gate::{Gate, OpenGate, Phase};
pub use locked::mark_locked;
pub use marked::Marked;
pub use stealing::mark;
