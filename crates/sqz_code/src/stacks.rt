//! The processes of an image, and their stacks: contexts, each with the one to which it returns.

mod field_values;
mod fields;
mod frames;
mod processes;
mod scheduler;
mod senders;
mod stack;
mod states;

pub use frames::{Frame, Receiver, frame_of};
pub use processes::processes_of;
pub use senders::innermost_of;
pub use stack::{Stack, stack_from};
pub use states::{State, priority_of, state_of};
