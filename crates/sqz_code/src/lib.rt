//! The code of an image: the bytecodes of methods as instructions, methods, the selectors that they
//! implement and mention, processes and the frames of their stacks.
#![tactic(auto)]

mod decoding;
mod header;
mod instruction;
mod methods;
mod operation;
mod selectors;
mod stacks;
mod table;

pub use decoding::instructions_of;
pub use header::MethodHeader;
pub use instruction::Instruction;
pub use methods::{MethodCode, MethodParts, code_of, method_literals, method_parts};
pub use operation::{Distance, Operation, Returned, Source, Target};
pub use selectors::{
    Unimplemented, implementors_of, mark_mentioned, marked_selectors, mentioned_by, selector_of,
    senders_of, sent_by, spelled, unimplemented_of, unsent_of,
};
pub use stacks::{
    Frame, Receiver, Stack, State, frame_of, innermost_of, priority_of, processes_of, stack_from,
    state_of,
};
