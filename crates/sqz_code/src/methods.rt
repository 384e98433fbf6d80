//! The parts of compiled methods, and their bytecodes as instructions.

mod code;
mod parts;
mod trailer;

pub use code::{MethodCode, code_of};
pub use parts::{MethodParts, method_literals, method_parts};
