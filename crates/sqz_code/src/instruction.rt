//! An instruction of a compiled method.

use crate::operation::Operation;

/// An instruction of a compiled method.
#[derive(Clone, Copy, Debug, PartialEq, Eq)]
pub struct Instruction {
    /// The index of its first byte among the method's bytecodes.
    pub start: usize,
    /// The number of its bytes: 1 to 3.
    pub length: u8,
    /// What it does.
    pub operation: Operation,
}
