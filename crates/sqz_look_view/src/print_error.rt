//! Why an answer is not printed.

use std::alloc::{AllocError, AllocFailed};

/// Why an answer is not printed.
#[derive(Clone, Copy)]
pub enum PrintError {
    /// Memory ran out.
    OutOfMemory,
    /// The output could not be written.
    WriteFailed,
}

impl From<AllocError> for PrintError {
    fn from(_error: AllocError) -> PrintError {
        PrintError::OutOfMemory
    }
}

impl<T: Drop> From<AllocFailed<T>> for PrintError {
    fn from(_error: AllocFailed<T>) -> PrintError {
        PrintError::OutOfMemory
    }
}
