//! What a run did, in numbers.

/// The number of objects read and kept, and the bytes of data before and after.
#[derive(Clone, Copy, Debug, PartialEq, Eq)]
pub struct Summary {
    /// Objects that were read.
    pub objects: u32,
    /// Objects that were written.
    pub kept: u32,
    /// Bytes of data before: header word 2 as it was read.
    pub data_before: u32,
    /// Bytes of data after: header word 2 as it was written.
    pub data_after: u32,
}
