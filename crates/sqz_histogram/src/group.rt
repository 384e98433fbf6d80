//! Groups of objects that are counted together, and their totals.

use sqz_object::ObjectIndex;

/// The objects of a class, or those without a class that have the same compact index.
#[derive(Clone, Copy, Debug, PartialEq, Eq)]
pub enum Group {
    /// The objects of the class with this index.
    Class(ObjectIndex),
    /// The objects that have no class and this compact index.
    Compact(u32),
}

/// The total of a group: its number of objects, and the bytes of their chunks.
#[derive(Clone, Copy, Debug, PartialEq, Eq)]
pub struct GroupTotal {
    pub group: Group,
    /// The number of objects.
    pub count: u32,
    /// The number of bytes of their chunks, header words included.
    pub bytes: u64,
}
