//! A row of a census.

use sqz_object::Address;

/// The live objects of a class, or those without a class that have the same compact index.
#[derive(Debug, Drop)]
pub struct Row {
    /// The new address of the class; None for objects without a class.
    pub place: Option<Address>,
    /// The compact index of objects without a class; 0 for those of a class.
    pub compact: u32,
    /// The name of the class: at most 40 bytes of printable ASCII, perhaps followed by ` class`.
    /// For objects without a class it is `compact K`, with their compact index in decimal; the
    /// printed text then uses the index and not this name.
    pub name: Vec<u8>,
    /// The number of objects.
    pub count: u32,
    /// The number of bytes of their chunks, header words included.
    pub bytes: u64,
}
