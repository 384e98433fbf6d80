//! The formats that tell indexed fields from fixed ones. `Layout` does not tell them apart.

/// The format of objects that have indexed fields only.
pub const INDEXED: u32 = 2;

/// The format of objects that have fixed fields and then indexed ones.
pub const FIXED_AND_INDEXED: u32 = 3;

/// The format of objects that have fixed fields and then weak indexed ones.
pub const FIXED_AND_WEAK: u32 = 4;
