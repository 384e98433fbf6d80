//! What a class states of its instances.

/// What a class states of its instances, in its field 2.
#[derive(Clone, Copy, Debug, PartialEq, Eq)]
pub struct ClassShape {
    /// The format. Instances of byte classes and of method classes have this format plus the number
    /// of padding bytes in their last word.
    pub format: u32,
    /// The number of fixed fields.
    pub fixed: u32,
    /// The compact class index; 0 if the class has none.
    pub compact: u32,
}
