//! The name of a method.

use sqz_object::ObjectIndex;

/// A method of a class under a selector.
#[derive(Clone, Copy)]
pub struct MethodName {
    /// The compiled method.
    pub method: ObjectIndex,
    /// The class in whose method dictionary it is.
    pub class: ObjectIndex,
    /// The byte object with the characters of its selector.
    pub selector: ObjectIndex,
}
