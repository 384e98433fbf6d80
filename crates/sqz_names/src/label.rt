//! The label of an object, as data.

use crate::known::Known;
use sqz_object::ObjectIndex;

/// What an object is to a Smalltalker.
#[derive(Clone, Copy, PartialEq, Eq)]
pub enum Label {
    /// The special objects array.
    SpecialObjects,
    /// An object that every image has.
    Known(Known),
    /// A class that has a name of its own.
    Class,
    /// A metaclass: a class that is named after its only instance.
    Metaclass,
    /// The method of a class under a selector, a byte object.
    Method {
        class: ObjectIndex,
        selector: ObjectIndex,
    },
    /// The association of a global variable. The key is a byte object.
    Global {
        key: ObjectIndex,
    },
    /// The association of a class variable. The key is a byte object.
    ClassVariable {
        class: ObjectIndex,
        key: ObjectIndex,
    },
    /// A string.
    String,
    /// A symbol.
    Symbol,
    /// Any other object.
    Other,
}
