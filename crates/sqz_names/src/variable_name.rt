//! The name of a variable, and what holds it.

use sqz_object::ObjectIndex;

/// An association of a global variable, or of a class variable of `class`.
#[derive(Clone, Copy)]
pub struct VariableName {
    /// The association of the variable.
    pub association: ObjectIndex,
    /// The class of a class variable. None for a global variable.
    pub class: Option<ObjectIndex>,
    /// The byte object with the characters of its name.
    pub key: ObjectIndex,
}

/// A global or a class variable: what holds its association, and its value.
#[derive(Clone, Copy)]
pub struct Variable {
    /// The dictionary that the association is in.
    pub dictionary: ObjectIndex,
    /// The array that the dictionary keeps its associations in.
    pub array: ObjectIndex,
    /// The object that the value field of the association points to. None if the value is a
    /// SmallInteger.
    pub value: Option<ObjectIndex>,
}
