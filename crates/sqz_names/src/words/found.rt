//! What words stand for.

use sqz_object::{Address, ObjectIndex};

/// What words stand for, or why they stand for nothing.
#[derive(Drop)]
pub enum Found<T> {
    One(T),
    Nothing(Missing),
}

/// Why words stand for nothing.
#[derive(Drop)]
pub enum Missing {
    /// They state this address, and no object has it.
    NoObjectAt(Address),
    /// They state this address, and the object that has it is no class.
    NoClassAt(Address),
    /// They state this field of the special objects array, and it points to no object.
    NoSpecialObject(u32),
    /// Several objects have the name, by address, and none or more than one of them is live.
    Ambiguous(Vec<ObjectIndex>),
    /// No object has the name.
    NoObjectNamed,
    /// No class has the name.
    NoClassNamed,
}
