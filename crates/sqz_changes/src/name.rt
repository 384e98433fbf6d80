//! The names of objects.

/// The name of an object, given by the numbers of its texts: equal texts have equal numbers.
#[derive(Clone, Copy, PartialEq, Eq, PartialOrd, Ord)]
pub enum Name {
    /// A class, by its name.
    Class(usize),
    /// A metaclass, by the name of its only instance.
    Metaclass(usize),
    /// A global variable, by its key.
    Global(usize),
    /// A class variable, by its class and its key.
    ClassVariable(ClassName, usize),
    /// A method, by its class and its selector.
    Method(ClassName, usize),
    /// A symbol, by its characters.
    Symbol(usize),
}

/// The name of a class or a metaclass.
#[derive(Clone, Copy, PartialEq, Eq, PartialOrd, Ord)]
pub struct ClassName {
    /// The number of the name of the class, or of a metaclass's only instance.
    pub name: usize,
    /// Whether it is the metaclass.
    pub is_meta: bool,
}
