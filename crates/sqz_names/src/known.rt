//! The objects that every image has.

ghost use Rattle.std.specs.Prelude.{◌≡◌};
ghost use Rattle.sqz_names.specs.Known.{known_class, known_field};
ghost use Rattle.sqz_names.specs.Texts.{known_name};

use crate::fields::{FALSE, GLOBALS, NIL, TRUE};

/// An object that every image has.
#[derive(Clone, Copy, PartialEq, Eq)]
pub enum Known {
    /// The only instance of `UndefinedObject`.
    Nil,
    /// The only instance of `False`.
    False,
    /// The only instance of `True`.
    True,
    /// The dictionary of the global variables, if it is a `SystemDictionary`.
    Smalltalk,
}

impl Known {
    /// Each of these objects.
    pub(crate) const ALL: [Known; 4] = [Known::Nil, Known::False, Known::True, Known::Smalltalk];

    /// Returns the field of the special objects array that points to the object.
    pub(crate) fn field(self) -> u32
        ensures { result ≡ known_field self }
    {
        match self {
            Known::Nil => NIL,
            Known::False => FALSE,
            Known::True => TRUE,
            Known::Smalltalk => GLOBALS,
        }
    }

    /// Returns the name of the object's class.
    pub(crate) fn class_name(self) -> &'static [u8]
        ensures { result.now ≡ known_class self }
    {
        match self {
            Known::Nil => b"UndefinedObject",
            Known::False => b"False",
            Known::True => b"True",
            Known::Smalltalk => b"SystemDictionary",
        }
    }

    /// Returns the name of the object.
    pub fn name(self) -> &'static str
        ensures { result.now ≡ known_name self }
    {
        match self {
            Known::Nil => "nil",
            Known::False => "false",
            Known::True => "true",
            Known::Smalltalk => "Smalltalk",
        }
    }
}
