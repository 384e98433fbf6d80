//! What a virtual machine would trip over.

ghost use Rattle.std.specs.Prelude.{◌≡◌};
ghost use Rattle.sqz_strict.specs.Warnings.{object_of};

use crate::class_shape::ClassShape;
use sqz_object::ObjectIndex;

/// What a virtual machine would trip over in an image that the format allows.
#[derive(Clone, Copy, Debug, PartialEq, Eq)]
pub enum Warning {
    /// An object is not as its class states: it has another format, another number of fields, or
    /// another compact class index.
    Shape {
        /// The object.
        object: ObjectIndex,
        /// What its class states.
        stated: ClassShape,
    },
    /// An object whose class is found, and can be no class.
    NoClass {
        /// The object.
        object: ObjectIndex,
    },
    /// A class whose method dictionary is nil, or no object.
    NoMethodDictionary {
        /// The class.
        object: ObjectIndex,
    },
    /// A method dictionary whose array of methods is shorter than its keys are many.
    MethodDictionary {
        /// The method dictionary.
        object: ObjectIndex,
    },
    /// An association of a global or class variable whose key is nil.
    NoKey {
        /// The association.
        object: ObjectIndex,
    },
}

impl Warning {
    /// Returns the object that the warning is about.
    pub fn object(self) -> ObjectIndex
        ensures { result ≡ object_of self }
    {
        match self {
            Warning::Shape { object, .. }
            | Warning::NoClass { object }
            | Warning::NoMethodDictionary { object }
            | Warning::MethodDictionary { object }
            | Warning::NoKey { object } => object,
        }
    }
}
