//! Objects that marking does not go through.

ghost use Rattle.std.specs.Prelude.{◌≡◌, Bool, List};
ghost use Rattle.sqz_trace.specs.Graph.{is_marked};

use crate::marks::Marks;
use sqz_object::ObjectIndex;

/// A set of objects.
pub(crate) trait Avoided {
    /// One mark per object; an object without one is not in the set.
    ghost set: { Self → List Bool };

    /// Returns whether the object is in the set.
    fn contains(&self, object: ObjectIndex) -> bool
        ensures { result ≡ is_marked (set self.now) object };
}

/// The empty set.
pub(crate) struct Nothing;

impl Avoided for Nothing {
    ghost use Rattle.std.specs.Prelude.{[]};

    ghost set = { λ nothing. [] };

    fn contains(&self, _object: ObjectIndex) -> bool {
        false
    }
}

impl Avoided for Marks {
    ghost set = { λ marks. marks };

    fn contains(&self, object: ObjectIndex) -> bool {
        self.has(object)
    }
}
