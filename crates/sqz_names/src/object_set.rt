//! Sets of objects.

ghost use Rattle.std.specs.Prelude.{◌≡◌, ◌<◌, false, length, not, replicate, true};
ghost use Rattle.std.specs.Prelude.{slice_set, All, IfOk};
ghost use Rattle.sqz_image.specs.Objects.{object_count};
ghost use Rattle.sqz_trace.specs.Graph.{is_marked};
ghost use Rattle.sqz_names.specs.Picks.{AreObjectsThat};

use sqz_image::Heap;
use sqz_object::ObjectIndex;
use std::alloc::{AllocError, Global};
use std::marker::Model;

/// A set of objects of an image: a flag for each object. Contracts see the list of the flags.
#[derive(Drop)]
pub(crate) struct ObjectSet {
    flags: Vec<bool>,
}

impl Model for ObjectSet {
    ghost use Rattle.std.specs.Prelude.{Bool, List};

    ghost Value = { List Bool };

    ghost view = { λ set. set.flags.items };
}

impl ObjectSet {
    /// Returns the empty set of objects of an image.
    pub(crate) fn empty(alloc: Global, heap: &Heap) -> Result<Self, AllocError>
        ensures { IfOk result (λ set. set ≡ replicate (object_count heap.now) false) }
    {
        let flags = vec![in alloc; false; heap.len() as usize]?;
        Ok(ObjectSet { flags })
    }

    /// Adds an object, and returns whether it was not in the set before.
    pub(crate) fn insert(&mut self, object: ObjectIndex) -> bool
        requires { object < length self.old }
        ensures adds { self.new ≡ slice_set self.old object true }
        ensures new { result ≡ not (is_marked self.old object) }
    {
        let was = self.contains(object);
        self.flags[object as usize] = true;
        !was
    }

    /// Returns whether an object is in the set.
    pub(crate) fn contains(&self, object: ObjectIndex) -> bool
        requires { object < length self.now }
        ensures { result ≡ is_marked self.now object }
    {
        self.flags[object as usize]
    }

    /// Returns the objects of the set, by address.
    pub(crate) fn objects(&self, alloc: Global, heap: &Heap) -> Result<Vec<ObjectIndex>, AllocError>
        requires { length self.now ≡ object_count heap.now }
        ensures inside { IfOk result (λ found.
            All (λ object. object < object_count heap.now) found.items) }
        ensures members { IfOk result (λ found.
            AreObjectsThat heap.now (λ object. is_marked self.now object ≡ true) found.items) }
    {
        let mut found = Vec::new(alloc);
        for object in 0..heap.len() {
            if self.contains(object) {
                found.push(object)?;
            }
        }
        Ok(found)
    }
}
