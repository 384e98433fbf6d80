//! The objects that a walk has found, and their places.

ghost use Rattle.std.specs.Prelude.{◌≡◌, ◌<◌, length, IfOk, OnOk};
ghost use Rattle.sqz_alike.specs.Found.{place_of, with_object, found_after};
ghost use Rattle.sqz_alike.specs.Numbering.{IsNumbering};
ghost use Rattle.sqz_alike.specs.Numbering.{NumbersFound};
ghost use Rattle.sqz_alike.specs.Seen.{seen};

use sqz_object::ObjectIndex;
use sqz_trace::Live;
use std::alloc::{AllocError, Global};

/// The objects that a walk has found, in order.
#[derive(Drop)]
pub(crate) struct Walk {
    /// The objects.
    pub(crate) found: Vec<ObjectIndex>,
    /// The place of each object among them.
    places: Vec<Option<u32>>,
}

impl Walk {
    /// Returns a walk that has found the special objects array alone.
    pub(crate) fn of(alloc: Global, live: &Live<'_>) -> Result<Self, AllocError>
        ensures walk { IfOk result (NumbersFound live.now) }
        ensures found { IfOk result (λ walk. walk.found.items ≡ found_after (seen live.now) 0) }
    {
        let heap = live.graph.heap;
        let places = vec![in alloc; None; heap.len() as usize]?;
        let found = Vec::new(alloc);
        let mut walk = Walk { found, places };
        walk.place(heap.special())?;
        Ok(walk)
    }

    /// Returns the place of an object. One that is not found yet gets the next place.
    pub(crate) fn place(&mut self, object: ObjectIndex) -> Result<u32, AllocError>
        requires inside { object < length self.old.places.items }
        requires numbering { IsNumbering self.old.found.items self.old.places.items }
        ensures place { IfOk result (λ place. place ≡ place_of self.old.found.items object) }
        ensures found { OnOk result (self.new.found.items
            ≡ with_object self.old.found.items object) }
        ensures numbering { OnOk result (IsNumbering self.new.found.items self.new.places.items) }
        ensures sized { OnOk result (length self.new.places.items
            ≡ length self.old.places.items) }
    {
        match self.places[object as usize] {
            Some(place) => Ok(place),
            None => {
                let place = self.found.len() as u32;
                self.found.push(object)?;
                self.places[object as usize] = Some(place);
                Ok(place)
            }
        }
    }
}
