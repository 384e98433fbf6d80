//! A mark for each object.

ghost use Rattle.std.specs.Prelude.{◌≡◌, ◌<◌, ◌^◌, count_by, vec_len, IfOk};
ghost use Rattle.sqz_image.specs.Objects.{object_count};
ghost use Rattle.sqz_trace.specs.Avoiding.{MarksListed};
ghost use Rattle.sqz_trace.specs.Graph.{is_marked};
ghost use Rattle.sqz_trace.specs.Shades.{has_mark, marks_of};

use crate::shades::{Shade, Shades};
use sqz_image::Heap;
use sqz_object::ObjectIndex;
use std::alloc::{AllocError, Global};
use std::marker::Model;

/// One mark per object of a heap. Contracts see the list of the marks, by index.
#[derive(Drop)]
pub struct Marks {
    /// An object is marked if its shade is not white.
    shades: Shades,
    count: u32,
}

impl Model for Marks {
    ghost use Rattle.std.specs.Prelude.{◌≡◌, Bool, List, count_by};
    ghost use Rattle.sqz_trace.specs.Shades.{has_mark, marks_of};

    ghost Value = { List Bool };

    ghost view = { λ marks. marks_of marks.shades.items };

    ghost invariant = { λ marks. marks.count ≡ count_by (λ shade.
        has_mark shade) marks.shades.items };
}

impl Marks {
    /// Returns the marks of the objects that are not white, and counts them.
    pub(crate) fn new(shades: Shades) -> Marks
        requires { vec_len shades < 2 ^ 32 }
        ensures { result ≡ marks_of shades.items }
    {
        let count = shades.iter().filter(|shade| has_mark(**shade)).count() as u32;
        Marks { shades, count }
    }

    /// Returns marks for the objects of a heap: an object is marked if the list has its index.
    pub fn listed(alloc: Global, heap: &Heap, objects: &[ObjectIndex]) -> Result<Marks, AllocError>
        ensures { IfOk result (λ marks.
            MarksListed (object_count heap.now) objects.now marks) }
    {
        let mut shades = vec![in alloc; Shade::White; heap.len() as usize]?;
        for object in objects {
            if (*object as usize) < shades.len() {
                shades[*object as usize] = Shade::Black;
            }
        }
        Ok(Marks::new(shades))
    }

    /// Returns whether the object is marked; false if there are fewer objects.
    pub fn has(&self, object: ObjectIndex) -> bool
        ensures { result ≡ is_marked self.now object }
    {
        (object as usize) < self.shades.len() && has_mark(self.shades[object as usize])
    }

    /// Returns the number of marked objects.
    pub fn count(&self) -> u32
        ensures { result ≡ count_by (λ mark. mark) self.now }
    {
        self.count
    }
}

/// Returns whether an object of this shade is marked.
pub(crate) fn has_mark(shade: Shade) -> bool
    ensures { result ≡ has_mark shade }
{
    match shade {
        Shade::White => false,
        Shade::Grey | Shade::Black => true,
    }
}
