//! The defect of the lowest marked object that has one.

ghost use Rattle.std.specs.Prelude.{◌≡◌, ◌*◌, ◌<◌, ◌≤◌, length, None};
ghost use Rattle.std.specs.Option.{option_or};
ghost use Rattle.sqz_image.specs.Objects.{object_count};
ghost use Rattle.sqz_trace.specs.Defects.{first_defect};
ghost use Rattle.sqz_trace.specs.Ranges.{defect_at, first_between, first_in_range};

use crate::defects::defect;
use crate::marks::Marks;
use crate::weak::Weak;
use rayon::prelude::*;
use sqz_image::{Fault, Heap};
use sqz_object::ObjectIndex;
use std::thread::Threads;

/// The number of objects of a range. The last range may have fewer.
const RANGE: u32 = 4096;

/// What defects are looked for in: the heap, what becomes of weak slots, and the marks.
#[derive(Drop)]
struct MarkedHeap<'a> {
    heap: &'a Heap,
    weak: Weak,
    marks: &'a Marks,
    ghost sized: { length marks.now ≡ object_count heap.now },
}

impl MarkedHeap<'_> {
    /// Returns the defect of the lowest marked object that has one, among the objects `from..to`.
    fn defect_in(&self, from: ObjectIndex, to: ObjectIndex) -> Option<Fault>
        requires { to ≤ object_count self.now.heap.now }
        ensures { result ≡ first_between
            (defect_at self.now.heap.now self.now.weak self.now.marks.now) from to }
    {
        for object in from..to {
            if self.marks.has(object) {
                let found = defect(self.heap, self.weak, object);
                if found.is_some() {
                    return found;
                }
            }
        }
        None
    }

    /// Returns the defect of the lowest marked object that has one, among the objects of the range
    /// with this number.
    fn defect_in_range(&self, range: u32) -> Option<Fault>
        requires { range * RANGE < object_count self.now.heap.now }
        ensures { result ≡ first_in_range
            (defect_at self.now.heap.now self.now.weak self.now.marks.now)
            RANGE (object_count self.now.heap.now) range }
    {
        let count = self.heap.len();
        let from = range * RANGE;
        self.defect_in(from, count.min(from + RANGE))
    }
}

/// Returns the defect of the lowest marked object that has one, or None. Several threads look for
/// it, each in ranges of thousands of objects. It allocates no memory.
pub fn first_defect<'a>(
    rt: &(impl Threads + Sync),
    heap: &'a Heap,
    weak: Weak,
    marks: &'a Marks,
) -> Option<Fault>
    requires { length marks.now ≡ object_count heap.now }
    ensures { result ≡ first_defect heap.now weak marks.now }
{
    let marked = MarkedHeap { heap, weak, marks };
    let ranges = heap.len().div_ceil(RANGE);
    (0..ranges)
        .into_par_iter()
        .with_min_len(1)
        .map(
            |range: u32| -> Option<Fault>
                requires { range * RANGE < object_count marked.heap.now }
                ensures { result ≡ first_in_range
                    (defect_at marked.entry.heap.now marked.entry.weak marked.entry.marks.now)
                    RANGE (object_count marked.entry.heap.now) range }
            { marked.defect_in_range(range) },
        )
        .reduce(
            rt,
            || -> Option<Fault>
                ensures { result ≡ None }
            { None },
            |first: Option<Fault>, second: Option<Fault>| -> Option<Fault>
                ensures { result ≡ option_or first second }
            { first.or(second) },
        )
}
