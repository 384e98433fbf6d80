//! What the elements of objects are counted by.

ghost use Rattle.std.specs.Prelude.{All};
ghost use Rattle.sqz_image.specs.Objects.{object_count};
ghost use Rattle.sqz_histogram.specs.Groups.{IsInside};
ghost use Rattle.sqz_look_view.specs.Inspectors.{IsObjectOf};

use sqz_answers::RetainedTotal;
use sqz_histogram::Group;
use sqz_look_view::Inspector;
use sqz_names::Counter;
use sqz_object::ObjectIndex;
use std::alloc::AllocError;
use std::collections::BTreeMap;

/// What the elements of the instances of each class are counted by.
#[derive(Drop)]
pub(crate) struct Counters {
    by_class: BTreeMap<ObjectIndex, Counter>,
}

impl Counters {
    /// Returns what the elements of the instances of the classes of a class histogram are counted
    /// by.
    pub(crate) fn of(inspector: &Inspector<'_>, rows: &[RetainedTotal]) -> Result<Self, AllocError>
        requires { All (λ row.
            IsInside (object_count inspector.now.live.graph.heap.now) row.total.group) rows.now }
    {
        let mut by_class = BTreeMap::new(inspector.alloc);
        for row in rows {
            if let Group::Class(class) = row.total.group {
                by_class.insert(class, Counter::in_class(&inspector.names, class)?)?;
            }
        }
        Ok(Counters { by_class })
    }

    /// Returns the number of elements of an object. None if it has no elements.
    pub(crate) fn count(&self, inspector: &Inspector<'_>, object: ObjectIndex) -> Option<u32>
        requires { IsObjectOf inspector.now object }
    {
        let counter = match inspector.live.graph.class_of(object) {
            Some(class) => self.by_class.get(&class).copied(),
            None => None,
        };
        counter
            .unwrap_or(Counter::Fields)
            .count(&inspector.names, object)
    }
}
