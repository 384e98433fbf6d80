//! The variables that hold objects.

ghost use Rattle.std.specs.Prelude.{◌<◌};

use sqz_look_view::Inspector;
use sqz_object::ObjectIndex;
use std::alloc::AllocError;
use std::collections::BTreeMap;

/// The first variable that holds each object, if one does.
#[derive(Drop)]
pub(crate) struct Holders {
    /// The labels of the variables, by the objects that they hold.
    labels: BTreeMap<ObjectIndex, String>,
}

impl Holders {
    /// Returns the variables of an image. Those that are not live hold nothing.
    pub(crate) fn of(inspector: &Inspector<'_>) -> Result<Self, AllocError> {
        let mut labels = BTreeMap::new(inspector.alloc);
        for name in inspector.names.variables() {
            let association = name.association;
            if !inspector.live.marks.has(association) {
                continue;
            }
            let Some(variable) = inspector.names.variable(association)? else {
                continue;
            };
            if let Some(value) = variable.value
                && !labels.contains_key(&value)
            {
                labels.insert(value, inspector.names.label(association)?)?;
            }
        }
        Ok(Holders { labels })
    }

    /// Returns the label of the first variable that holds an object.
    pub(crate) fn label_of(&self, object: ObjectIndex) -> Option<&str> {
        self.labels.get(&object).map(|label| label.as_str())
    }
}
