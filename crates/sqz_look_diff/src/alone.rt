//! The classes and methods whose names one image alone has.

use crate::named_objects::NamedObjects;
use sqz_changes::{Name, only_in};
use sqz_names::MethodName;
use sqz_object::ObjectIndex;
use std::alloc::{AllocError, Global};

/// The classes and methods whose names one image alone has, in its order.
#[derive(Drop)]
pub(crate) struct Alone {
    pub(crate) classes: Vec<ObjectIndex>,
    pub(crate) methods: Vec<MethodName>,
}

impl Alone {
    /// Returns the classes and methods whose names the other image does not have.
    pub(crate) fn of(
        alloc: Global,
        named: &NamedObjects,
        other: &NamedObjects,
    ) -> Result<Self, AllocError> {
        let mut alone = Alone {
            classes: Vec::new(alloc),
            methods: Vec::new(alloc),
        };
        let only = only_in(alloc, &named.all, &other.all)?;
        let mut names = Vec::new(alloc);
        for named in &only {
            match named.name {
                Name::Class(_) => alone.classes.push(named.object)?,
                Name::Method(..) => names.push(named.name)?,
                _ => {}
            }
        }
        // the names are some of those of the methods, in the same order
        let mut next = 0;
        for method in &named.methods {
            if let Some(name) = names.get(next)
                && *name == method.named.name
            {
                alone.methods.push(method.method)?;
                next += 1;
            }
        }
        Ok(alone)
    }
}
