//! Which changed owners are classes, methods or anything else.

use crate::compared::Compared;
use sqz_alike::Matching;
use sqz_changes::{Change, Changes};
use sqz_look_view::Inspector;
use sqz_names::Label;
use std::alloc::AllocError;

/// Changed owners, each in one list.
#[derive(Drop)]
pub(crate) struct Owners {
    /// Variables, symbols and the special objects array.
    pub(crate) values: Vec<Change>,
    /// Classes and metaclasses.
    pub(crate) classes: Vec<Change>,
    pub(crate) methods: Vec<Change>,
}

impl Owners {
    /// Returns the owners of the differences that are shown, in their order.
    pub(crate) fn of(
        old: &Inspector<'_>,
        new: &Inspector<'_>,
        partners: &Matching,
        changes: &Changes,
    ) -> Result<Self, AllocError> {
        let mut owners = Owners {
            values: Vec::new(old.alloc),
            classes: Vec::new(old.alloc),
            methods: Vec::new(old.alloc),
        };
        let compared = Compared {
            old,
            new,
            partners,
            changes,
        };
        for change in &changes.shown {
            let owner = compared.pair(change.owner).old;
            match old.names.label_of(owner)? {
                Label::Class | Label::Metaclass => owners.classes.push(*change)?,
                Label::Method { .. } => owners.methods.push(*change)?,
                _ => owners.values.push(*change)?,
            }
        }
        Ok(owners)
    }
}
