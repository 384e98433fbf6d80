//! The slots that lead from an owner to what differs.

use crate::compared::Compared;
use sqz_changes::{Difference, Place, Step};
use sqz_image::Slot;
use sqz_look_view::SlotNames;
use sqz_names::fields::VALUE;
use std::alloc::{AllocError, Global};

/// A path with more steps than twice this is cut in the middle, as text.
const HALF: usize = 10;

/// The slots that lead from an owner to what differs, as text, and which part of it differs.
#[derive(Drop)]
pub(crate) struct Path {
    /// The first slot.
    pub(crate) first: Option<Slot>,
    pub(crate) texts: Vec<String>,
    /// Whether slots in the middle are left out.
    pub(crate) is_cut: bool,
}

impl Path {
    /// Returns the slots that lead from an owner to a difference: from a variable without that of
    /// its value. `names` are the names of the slots of any object of the old image.
    pub(crate) fn to(
        compared: Compared<'_>,
        names: &mut SlotNames,
        at: Difference,
        is_variable: bool,
        is_whole: bool,
    ) -> Result<Self, AllocError> {
        let alloc = compared.old.alloc;
        let mut steps = compared.changes.path_to(alloc, at.pair)?;
        if let Place::Slot(slot) = at.place {
            steps.push(Step {
                pair: at.pair,
                slot,
            })?;
        }
        let first = steps.first().map(|step| step.slot);
        let start = usize::from(is_variable && first == Some(Slot::Field(VALUE)));
        let (_, steps) = steps.split_at(start.min(steps.len()));
        let hidden = if is_whole {
            0
        } else {
            steps.len().saturating_sub(2 * HALF)
        };
        let mut texts = Vec::new(alloc);
        for (index, step) in steps.iter().enumerate() {
            if index < HALF || index - HALF >= hidden {
                names.set_object(compared.old, compared.pair(step.pair).old)?;
                texts.push(names.text(step.slot)?)?;
            }
        }
        Ok(Path {
            first,
            texts,
            is_cut: hidden > 0,
        })
    }

    /// Returns the path as one text: that of a class begins without a dot. None if it is empty.
    pub(crate) fn joined(
        &self,
        alloc: Global,
        is_class: bool,
    ) -> Result<Option<String>, AllocError> {
        let mut joined = String::new(alloc);
        for (index, text) in self.texts.iter().enumerate() {
            let text = text.as_str();
            if self.is_cut && index == HALF {
                joined.push_str(" .. ")?;
            } else if index > 0 && !text.starts_with('.') && !text.starts_with('[') {
                joined.push(' ')?;
            }
            joined.push_str(match text.strip_prefix(".") {
                Some(name) if index == 0 && is_class => name,
                _ => text,
            })?;
        }
        Ok(if joined.is_empty() {
            None
        } else {
            Some(joined)
        })
    }
}
