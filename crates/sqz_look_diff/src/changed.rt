//! What is printed of a changed owner.

ghost use Rattle.sqz_look_view.specs.Inspectors.{IsObjectOf};

use crate::aspects::aspect_at;
use crate::bytes::Bytes;
use crate::compared::Compared;
use crate::cut::{Printed, cut};
use crate::names::name_of;
use crate::paths::Path;
use crate::words::{words_in_slot, words_of};
use sqz_alike::{Pair, seen_target};
use sqz_changes::{Change, Difference, Place};
use sqz_image::{Sink, Slot};
use sqz_look_view::{Out, SlotNames};
use sqz_names::Label;
use sqz_object::Layout;
use std::alloc::{AllocError, Global};

/// The maximum number of characters of what an object was, and is, in the text form.
const MOST: usize = 40;

/// The maximum number of these characters in JSON.
const MOST_IN_JSON: usize = 1000;

/// What is printed of a changed owner.
#[derive(Drop)]
pub(crate) struct Changed {
    alloc: Global,
    pub(crate) name: String,
    /// Whether the owner is a class or a metaclass.
    is_class: bool,
    pub(crate) path: Path,
    values: Printed,
    count: u64,
}

impl Changed {
    /// Returns what is printed of a changed owner. `names` are the names of the slots of any object
    /// of the old image.
    pub(crate) fn of(
        compared: Compared<'_>,
        names: &mut SlotNames,
        change: &Change,
        is_json: bool,
    ) -> Result<Self, AllocError> {
        let alloc = compared.old.alloc;
        let Change {
            owner,
            first,
            count,
        } = *change;
        let owner = compared.pair(owner).old;
        let label = compared.old.names.label_of(owner)?;
        let is_variable = matches!(label, Label::Global { .. } | Label::ClassVariable { .. });
        let mut path = Path::to(compared, names, first, is_variable, is_json)?;
        let most = if is_json { MOST_IN_JSON } else { MOST };
        let values = match words_at(compared, first, most)? {
            Some(values) => values,
            None => {
                let aspect = aspect_at(compared, compared.pair(first.pair), first.place)?;
                path.texts.push(aspect.name)?;
                aspect.values
            }
        };
        Ok(Changed {
            alloc,
            name: name_of(compared.old, owner)?,
            is_class: matches!(label, Label::Class | Label::Metaclass),
            path,
            values,
            count,
        })
    }

    /// Adds the slots that lead to the first difference: as text one after the other.
    pub(crate) fn add_path<C: Sink>(&self, out: &mut Out<'_, C>) {
        if out.is_json() {
            out.texts("slots", &self.path.texts);
        } else {
            out.text_or_null("path", self.path.joined(self.alloc, self.is_class));
        }
    }

    /// Adds what differs first, under these names, and the number of differences.
    pub(crate) fn add_values<C: Sink>(
        &self,
        old: &'static str,
        new: &'static str,
        out: &mut Out<'_, C>,
    ) {
        out.word(old, self.values.old.as_str());
        out.word(new, self.values.new.as_str());
        if out.is_json() {
            out.number("differences", self.count);
        } else if self.count > 1 {
            out.text("more", more_text(self.alloc, self.count - 1));
        } else {
            out.null("more");
        }
    }
}

/// Returns what differs in words at the first difference. None if the words are missing, or the
/// same, and the place is no slot.
fn words_at(
    compared: Compared<'_>,
    first: Difference,
    most: usize,
) -> Result<Option<Printed>, AllocError> {
    let (old, new) = (compared.old, compared.new);
    let pair = compared.pair(first.pair);
    if let Place::Slot(slot) = first.place {
        return Ok(Some(slots_in(compared, pair, slot, most)?));
    }
    let layout = old.live.graph.heap.object(pair.old).layout();
    if layout == Layout::Method || matches!(first.place, Place::Hash | Place::Trailer) {
        return Ok(None);
    }
    let start = rest_of(compared, pair, most)?;
    let (words, others) = (
        words_of(old, pair.old, start)?,
        words_of(new, pair.new, start)?,
    );
    let (Some(words), Some(others)) = (words, others) else {
        return Ok(None);
    };
    if words.as_str() == others.as_str() {
        return Ok(None);
    }
    let values = cut(old.alloc, words.as_str(), others.as_str(), start > 0, most)?;
    Ok(Some(values))
}

/// Returns what a slot of two partners holds.
fn slots_in(
    compared: Compared<'_>,
    pair: Pair,
    slot: Slot,
    most: usize,
) -> Result<Printed, AllocError>
    requires old { IsObjectOf compared.old.now pair.old }
    requires new { IsObjectOf compared.new.now pair.new }
{
    let (old, new) = (compared.old, compared.new);
    let held = (
        seen_target(&old.live, pair.old, slot),
        seen_target(&new.live, pair.new, slot),
    );
    let start = match held {
        (Some(old), Some(new)) => rest_of(compared, Pair { old, new }, most)?,
        _ => 0,
    };
    let words = words_in_slot(old, pair.old, slot, start)?;
    let mut others = words_in_slot(new, pair.new, slot, start)?;
    if words.as_str() == others.as_str() {
        others = format!(in old.alloc; "another {others}")?;
    }
    cut(old.alloc, words.as_str(), others.as_str(), start > 0, most)
}

/// Returns the place of the first byte in which two strings or two symbols differ if more than
/// `most` bytes are before it; else 0, and for other objects.
fn rest_of(compared: Compared<'_>, pair: Pair, most: usize) -> Result<usize, AllocError>
    requires old { IsObjectOf compared.old.now pair.old }
    requires new { IsObjectOf compared.new.now pair.new }
{
    let (old, new) = (compared.old, compared.new);
    let label = old.names.label_of(pair.old)?;
    if !matches!(label, Label::String | Label::Symbol) || new.names.label_of(pair.new)? != label {
        return Ok(0);
    }
    let (bytes, others) = (Bytes::of_text(old, pair.old), Bytes::of_text(new, pair.new));
    match bytes.first_difference(&others, 0) {
        Some(place) if place > most => Ok(place),
        _ => Ok(0),
    }
}

/// Returns how many more differences there are as text.
fn more_text(alloc: Global, count: u64) -> Result<String, AllocError> {
    format!(in alloc; "{count} more")
}
