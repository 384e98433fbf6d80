//! The categories of classes that both images have.

ghost use Rattle.std.specs.Prelude.{◌≡◌, IfOk, IsTrue};
ghost use Rattle.sqz_look_view.specs.Inspectors.{IsObjectOf};

use crate::keys::class_key;
use crate::texts::{Age, Texts};
use sqz_alike::Pair;
use sqz_look_view::{Inspector, field_of};
use sqz_names::fields::NAME;
use sqz_names::{Categories, Label};
use sqz_object::ObjectIndex;
use std::alloc::AllocError;
use std::collections::BTreeMap;

/// The category of a class in the old image and in the new one. None if it has none.
#[derive(Drop)]
pub(crate) struct CategoryChange {
    pub(crate) old: Option<String>,
    pub(crate) new: Option<String>,
}

/// Returns which of these classes with equal names have other categories, by their keys.
pub(crate) fn category_changes(
    old: &Inspector<'_>,
    new: &Inspector<'_>,
    texts: &mut Texts,
    named: &[Pair],
) -> Result<BTreeMap<String, CategoryChange>, AllocError> {
    let of_old = Categories::of_classes(old.alloc, &old.names)?;
    let of_new = Categories::of_classes(new.alloc, &new.names)?;
    let mut changes = BTreeMap::new(old.alloc);
    for pair in named {
        if !is_class(old, pair.old)? || !is_class(new, pair.new)? {
            continue;
        }
        let (number, text) = category_of(old, &of_old, texts, Age::Old, pair.old)?;
        let (other, other_text) = category_of(new, &of_new, texts, Age::New, pair.new)?;
        if number != other {
            let key = class_key(old, texts, Age::Old, pair.old)?;
            let change = CategoryChange {
                old: text,
                new: other_text,
            };
            changes.insert(key, change)?;
        }
    }
    Ok(changes)
}

/// Returns whether an index is that of a class with a name of its own.
fn is_class(inspector: &Inspector<'_>, index: ObjectIndex) -> Result<bool, AllocError>
    ensures { IfOk result (λ is. IsTrue is → IsObjectOf inspector.now index) }
{
    if index >= inspector.live.graph.heap.len() {
        return Ok(false);
    }
    Ok(inspector.names.label_of(index)? == Label::Class)
}

/// Returns the category of a class: the number of its text, and the text as it is printed.
fn category_of(
    inspector: &Inspector<'_>,
    categories: &Categories<'_, '_>,
    texts: &mut Texts,
    age: Age,
    class: ObjectIndex,
) -> Result<(Option<usize>, Option<String>), AllocError>
    requires class { IsObjectOf inspector.now class }
    requires names { categories.now.names.now ≡ inspector.now.names }
{
    let category = match field_of(inspector, class, NAME) {
        Some(listed) => categories.of_listed(listed)?,
        None => None,
    };
    match category {
        Some(category) => Ok((
            texts.of_object(inspector, age, category)?,
            Some(inspector.names.text(category)?),
        )),
        None => Ok((None, None)),
    }
}
