//! The categories of classes.

ghost use Rattle.std.specs.Prelude.{IfOk, IfSome};
ghost use Rattle.sqz_look_view.specs.Inspectors.{IsObjectOf};

use crate::inspector::Inspector;
use crate::places::field_of;
use sqz_names::fields::{INSTANCE, NAME};
use sqz_names::{Categories, Label};
use sqz_object::ObjectIndex;
use std::alloc::AllocError;

/// Returns the category of a class as text, given those of all classes. A metaclass has that of its
/// only instance. None if no category lists the class. Fails only if out of memory.
pub fn category_of(
    inspector: &Inspector<'_>,
    categories: &Categories<'_, '_>,
    class: ObjectIndex,
) -> Result<Option<String>, AllocError>
    requires { IsObjectOf inspector.now class }
{
    match listed_name(inspector, class)? {
        Some(name) => categories.text_of(name),
        None => Ok(None),
    }
}

/// Returns the object by which the system organizer lists a class: its name, or that of its only
/// instance if it is a metaclass. None if it has no name. Fails only if out of memory.
pub fn listed_name(
    inspector: &Inspector<'_>,
    class: ObjectIndex,
) -> Result<Option<ObjectIndex>, AllocError>
    requires { IsObjectOf inspector.now class }
    ensures { IfOk result (λ name. IfSome name (IsObjectOf inspector.now)) }
{
    if inspector.names.label_of(class)? != Label::Metaclass {
        return Ok(field_of(inspector, class, NAME));
    }
    match field_of(inspector, class, INSTANCE) {
        Some(instance) => Ok(field_of(inspector, instance, NAME)),
        None => Ok(None),
    }
}
