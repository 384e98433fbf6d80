//! The names of objects as they are printed.

ghost use Rattle.sqz_look_view.specs.Inspectors.{IsObjectOf};

use sqz_look_view::Inspector;
use sqz_names::Label;
use sqz_object::ObjectIndex;
use std::alloc::AllocError;

/// Returns the name of a method of a class under a selector.
pub(crate) fn method_text(
    inspector: &Inspector<'_>,
    class: ObjectIndex,
    selector: ObjectIndex,
) -> Result<String, AllocError>
    requires class { IsObjectOf inspector.now class }
    requires selector { IsObjectOf inspector.now selector }
{
    let class = inspector.names.name_of_class(class)?;
    let selector = inspector.names.text(selector)?;
    format!(in inspector.alloc; "{class}>>{selector}")
}

/// Returns the name of a class, and the label of any other object.
pub(crate) fn name_of(inspector: &Inspector<'_>, object: ObjectIndex) -> Result<String, AllocError>
    requires { IsObjectOf inspector.now object }
{
    match inspector.names.label_of(object)? {
        Label::Class => inspector.names.name_of_class(object),
        _ => inspector.names.label(object),
    }
}
