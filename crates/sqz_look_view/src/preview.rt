//! What an object is, in a few words.

ghost use Rattle.sqz_look_view.specs.Inspectors.{IsObjectOf};

use crate::counted::Counted;
use crate::inspector::Inspector;
use crate::values::value_text;
use sqz_names::{Counter, Label};
use sqz_object::ObjectIndex;
use std::alloc::AllocError;

/// Returns what an object is in a few words: its value if it is a number or a character, else its
/// label, else how many elements it has. None if it has none of these.
pub fn preview_of(
    inspector: &Inspector<'_>,
    counter: Counter,
    object: ObjectIndex,
) -> Result<Option<String>, AllocError>
    requires { IsObjectOf inspector.now object }
{
    if let Some(value) = value_text(inspector, object)? {
        return Ok(Some(value));
    }
    if inspector.names.label_of(object)? != Label::Other {
        return Ok(Some(inspector.names.label(object)?));
    }
    match counter.count(&inspector.names, object) {
        Some(count) => {
            let count = Counted(u64::from(count), "element");
            Ok(Some(format!(in inspector.alloc; "{count}")?))
        }
        None => Ok(None),
    }
}
