//! The names of objects in values, which are cut only where they differ.

ghost use Rattle.sqz_look_view.specs.Inspectors.{IsObjectOf};

use sqz_histogram::{ClassName, first_bytes, naming};
use sqz_look_view::Inspector;
use sqz_names::{Label, escaped};
use sqz_object::ObjectIndex;
use std::alloc::AllocError;

/// The maximum number of bytes of a text in a name.
const MOST_BYTES: usize = 255;

/// Returns the label of an object with whole names.
pub(crate) fn whole_label(
    inspector: &Inspector<'_>,
    object: ObjectIndex,
) -> Result<String, AllocError>
    requires { IsObjectOf inspector.now object }
{
    let alloc = inspector.alloc;
    match inspector.names.label_of(object)? {
        Label::Class => {
            let name = whole_class(inspector, object)?;
            format!(in alloc; "class {name}")
        }
        Label::Metaclass => whole_class(inspector, object),
        Label::Method { class, selector } => {
            let class = whole_class(inspector, class)?;
            let selector = whole_text(inspector, selector)?;
            format!(in alloc; "{class}>>{selector}")
        }
        Label::Global { key } => {
            let key = whole_text(inspector, key)?;
            format!(in alloc; "Smalltalk at: #{key}")
        }
        Label::ClassVariable { class, key } => {
            let class = whole_class(inspector, class)?;
            let key = whole_text(inspector, key)?;
            format!(in alloc; "{class} class variable {key}")
        }
        _ => inspector.names.label(object),
    }
}

/// Returns the name of the class of an object.
pub(crate) fn whole_class_of(
    inspector: &Inspector<'_>,
    object: ObjectIndex,
) -> Result<String, AllocError>
    requires { IsObjectOf inspector.now object }
{
    match inspector.live.graph.class_of(object) {
        Some(class) => whole_class(inspector, class),
        None => inspector.names.name_of_class_of(object),
    }
}

/// Returns the name of a class. A metaclass is named `NAME class`.
fn whole_class(inspector: &Inspector<'_>, class: ObjectIndex) -> Result<String, AllocError>
    requires { IsObjectOf inspector.now class }
{
    match naming(inspector.live.graph, class) {
        Some(ClassName::Own(name)) => whole_text(inspector, name),
        Some(ClassName::OfInstance(name)) => {
            let name = whole_text(inspector, name)?;
            format!(in inspector.alloc; "{name} class")
        }
        None => inspector.names.name_of_class(class),
    }
}

/// Returns the bytes of a byte object as text. A long one is cut, and ends with `..`. The text of
/// any other object is empty.
fn whole_text(inspector: &Inspector<'_>, object: ObjectIndex) -> Result<String, AllocError>
    requires { IsObjectOf inspector.now object }
{
    let (alloc, heap) = (inspector.alloc, inspector.live.graph.heap);
    let bytes = first_bytes(alloc, heap.order(), &heap.object(object), MOST_BYTES + 1)?;
    let Some(bytes) = bytes else {
        return Ok(String::new(alloc));
    };
    let (first, rest) = bytes.split_at(bytes.len().min(MOST_BYTES));
    let mut text = escaped(alloc, first)?;
    if !rest.is_empty() {
        text.push_str("..")?;
    }
    Ok(text)
}
