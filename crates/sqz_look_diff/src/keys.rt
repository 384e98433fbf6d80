//! The names by which sizes and retained bytes are compared.

ghost use Rattle.std.specs.Prelude.{IfSome};
ghost use Rattle.sqz_look_view.specs.Inspectors.{IsObjectOf};

use crate::texts::{Age, Texts};
use sqz_changes::ClassName;
use sqz_look_view::Inspector;
use sqz_names::VariableName;
use sqz_object::ObjectIndex;
use std::alloc::AllocError;

/// Returns the key of a class: its name, then the number of its whole name, which tells apart names
/// that are cut to one text.
pub(crate) fn class_key(
    inspector: &Inspector<'_>,
    texts: &mut Texts,
    age: Age,
    class: ObjectIndex,
) -> Result<String, AllocError>
    requires { IsObjectOf inspector.now class }
{
    let ClassName { name, .. } = texts.of_class(inspector, age, class)?;
    let text = inspector.names.name_of_class(class)?;
    format!(in inspector.alloc; "{text}\0{name}")
}

/// Returns the key of a variable: its name, then the numbers of its whole texts. None if its name
/// is no byte object.
pub(crate) fn variable_key(
    inspector: &Inspector<'_>,
    texts: &mut Texts,
    age: Age,
    variable: VariableName,
) -> Result<Option<String>, AllocError>
    requires class { IfSome variable.class (λ class. IsObjectOf inspector.now class) }
    requires key { IsObjectOf inspector.now variable.key }
{
    let Some(key) = texts.of_object(inspector, age, variable.key)? else {
        return Ok(None);
    };
    let owner = match variable.class {
        Some(class) => texts.of_class(inspector, age, class)?.name,
        None => 0,
    };
    let text = variable_text(inspector, variable.class, variable.key)?;
    Ok(Some(format!(in inspector.alloc; "{text}\0{owner} {key}")?))
}

/// Returns the name of a variable, given the class of a class variable.
fn variable_text(
    inspector: &Inspector<'_>,
    class: Option<ObjectIndex>,
    key: ObjectIndex,
) -> Result<String, AllocError>
    requires class { IfSome class (λ class. IsObjectOf inspector.now class) }
    requires key { IsObjectOf inspector.now key }
{
    let key = inspector.names.text(key)?;
    match class {
        None => format!(in inspector.alloc; "Smalltalk at: #{key}"),
        Some(class) => {
            let class = inspector.names.name_of_class(class)?;
            format!(in inspector.alloc; "{class} class variable {key}")
        }
    }
}

/// Returns the name in a key.
pub(crate) fn name_in(key: &str) -> &str {
    match key.split_once('\0') {
        Some((name, _)) => name,
        None => key,
    }
}
