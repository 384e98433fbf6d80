//! The fields that say what an object is, if it has neither a value, a name nor elements.

ghost use Rattle.std.specs.Prelude.{All};
ghost use Rattle.sqz_look_view.specs.Inspectors.{IsObjectOf};

use sqz_look_view::{Inspector, field_of};
use sqz_names::{Label, spells};
use sqz_object::{ObjectIndex, Value, value_of};
use std::alloc::AllocError;

/// The fields of the instances of a class whose instance variables have these names.
#[derive(Clone, Copy)]
pub(crate) struct PreviewFields {
    width: Option<u32>,
    height: Option<u32>,
    depth: Option<u32>,
    name: Option<u32>,
}

impl PreviewFields {
    /// Returns no fields.
    pub(crate) fn none() -> Self {
        PreviewFields {
            width: None,
            height: None,
            depth: None,
            name: None,
        }
    }

    /// Returns the fields of an object, which are those of each instance of its class.
    pub(crate) fn of(inspector: &Inspector<'_>, object: ObjectIndex) -> Result<Self, AllocError>
        requires { IsObjectOf inspector.now object }
    {
        let Some(class) = inspector.live.graph.class_of(object) else {
            return Ok(PreviewFields::none());
        };
        let Some(variables) = inspector.names.instance_variables(class)? else {
            return Ok(PreviewFields::none());
        };
        Ok(PreviewFields {
            width: field_named(inspector, &variables, "width")?,
            height: field_named(inspector, &variables, "height")?,
            depth: field_named(inspector, &variables, "depth")?,
            name: field_named(inspector, &variables, "name")?,
        })
    }

    /// Returns the extent and the depth of a form, or the name of an object. None if it states
    /// neither.
    pub(crate) fn preview(
        self,
        inspector: &Inspector<'_>,
        object: ObjectIndex,
    ) -> Result<Option<String>, AllocError>
        requires { IsObjectOf inspector.now object }
    {
        let integers = (
            integer_in(inspector, object, self.width),
            integer_in(inspector, object, self.height),
            integer_in(inspector, object, self.depth),
        );
        if let (Some(width), Some(height), Some(depth)) = integers {
            let text = format!(in inspector.alloc; "{width}x{height}, depth {depth}")?;
            return Ok(Some(text));
        }
        match self.name {
            Some(name) => name_in(inspector, object, name),
            None => Ok(None),
        }
    }
}

/// Returns the field that the first instance variable of a name is.
fn field_named(
    inspector: &Inspector<'_>,
    variables: &[ObjectIndex],
    name: &str,
) -> Result<Option<u32>, AllocError>
    requires { All (IsObjectOf inspector.now) variables.now }
{
    let heap = inspector.live.graph.heap;
    for (field, variable) in variables.iter().enumerate() {
        if spells(inspector.alloc, heap, *variable, name)? {
            return Ok(u32::try_from(field).ok());
        }
    }
    Ok(None)
}

/// Returns the SmallInteger in a field of an object. None if there is none.
fn integer_in(inspector: &Inspector<'_>, object: ObjectIndex, field: Option<u32>) -> Option<i32>
    requires { IsObjectOf inspector.now object }
{
    let object = inspector.live.graph.heap.object(object);
    match value_of(object.fields().get(field? as usize)?) {
        Value::Int(number) => Some(number),
        Value::Pointer(_) | Value::Odd(_) => None,
    }
}

/// Returns the string or symbol in a field of an object as text. None if there is none.
fn name_in(
    inspector: &Inspector<'_>,
    object: ObjectIndex,
    field: u32,
) -> Result<Option<String>, AllocError>
    requires { IsObjectOf inspector.now object }
{
    let Some(name) = field_of(inspector, object, field) else {
        return Ok(None);
    };
    match inspector.names.label_of(name)? {
        Label::String | Label::Symbol => Ok(Some(inspector.names.label(name)?)),
        _ => Ok(None),
    }
}
