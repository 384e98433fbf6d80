//! What the slots of an object are called.

ghost use Rattle.std.specs.Prelude.{IfSome};
ghost use Rattle.sqz_look_view.specs.Inspectors.{IsObjectOf};

use crate::inspector::Inspector;
use crate::special_names::special_name;
use sqz_code::MethodHeader;
use sqz_facts::object_facts;
use sqz_image::{Object, Slot};
use sqz_names::formats::{FIXED_AND_INDEXED, FIXED_AND_WEAK, INDEXED};
use sqz_object::{Layout, ObjectIndex};
use sqz_trace::fixed_by;
use std::alloc::{AllocError, Global};

/// The names of the slots of an object.
#[derive(Drop)]
pub struct SlotNames {
    alloc: Global,
    /// The class whose instance variables were found last.
    class: Option<ObjectIndex>,
    /// The names of these instance variables.
    variables: Vec<String>,
    /// Whether the fields of the object are these instance variables.
    has_variables: bool,
    /// Whether the object is the special objects array.
    is_special: bool,
    /// The number of literals, if the object is a compiled method.
    literals: Option<u32>,
    /// The first indexed field, if the object has such fields.
    first_indexed: Option<u32>,
}

impl SlotNames {
    /// Returns names of slots, none of which is that of an instance variable.
    pub fn none(alloc: Global) -> Self {
        SlotNames {
            alloc,
            class: None,
            variables: Vec::new(alloc),
            has_variables: false,
            is_special: false,
            literals: None,
            first_indexed: None,
        }
    }

    /// Returns the names of the slots of an object.
    pub fn of(inspector: &Inspector<'_>, object: ObjectIndex) -> Result<Self, AllocError>
        requires { IsObjectOf inspector.now object }
    {
        let mut names = SlotNames::none(inspector.alloc);
        names.set_object(inspector, object)?;
        Ok(names)
    }

    /// Makes these the names of the slots of another object. The names of its instance variables
    /// are found again only if it has another class. All objects have to be of one image.
    pub fn set_object(
        &mut self,
        inspector: &Inspector<'_>,
        object: ObjectIndex,
    ) -> Result<(), AllocError>
        requires { IsObjectOf inspector.now object }
    {
        let graph = inspector.live.graph;
        let layout = graph.heap.object(object).layout();
        let facts = object_facts(graph, object);
        self.literals = literals_of(&graph.heap.object(object));
        self.has_variables = !matches!(layout, Layout::Bytes { .. } | Layout::Method);
        self.is_special = object == graph.heap.special();
        self.first_indexed = match facts.format {
            INDEXED => Some(0),
            FIXED_AND_INDEXED | FIXED_AND_WEAK => fixed_by(graph.heap, facts.class),
            _ => None,
        };
        if self.has_variables && self.class != facts.class {
            self.variables = variables_of(inspector, facts.class)?;
            self.class = facts.class;
        }
        Ok(())
    }

    /// Returns the name of the instance variable that a slot is; of a slot of the special objects
    /// array, what it points to.
    pub fn name(&self, slot: Slot) -> Result<Option<String>, AllocError> {
        let Slot::Field(index) = slot else {
            return Ok(None);
        };
        if self.is_special {
            return match special_name(index) {
                Some(name) => Ok(Some(String::from_str(self.alloc, name)?)),
                None => Ok(None),
            };
        }
        match self.variables.get(index as usize) {
            Some(variable) if self.has_variables => Ok(Some(variable.clone()?)),
            _ => Ok(None),
        }
    }

    /// Returns a slot as text: `.NAME`, `[K]` with the index of an indexed field counted from 1,
    /// `literal K` counted from 1 and `header` of a method, `special object K` with the number of a
    /// field of the special objects array and its name, `class`, or `field K`.
    pub fn text(&self, slot: Slot) -> Result<String, AllocError> {
        let alloc = self.alloc;
        let Slot::Field(index) = slot else {
            return String::from_str(alloc, "class");
        };
        if self.is_special {
            return special_text(alloc, index);
        }
        if let Some(literals) = self.literals {
            return method_text(alloc, index, literals);
        }
        if let Some(name) = self.name(slot)? {
            return format!(in alloc; ".{name}");
        }
        match self
            .first_indexed
            .and_then(|first| index.checked_sub(first))
        {
            Some(place) => format!(in alloc; "[{}]", u64::from(place) + 1),
            None => format!(in alloc; "field {index}"),
        }
    }
}

/// Returns a field of the special objects array as text.
fn special_text(alloc: Global, index: u32) -> Result<String, AllocError> {
    match special_name(index) {
        Some(name) => format!(in alloc; "special object {index}, {name}"),
        None => format!(in alloc; "special object {index}"),
    }
}

/// Returns the number of literals of a compiled method. None for another object, and if its header
/// is not a SmallInteger.
fn literals_of(object: &Object<'_>) -> Option<u32> {
    if object.layout() != Layout::Method {
        return None;
    }
    let header = MethodHeader::of(object.fields().get(0)?)?;
    Some(header.literals)
}

/// Returns a field of a compiled method with this number of literals as text.
fn method_text(alloc: Global, index: u32, literals: u32) -> Result<String, AllocError> {
    if index == 0 {
        return String::from_str(alloc, "header");
    }
    if index <= literals {
        format!(in alloc; "literal {index}")
    } else {
        format!(in alloc; "field {index}")
    }
}

/// Returns the names of the instance variables of a class; none if they are not known.
fn variables_of(
    inspector: &Inspector<'_>,
    class: Option<ObjectIndex>,
) -> Result<Vec<String>, AllocError>
    requires { IfSome class (λ class. IsObjectOf inspector.now class) }
{
    let mut texts = Vec::new(inspector.alloc);
    let names = match class {
        Some(class) => inspector.names.instance_variables(class)?,
        None => None,
    };
    let Some(names) = names else {
        return Ok(texts);
    };
    for name in &names {
        texts.push(inspector.names.text(*name)?)?;
    }
    Ok(texts)
}
