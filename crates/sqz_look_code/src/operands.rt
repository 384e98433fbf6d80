//! The names of what instructions work on.

ghost use Rattle.sqz_look_view.specs.Inspectors.{IsObjectOf};

use crate::special_selectors::special_name;
use sqz_code::{Source, Target, method_literals};
use sqz_look_view::{Inspector, object_at, value_text};
use sqz_names::Label;
use sqz_object::{ObjectIndex, Value, value_of};
use std::alloc::{AllocError, Global};

/// The names of the instance variables and the literals of a method.
#[derive(Drop)]
pub(crate) struct Operands {
    alloc: Global,
    /// The names of the instance variables of the method's class.
    variables: Vec<String>,
    /// The literals as text.
    pub(crate) literals: Vec<String>,
}

impl Operands {
    /// Returns those of a method.
    pub(crate) fn of(inspector: &Inspector<'_>, method: ObjectIndex) -> Result<Self, AllocError>
        requires { IsObjectOf inspector.now method }
    {
        Ok(Operands {
            alloc: inspector.alloc,
            variables: variables_of(inspector, method)?,
            literals: literals_of(inspector, method)?,
        })
    }

    /// Returns what an instruction pushes.
    pub(crate) fn source(&self, source: Source) -> Result<String, AllocError> {
        let word = match source {
            Source::InstanceVariable(index) => return self.variable(index),
            Source::Temporary(index) => return format!(in self.alloc; "temp {index}"),
            Source::Literal(index) | Source::Variable(index) => return self.literal(index),
            Source::Receiver => "self",
            Source::True => "true",
            Source::False => "false",
            Source::Nil => "nil",
            Source::MinusOne => "-1",
            Source::Zero => "0",
            Source::One => "1",
            Source::Two => "2",
            Source::ThisContext => "thisContext",
        };
        String::from_str(self.alloc, word)
    }

    /// Returns where an instruction stores.
    pub(crate) fn target(&self, target: Target) -> Result<String, AllocError> {
        match target {
            Target::InstanceVariable(index) => self.variable(index),
            Target::Temporary(index) => format!(in self.alloc; "temp {index}"),
            Target::Variable(index) => self.literal(index),
        }
    }

    /// Returns a literal as text.
    pub(crate) fn literal(&self, index: u8) -> Result<String, AllocError> {
        match self.literals.get(usize::from(index)) {
            Some(literal) => literal.clone(),
            None => format!(in self.alloc; "literal {}, which is not there", u32::from(index) + 1),
        }
    }

    /// Returns a special selector as text.
    pub(crate) fn special(&self, index: u8) -> Result<String, AllocError> {
        match special_name(index) {
            Some(name) => format!(in self.alloc; "#{name}"),
            None => format!(in self.alloc; "special selector {index}"),
        }
    }

    /// Returns an instance variable as text: its name if it is known.
    fn variable(&self, index: u8) -> Result<String, AllocError> {
        match self.variables.get(usize::from(index)) {
            Some(name) => name.clone(),
            None => format!(in self.alloc; "instance variable {index}"),
        }
    }
}

/// Returns the names of the instance variables of the class of a method; none if the class is not
/// known.
fn variables_of(inspector: &Inspector<'_>, method: ObjectIndex) -> Result<Vec<String>, AllocError>
    requires { IsObjectOf inspector.now method }
{
    let mut names = Vec::new(inspector.alloc);
    let Label::Method { class, .. } = inspector.names.label_of(method)? else {
        return Ok(names);
    };
    let Some(variables) = inspector.names.instance_variables(class)? else {
        return Ok(names);
    };
    for variable in &variables {
        names.push(inspector.names.text(*variable)?)?;
    }
    Ok(names)
}

/// Returns the literals of a method as text: the value of a number or a character, the label of
/// another object.
fn literals_of(inspector: &Inspector<'_>, method: ObjectIndex) -> Result<Vec<String>, AllocError>
    requires { IsObjectOf inspector.now method }
{
    let heap = inspector.live.graph.heap;
    let mut literals = Vec::new(inspector.alloc);
    for word in method_literals(heap, method).iter() {
        literals.push(literal_text(inspector, word)?)?;
    }
    Ok(literals)
}

/// Returns a word as text: the value of a number or a character, the label of another object, or
/// the word itself in hexadecimal digits.
fn literal_text(inspector: &Inspector<'_>, word: u32) -> Result<String, AllocError> {
    let alloc = inspector.alloc;
    match value_of(word) {
        Value::Int(number) => format!(in alloc; "{number}"),
        Value::Pointer(address) => match object_at(inspector.live.graph.heap, address) {
            Some(object) => match value_text(inspector, object)? {
                Some(value) => Ok(value),
                None => inspector.names.label(object),
            },
            None => format!(in alloc; "{word:08x} (no object)"),
        },
        Value::Odd(_) => format!(in alloc; "{word:08x} (no object)"),
    }
}
