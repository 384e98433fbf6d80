//! What holds a variable, and what it holds.

ghost use Rattle.std.specs.Prelude.{◌≡◌, ◌⊎◌, ◌<◌, IfOk, IfSome, None};
ghost use Rattle.sqz_image.specs.Objects.{object_count};
ghost use Rattle.sqz_names.specs.LabelOrder.{HasOtherLabel, IsNoVariable};
ghost use Rattle.sqz_names.specs.Names.{AreObjects, IsHeld, IsVariableName};

use crate::fields::VALUE;
use crate::label::Label;
use crate::names::Names;
use crate::targets::field_target;
use crate::variable_name::{Variable, VariableName};
use crate::variables::{associations_of, dictionary_of};
use sqz_object::ObjectIndex;
use std::alloc::AllocError;

impl Names<'_> {
    /// Returns the variable whose association an object is. None if its label is not that of a
    /// global or a class variable.
    pub fn variable(&self, association: ObjectIndex) -> Result<Option<Variable>, AllocError>
        requires { association < object_count self.now.graph.heap.now }
        ensures held { IfOk result (λ found. IfSome found
            (IsHeld self.now.graph.heap.now self.now.graph.weak association)) }
        ensures inside { IfOk result (λ found. IfSome found
            (AreObjects (object_count self.now.graph.heap.now))) }
        ensures none { IfOk result (λ found. found ≡ None
            → IsNoVariable self.now.graph.heap.now self.now.graph.weak association
            ⊎ HasOtherLabel self.now.graph.heap.now self.now.graph.weak association) }
    {
        let Some(name) = self.variable_name(association) else {
            return Ok(None);
        };
        match self.label_of(association)? {
            Label::Global { .. } | Label::ClassVariable { .. } => Ok(Some(self.held(name))),
            _ => Ok(None),
        }
    }

    /// Returns what holds a variable, and its value.
    fn held(&self, name: VariableName) -> Variable
        requires { IsVariableName self.now.graph.heap.now self.now.graph.weak name }
        ensures held { IsHeld self.now.graph.heap.now self.now.graph.weak name.association result }
        ensures inside { AreObjects (object_count self.now.graph.heap.now) result }
    {
        let heap = self.graph.heap;
        Variable {
            dictionary: dictionary_of(heap, name.class).unwrap(),
            array: associations_of(heap, name.class).unwrap(),
            value: field_target(heap, name.association, VALUE),
        }
    }
}
