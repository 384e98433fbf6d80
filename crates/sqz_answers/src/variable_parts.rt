//! The variables of an image, which have rows of their own.

ghost use Rattle.std.specs.Prelude.{◌≡◌, ◌<◌, IfOk, IfSome, length, slice_index_or, false, None};
ghost use Rattle.sqz_image.specs.Objects.{object_count};
ghost use Rattle.sqz_answers.specs.Variables.{no_variables, with_variable};

use sqz_image::Heap;
use sqz_object::ObjectIndex;
use std::alloc::{AllocError, Global};
use std::marker::Model;

/// The variables of an image: by object index, whether an object only holds variables, and the
/// object that the association of a variable holds.
#[derive(Drop)]
pub struct VariableParts {
    /// For each object, whether it is the dictionary of variables or the array of one.
    holders: Vec<bool>,
    /// For each object, the value if it is the association of a variable.
    values: Vec<Option<ObjectIndex>>,
}

impl Model for VariableParts {
    ghost use Rattle.sqz_answers.specs.Variables.{Variables, AreInRange};

    ghost Value = { Variables };

    ghost view = { λ parts. record {
      holders = parts.holders.items;
      values = parts.values.items;
    } };

    ghost invariant = { λ parts. AreInRange parts.holders.items parts.values.items };
}

impl VariableParts {
    /// Returns no variables of the image with this heap.
    pub fn none(alloc: Global, heap: &Heap) -> Result<Self, AllocError>
        ensures parts { IfOk result (λ parts. parts ≡ no_variables (object_count heap.now)) }
        ensures sized { IfOk result (λ parts. length parts.holders ≡ object_count heap.now) }
    {
        let count = heap.len() as usize;
        let holders = vec![in alloc; false; count]?;
        let values = vec![in alloc; None; count]?;
        Ok(VariableParts { holders, values })
    }

    /// Adds a variable: its association, the object that it holds, and the dictionary that holds
    /// the association, with its array.
    pub fn add(
        &mut self,
        association: ObjectIndex,
        value: Option<ObjectIndex>,
        dictionary: ObjectIndex,
        array: Option<ObjectIndex>,
    )
        requires association { association < length self.old.holders }
        requires value { IfSome value (λ value. value < length self.old.holders) }
        requires dictionary { dictionary < length self.old.holders }
        requires array { IfSome array (λ array. array < length self.old.holders) }
        ensures added { self.new ≡ with_variable association value dictionary array self.old }
        ensures sized { length self.new.holders ≡ length self.old.holders }
    {
        self.values[association as usize] = value;
        self.holders[dictionary as usize] = true;
        if let Some(array) = array {
            self.holders[array as usize] = true;
        }
    }

    /// Returns whether an object only holds variables: whether it is the dictionary of variables,
    /// or the array of one.
    pub fn is_holder(&self, object: ObjectIndex) -> bool
        ensures { result ≡ slice_index_or self.now.holders object false }
    {
        (object as usize) < self.holders.len() && self.holders[object as usize]
    }

    /// Returns the object that the association of a variable holds. None for any other object.
    pub fn value(&self, association: ObjectIndex) -> Option<ObjectIndex>
        ensures { result ≡ slice_index_or self.now.values association None }
    {
        if (association as usize) < self.values.len() {
            self.values[association as usize]
        } else {
            None
        }
    }
}
