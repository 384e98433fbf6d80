//! The names of instance variables.

ghost use Rattle.std.specs.Prelude.{◌≡◌, ◌<◌, ◌∷◌, ◌++◌, length, option_map};
ghost use Rattle.std.specs.Prelude.{All, IfOk, IfSome, IsTrue, None, Some};
ghost use Rattle.std.specs.Bool.{then_some};
ghost use Rattle.sqz_image.specs.Objects.{object_count};
ghost use Rattle.sqz_trace.specs.Strong.{fixed_by};
ghost use Rattle.sqz_names.specs.InstanceVariables.{all_some, instance_variables, name_arrays};
ghost use Rattle.sqz_names.specs.InstanceVariables.{name_count, names_in};
ghost use Rattle.sqz_names.specs.Names.{IsTextObject};

use crate::bytes::is_bytes;
use crate::fields::{INSTANCE_VARIABLES, SUPERCLASS};
use crate::names::Names;
use crate::targets::field_target;
use sqz_object::ObjectIndex;
use sqz_trace::fixed_by;
use std::alloc::AllocError;

/// The maximum number of classes that are followed from a class up, counting the class itself.
const MOST_CLASSES: u32 = 100;

impl Names<'_> {
    /// Returns the names of the instance variables of a class, those of its superclasses first, as
    /// the indexes of byte objects: one for each fixed field, at most 254. None if they are not
    /// known.
    pub fn instance_variables(
        &self,
        class: ObjectIndex,
    ) -> Result<Option<Vec<ObjectIndex>>, AllocError>
        requires { class < object_count self.now.graph.heap.now }
        ensures names { IfOk result (λ names. option_map (λ names. names.items) names
            ≡ instance_variables self.now.graph.heap.now class) }
        ensures texts { IfOk result (λ names. IfSome names (λ names.
            All (IsTextObject self.now.graph.heap.now) names.items)) }
        ensures one_each { IfOk result (λ names. IfSome names (λ names.
            fixed_by self.now.graph.heap.now (Some class) ≡ Some (length names.items))) }
    {
        let Some(fixed) = fixed_by(self.graph.heap, Some(class)) else {
            return Ok(None);
        };
        let Some(mut arrays) = self.name_arrays(class, fixed)? else {
            return Ok(None);
        };
        arrays.reverse(); // those of the highest class first
        let mut names = Vec::new(self.alloc);
        for array in &arrays {
            if !self.push_names(*array, &mut names)? {
                return Ok(None);
            }
        }
        Ok((names.len() == fixed as usize).then_some(names))
    }

    /// Returns the arrays of the names that a class and its superclasses add, those of the class
    /// first. None as soon as they have more than `most` elements.
    fn name_arrays(
        &self,
        class: ObjectIndex,
        most: u32,
    ) -> Result<Option<Vec<ObjectIndex>>, AllocError>
        requires { class < object_count self.now.graph.heap.now }
        ensures inside { IfOk result (λ arrays. IfSome arrays (λ arrays.
            All (λ array. array < object_count self.now.graph.heap.now) arrays.items)) }
        ensures arrays { IfOk result (λ arrays. IfSome arrays (λ arrays.
            arrays.items ≡ name_arrays self.now.graph.heap.now class)) }
        ensures many { IfOk result (λ arrays. arrays ≡ None
            → most < name_count self.now.graph.heap.now
            (name_arrays self.now.graph.heap.now class)) }
    {
        let mut arrays = Vec::new(self.alloc);
        let mut count = 0u32;
        let mut next = Some(class);
        for seen in 0..MOST_CLASSES {
            let Some(class) = next else {
                break;
            };
            if let Some(array) = field_target(self.graph.heap, class, INSTANCE_VARIABLES) {
                count = count.saturating_add(self.graph.heap.fields(array));
                arrays.push(array)?;
            }
            if count > most {
                return Ok(None);
            }
            next = field_target(self.graph.heap, class, SUPERCLASS);
        }
        Ok(Some(arrays))
    }

    /// Appends the elements of an array, and returns whether each of them is a byte object.
    fn push_names(
        &self,
        array: ObjectIndex,
        names: &mut Vec<ObjectIndex>,
    ) -> Result<bool, AllocError>
        requires inside { array < object_count self.now.graph.heap.now }
        requires texts { All (IsTextObject self.now.graph.heap.now) names.old.items }
        ensures texts { All (IsTextObject self.now.graph.heap.now) names.new.items }
        ensures names { IfOk result (λ are. then_some are names.new.items
            ≡ option_map (λ its. names.old.items ++ its)
            (all_some (names_in self.now.graph.heap.now array))) }
    {
        for field in 0..self.graph.heap.fields(array) {
            match field_target(self.graph.heap, array, field) {
                Some(name) if is_bytes(self.graph.heap, name) => names.push(name)?,
                _ => return Ok(false),
            }
        }
        Ok(true)
    }
}
