//! What a name stands for.

ghost use Rattle.std.specs.Prelude.{◌≡◌, ◌<◌, ℕ, length, All, IfOk, IfSome, IsSome, IsTrue, Option};
ghost use Rattle.std.specs.Prelude.{true};
ghost use Rattle.std.specs.Str.{bytes_eq};
ghost use Rattle.sqz_image.specs.Objects.{object_count};
ghost use Rattle.sqz_trace.specs.Graph.{is_marked};
ghost use Rattle.sqz_names.specs.ByteTexts.{whole_name};
ghost use Rattle.sqz_names.specs.Names.{AreMethodsNamed, AreMethodsUnder, AreOfClasses};
ghost use Rattle.sqz_names.specs.Names.{IsClassNamed, IsMethodName, IsOwner, IsVariableName};
ghost use Rattle.sqz_names.specs.Names.{ListsMethodsOf};
ghost use Rattle.sqz_names.specs.Picks.{AreObjectsThat};
ghost use Rattle.sqz_names.specs.Structures.{IsClass, IsMethodOf, IsVariable};
ghost use Rattle.sqz_names.specs.Words.{IsClassCalled};

use crate::bytes::spells;
use crate::class_names::is_class_named;
use crate::method_name::MethodName;
use crate::methods::MethodsFound;
use crate::names::Names;
use crate::object_set::ObjectSet;
use crate::variable_name::VariableName;
use crate::words::class_in;
use sqz_object::ObjectIndex;
use std::alloc::AllocError;

impl Names<'_> {
    /// Returns the classes with this name, by address. `class` may precede it, and a metaclass is
    /// named `NAME class`.
    pub(crate) fn classes_called(&self, words: &str) -> Result<Vec<ObjectIndex>, AllocError>
        ensures named { IfOk result (λ found. All (IsClassCalled self.now.graph.heap.now
            self.now.graph.weak words.now) found.items) }
        ensures all { IfOk result (λ found. AreObjectsThat self.now.graph.heap.now
            (IsClassCalled self.now.graph.heap.now self.now.graph.weak words.now) found.items) }
    {
        let mut found = Vec::new(self.alloc);
        for class in 0..self.graph.heap.len() {
            if self.is_class_called(class, words)? {
                found.push(class)?;
            }
        }
        Ok(found)
    }

    /// Returns whether an object is a class with this name. `class` may precede it.
    pub(crate) fn is_class_called(
        &self,
        object: ObjectIndex,
        words: &str,
    ) -> Result<bool, AllocError>
        requires { object < object_count self.now.graph.heap.now }
        ensures sound { IfOk result (λ is. IsTrue is
            → IsClassCalled self.now.graph.heap.now self.now.graph.weak words.now object) }
        ensures complete { IfOk result (λ is.
            IsClassCalled self.now.graph.heap.now self.now.graph.weak words.now object
            → IsTrue is) }
    {
        if self.is_class_named(object, words)? {
            return Ok(true);
        }
        self.is_class_named(object, class_in(words))
    }

    /// Returns whether an object is a class with this name.
    fn is_class_named(&self, object: ObjectIndex, name: &str) -> Result<bool, AllocError>
        requires { object < object_count self.now.graph.heap.now }
        ensures sound { IfOk result (λ is. IsTrue is
            → IsClassNamed self.now.graph.heap.now self.now.graph.weak name.now object) }
        ensures complete { IfOk result (λ is.
            IsClassNamed self.now.graph.heap.now self.now.graph.weak name.now object
            → IsTrue is) }
    {
        if !self.is_class(object) {
            return Ok(false);
        }
        is_class_named(self.alloc, self.graph, object, name)
    }

    /// Returns the methods with this name, as `Point>>x:y:`. The first `>>` ends the name of the
    /// class.
    pub(crate) fn methods_named(&self, name: &str) -> Result<ObjectSet, AllocError>
        ensures one_each { IfOk result (λ named.
            length named ≡ object_count self.now.graph.heap.now) }
        ensures named { IfOk result (λ named. AreMethodsNamed self.now.graph.heap.now
            self.now.graph.weak name.now named) }
    {
        match name.split_once(">>") {
            Some((class, selector)) => self.methods_under(class, selector),
            None => ObjectSet::empty(self.alloc, self.graph.heap),
        }
    }

    /// Returns the methods of the classes with a name under a selector.
    fn methods_under(&self, class: &str, selector: &str) -> Result<ObjectSet, AllocError>
        ensures one_each { IfOk result (λ named.
            length named ≡ object_count self.now.graph.heap.now) }
        ensures methods { IfOk result (λ named. AreMethodsUnder self.now.graph.heap.now
            self.now.graph.weak class.now selector.now named) }
    {
        let (alloc, heap) = (self.alloc, self.graph.heap);
        let methods = self.methods_of_classes(class)?;
        // each selector is compared once
        let mut compared = ObjectSet::empty(alloc, heap)?;
        let mut equal = ObjectSet::empty(alloc, heap)?;
        let mut named = ObjectSet::empty(alloc, heap)?;
        for method in &methods {
            let is_new = compared.insert(method.selector);
            if is_new && spells(alloc, heap, method.selector, selector)? {
                equal.insert(method.selector);
            }
            if equal.contains(method.selector) {
                named.insert(method.method);
            }
        }
        Ok(named)
    }

    /// Returns the methods of the classes with this name.
    fn methods_of_classes(&self, name: &str) -> Result<Vec<MethodName>, AllocError>
        ensures methods { IfOk result (λ found.
            All (IsMethodName self.now.graph.heap.now self.now.graph.weak) found.items) }
        ensures classes { IfOk result (λ found. AreOfClasses (λ class. bytes_eq
            (whole_name self.now.graph.heap.now self.now.graph.weak class) name.now) found.items) }
        ensures all { IfOk result (λ found. (class : ℕ)
            → IsClassNamed self.now.graph.heap.now self.now.graph.weak name.now class
            → ListsMethodsOf self.now.graph.heap.now found.items class) }
    {
        let mut methods = MethodsFound::none(self.alloc, self.graph)?;
        for class in 0..self.graph.heap.len() {
            if self.is_class_named(class, name)? {
                methods.add(class)?;
            }
        }
        Ok(methods.names)
    }

    /// Returns the first name of a method.
    pub(crate) fn method_name(&self, method: ObjectIndex) -> Option<MethodName>
        ensures named { IfSome result (λ name. name.method ≡ method) }
        ensures complete { (class selector : ℕ) → class < object_count self.now.graph.heap.now
            → IsClass self.now.graph.heap.now self.now.graph.weak class
            → IsMethodOf self.now.graph.heap.now class selector method → IsSome result }
        ensures is { IfSome result (IsMethodName self.now.graph.heap.now self.now.graph.weak) }
    {
        let is_before = |name: &MethodName| name.method < method;
        let place = self.methods.partition_point(is_before);
        let name = *self.methods.get(place)?;
        (name.method == method).then_some(name)
    }

    /// Returns the first name of the association of a variable.
    pub(crate) fn variable_name(&self, association: ObjectIndex) -> Option<VariableName>
        ensures named { IfSome result (λ name. name.association ≡ association) }
        ensures complete { (class : Option ℕ) (key : ℕ)
            → IsOwner self.now.graph.heap.now self.now.graph.weak class
            → IsVariable self.now.graph.heap.now class association key → IsSome result }
        ensures is { IfSome result (IsVariableName self.now.graph.heap.now self.now.graph.weak) }
    {
        let is_before = |name: &VariableName| name.association < association;
        let place = self.variables.partition_point(is_before);
        let name = *self.variables.get(place)?;
        (name.association == association).then_some(name)
    }
}
