//! What an object is to a Smalltalker.

ghost use Rattle.std.specs.Prelude.{◌≡◌, ◌<◌, IfOk, IfSome, IsTrue, None};
ghost use Rattle.sqz_image.specs.Objects.{object_count};
ghost use Rattle.sqz_names.specs.Known.{IsKnown};
ghost use Rattle.sqz_names.specs.Labels.{IsInside, IsLabel};
ghost use Rattle.sqz_names.specs.LabelOrder.{IsFirst, IsNoMethod, IsNoNamedClass};
ghost use Rattle.sqz_names.specs.LabelOrder.{IsNoVariable, IsNotKnown, IsNotSpecial, IsTextLabel};
ghost use Rattle.sqz_names.specs.LabelOrder.{IsUnplaced};

use crate::bytes::is_bytes;
use crate::class_names::class_name_of;
use crate::classes::has_own_name;
use crate::known::Known;
use crate::label::Label;
use crate::names::Names;
use crate::targets::field_target;
use sqz_histogram::naming;
use sqz_object::ObjectIndex;
use std::alloc::AllocError;

impl Names<'_> {
    /// Returns what an object is to a Smalltalker. A label that is given is what the image's
    /// structures state; an object that fits several has the first of them, in the order of
    /// `Label`, and one that fits none is `Label::Other`.
    pub fn label_of(&self, object: ObjectIndex) -> Result<Label, AllocError>
        requires { object < object_count self.now.graph.heap.now }
        ensures label { IfOk result (λ label.
            IsLabel self.now.graph.heap.now self.now.graph.weak object label) }
        ensures inside { IfOk result (λ label.
            IsInside (object_count self.now.graph.heap.now) label) }
        ensures first { IfOk result
            (IsFirst self.now.graph.heap.now self.now.graph.weak object) }
    {
        match self.placed_label(object)? {
            Some(label) => Ok(label),
            None => self.text_label(object),
        }
    }

    /// Returns the label of an object that has a name by its place in the image, and not by what it
    /// is.
    pub(crate) fn placed_label(&self, object: ObjectIndex) -> Result<Option<Label>, AllocError>
        requires { object < object_count self.now.graph.heap.now }
        ensures label { IfOk result (λ label. IfSome label
            (IsLabel self.now.graph.heap.now self.now.graph.weak object)) }
        ensures inside { IfOk result (λ label. IfSome label
            (IsInside (object_count self.now.graph.heap.now))) }
        ensures first { IfOk result (λ label. IfSome label
            (IsFirst self.now.graph.heap.now self.now.graph.weak object)) }
        ensures none { IfOk result (λ label. label ≡ None
            → IsUnplaced self.now.graph.heap.now self.now.graph.weak object) }
    {
        if object == self.graph.heap.special() {
            return Ok(Some(Label::SpecialObjects));
        }
        if let Some(known) = self.known(object)? {
            return Ok(Some(Label::Known(known)));
        }
        if let Some(label) = self.class_label(object)? {
            return Ok(Some(label));
        }
        Ok(self.named_label(object))
    }

    /// Returns which of the objects that every image has an object is.
    fn known(&self, object: ObjectIndex) -> Result<Option<Known>, AllocError>
        requires { object < object_count self.now.graph.heap.now }
        ensures sound { IfOk result (λ found. IfSome found (λ known.
            IsKnown self.now.graph.heap.now self.now.graph.weak known object)) }
        ensures complete { IfOk result (λ found. found ≡ None
            → IsNotKnown self.now.graph.heap.now self.now.graph.weak object) }
    {
        for known in Known::ALL {
            if self.is_known(known, object)? {
                return Ok(Some(known));
            }
        }
        Ok(None)
    }

    /// Returns whether an object is this one of the objects that every image has.
    fn is_known(&self, known: Known, object: ObjectIndex) -> Result<bool, AllocError>
        requires { object < object_count self.now.graph.heap.now }
        ensures sound { IfOk result (λ is. IsTrue is
            → IsKnown self.now.graph.heap.now self.now.graph.weak known object) }
        ensures complete { IfOk result (λ is.
            IsKnown self.now.graph.heap.now self.now.graph.weak known object → IsTrue is) }
    {
        let heap = self.graph.heap;
        if field_target(heap, heap.special(), known.field()) != Some(object) {
            return Ok(false);
        }
        match class_name_of(self.alloc, self.graph, object)? {
            Some(name) => Ok(name.as_slice() == known.class_name()),
            None => Ok(false),
        }
    }

    /// Returns the label of a class that has a name.
    fn class_label(&self, object: ObjectIndex) -> Result<Option<Label>, AllocError>
        requires { object < object_count self.now.graph.heap.now }
        ensures label { IfOk result (λ label. IfSome label
            (IsLabel self.now.graph.heap.now self.now.graph.weak object)) }
        ensures inside { IfOk result (λ label. IfSome label
            (IsInside (object_count self.now.graph.heap.now))) }
        ensures first { IsNotSpecial self.now.graph.heap.now object
            → IsNotKnown self.now.graph.heap.now self.now.graph.weak object
            → IfOk result (λ label. IfSome label
            (IsFirst self.now.graph.heap.now self.now.graph.weak object)) }
        ensures complete { IfOk result (λ label. label ≡ None
            → IsNoNamedClass self.now.graph.heap.now self.now.graph.weak object) }
    {
        if !self.is_class(object) {
            return Ok(None);
        }
        if naming(self.graph, object).is_none() {
            return Ok(None);
        }
        if has_own_name(self.graph.heap, object) {
            Ok(Some(Label::Class))
        } else {
            Ok(Some(Label::Metaclass))
        }
    }

    /// Returns the label of a method of a class, or of the association of a variable.
    fn named_label(&self, object: ObjectIndex) -> Option<Label>
        ensures label { IfSome result
            (IsLabel self.now.graph.heap.now self.now.graph.weak object) }
        ensures inside { IfSome result (IsInside (object_count self.now.graph.heap.now)) }
        ensures first { IsNotSpecial self.now.graph.heap.now object
            → IsNotKnown self.now.graph.heap.now self.now.graph.weak object
            → IsNoNamedClass self.now.graph.heap.now self.now.graph.weak object
            → IfSome result (IsFirst self.now.graph.heap.now self.now.graph.weak object) }
        ensures no_method { result ≡ None
            → IsNoMethod self.now.graph.heap.now self.now.graph.weak object }
        ensures no_variable { result ≡ None
            → IsNoVariable self.now.graph.heap.now self.now.graph.weak object }
    {
        if let Some(name) = self.method_name(object) {
            let (class, selector) = (name.class, name.selector);
            return Some(Label::Method { class, selector });
        }
        let name = self.variable_name(object)?;
        let key = name.key;
        match name.class {
            Some(class) => Some(Label::ClassVariable { class, key }),
            None => Some(Label::Global { key }),
        }
    }

    /// Returns the label of a string, a symbol or any other object.
    pub(crate) fn text_label(&self, object: ObjectIndex) -> Result<Label, AllocError>
        requires { object < object_count self.now.graph.heap.now }
        ensures label { IfOk result (λ label.
            IsLabel self.now.graph.heap.now self.now.graph.weak object label) }
        ensures inside { IfOk result (λ label.
            IsInside (object_count self.now.graph.heap.now) label) }
        ensures text { IfOk result
            (IsTextLabel self.now.graph.heap.now self.now.graph.weak object) }
    {
        if !is_bytes(self.graph.heap, object) {
            return Ok(Label::Other);
        }
        let Some(name) = class_name_of(self.alloc, self.graph, object)? else {
            return Ok(Label::Other);
        };
        let name = name.as_slice();
        if name == b"String".as_slice() || name == b"ByteString".as_slice() {
            return Ok(Label::String);
        }
        if name == b"Symbol".as_slice() || name == b"ByteSymbol".as_slice() {
            return Ok(Label::Symbol);
        }
        Ok(Label::Other)
    }
}
