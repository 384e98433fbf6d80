//! The text of a label.

ghost use Rattle.std.specs.Prelude.{◌≡◌, ◌<◌, IfOk};
ghost use Rattle.std.specs.String.{string_bytes};
ghost use Rattle.sqz_image.specs.Objects.{object_count};
ghost use Rattle.sqz_names.specs.declared.label.Label.TheVariants.{Other};
ghost use Rattle.sqz_names.specs.ByteTexts.{text_of};
ghost use Rattle.sqz_names.specs.Labels.{IsInside};
ghost use Rattle.sqz_names.specs.Texts.{label_text, short_text, HasLabel, HasShortLabel};

use crate::byte_texts::{quoted_text_of, text_of};
use crate::formats::INDEXED;
use crate::label::Label;
use crate::names::Names;
use sqz_object::{ObjectIndex, base_of};
use std::alloc::AllocError;

impl Names<'_> {
    /// Returns the label of an object as text: its name if it has one, else the name of its class
    /// and its address.
    pub fn label(&self, object: ObjectIndex) -> Result<String, AllocError>
        requires { object < object_count self.now.graph.heap.now }
        ensures { IfOk result (λ text. HasLabel self.now.graph.heap.now self.now.graph.weak
            object (string_bytes text)) }
    {
        let label = self.label_of(object)?;
        self.label_text(object, label)
    }

    /// Returns the label of an object for a text that also has its address: its name if it has
    /// one, else the name of its class, with the number of its fields if all of them are indexed.
    pub fn short_label(&self, object: ObjectIndex) -> Result<String, AllocError>
        requires { object < object_count self.now.graph.heap.now }
        ensures { IfOk result (λ text. HasShortLabel self.now.graph.heap.now self.now.graph.weak
            object (string_bytes text)) }
    {
        match self.label_of(object)? {
            Label::Other => self.class_and_extent(object),
            label => self.label_text(object, label),
        }
    }

    /// Returns the first bytes of a byte object as text, followed by `..` if there are more. The
    /// text of any other object is empty.
    pub fn text(&self, object: ObjectIndex) -> Result<String, AllocError>
        requires { object < object_count self.now.graph.heap.now }
        ensures { IfOk result (λ text. string_bytes text ≡ text_of self.now.graph.heap.now object) }
    {
        text_of(self.alloc, self.graph.heap, object)
    }

    /// Returns the text of an object with this label.
    pub(crate) fn label_text(&self, object: ObjectIndex, label: Label) -> Result<String, AllocError>
        requires object { object < object_count self.now.graph.heap.now }
        requires label { IsInside (object_count self.now.graph.heap.now) label }
        ensures { IfOk result (λ text. string_bytes text
            ≡ label_text self.now.graph.heap.now self.now.graph.weak object label) }
    {
        let (alloc, heap) = (self.alloc, self.graph.heap);
        match label {
            Label::SpecialObjects => String::from_str(alloc, "special objects array"),
            Label::Known(known) => String::from_str(alloc, known.name()),
            Label::Class => {
                let name = self.name_of_class(object)?;
                format!(in alloc; "class {name}")
            }
            Label::Metaclass => self.name_of_class(object),
            Label::Method { class, selector } => {
                let (class, selector) = (self.name_of_class(class)?, self.text(selector)?);
                format!(in alloc; "{class}>>{selector}")
            }
            Label::Global { key } => {
                let key = self.text(key)?;
                format!(in alloc; "Smalltalk at: #{key}")
            }
            Label::ClassVariable { class, key } => {
                let (class, key) = (self.name_of_class(class)?, self.text(key)?);
                format!(in alloc; "{class} class variable {key}")
            }
            Label::String => quoted_text_of(alloc, heap, object),
            Label::Symbol => {
                let text = self.text(object)?;
                format!(in alloc; "#{text}")
            }
            Label::Other => self.class_and_address(object),
        }
    }

    /// Returns the name of the object's class and its address.
    fn class_and_address(&self, object: ObjectIndex) -> Result<String, AllocError>
        requires { object < object_count self.now.graph.heap.now }
        ensures { IfOk result (λ text. string_bytes text
            ≡ label_text self.now.graph.heap.now self.now.graph.weak object Other) }
    {
        let class = self.name_of_class_of(object)?;
        let address = self.graph.heap.address(object);
        format!(in self.alloc; "{class} {address:08x}")
    }

    /// Returns the name of the object's class, with the number of its fields if all of them are
    /// indexed.
    fn class_and_extent(&self, object: ObjectIndex) -> Result<String, AllocError>
        requires { object < object_count self.now.graph.heap.now }
        ensures { IfOk result (λ text. string_bytes text
            ≡ short_text self.now.graph.heap.now self.now.graph.weak object Other) }
    {
        let class = self.name_of_class_of(object)?;
        if base_of(self.graph.heap.chunk(object).base).format != INDEXED {
            return Ok(class);
        }
        let count = self.graph.heap.fields(object);
        format!(in self.alloc; "{class}({count})")
    }
}
