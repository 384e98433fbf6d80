//! The cells of objects and slots.

ghost use Rattle.sqz_look_view.specs.Inspectors.{IsObjectOf};

use crate::inspector::Inspector;
use crate::out::Out;
use crate::slots::SlotNames;
use sqz_image::{Sink, Slot};
use sqz_object::ObjectIndex;

impl<'a, C: Sink> Out<'a, C> {
    /// Adds the label of an object: the whole one to JSON, and as text one for a row that has the
    /// object's address, too.
    pub fn label(&mut self, name: &'static str, inspector: &Inspector<'_>, object: ObjectIndex)
        requires { IsObjectOf inspector.now object }
    {
        let label = if self.is_json() {
            inspector.names.label(object)
        } else {
            inspector.names.short_label(object)
        };
        self.text(name, label);
    }

    /// Adds an object: its `address`, its `class` and its `label`.
    pub fn object(&mut self, inspector: &Inspector<'_>, object: ObjectIndex)
        requires { IsObjectOf inspector.now object }
    {
        self.hex("address", inspector.address(object).0);
        self.text("class", inspector.names.name_of_class_of(object));
        self.label("label", inspector, object);
    }

    /// Adds a slot of the object whose slots these names are of: to JSON `slot`, which is `"class"`
    /// or the number of a field, and its `name`; as text in the words of `SlotNames::text`.
    pub fn slot(&mut self, names: &SlotNames, slot: Slot) {
        if !self.is_json() {
            return self.text("slot", names.text(slot));
        }
        match slot {
            Slot::ClassWord => self.word("slot", "class"),
            Slot::Field(index) => self.number("slot", u64::from(index)),
        }
        self.text_or_null("name", names.name(slot));
    }

    /// Adds no slot.
    pub fn no_slot(&mut self) {
        self.null("slot");
        self.null("name");
    }
}
