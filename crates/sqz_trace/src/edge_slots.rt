//! An iterator over the strong slots of an object.

ghost use Rattle.std.specs.Prelude.{◌≡◌};
ghost use Rattle.std.specs.Iterator.{YieldsFirst, item_count};
ghost use Rattle.sqz_image.specs.declared.slot.Slot.TheVariants.{ClassWord};
ghost use Rattle.sqz_trace.specs.Edges.{slots_from};

use sqz_image::Slot;
use std::marker::Model;

/// An iterator over the strong slots of an object: the class word, and then the strong fields.
/// Contracts see the list of the slots that are left.
#[derive(Drop)]
pub struct StrongSlots {
    /// The next slot, if it is the class word or a strong field.
    next: Slot,
    /// The number of strong fields.
    strong: u32,
}

impl Model for StrongSlots {
    ghost use Rattle.std.specs.Prelude.{List};
    ghost use Rattle.sqz_image.specs.declared.slot.Slot.{Slot};
    ghost use Rattle.sqz_trace.specs.Edges.{slots_from};

    ghost Value = { List Slot };

    ghost view = { λ slots. slots_from slots.next slots.strong };
}

impl StrongSlots {
    /// Returns the slots of an object with this number of strong fields.
    pub(crate) fn new(strong: u32) -> Self
        ensures { result ≡ slots_from ClassWord strong }
    {
        StrongSlots {
            next: Slot::ClassWord,
            strong,
        }
    }
}

impl Iterator for StrongSlots {
    type Item = Slot;

    ghost next_gives = { YieldsFirst (λ rest. rest) };

    ghost remaining = { item_count (λ rest. rest) };

    fn next(&mut self) -> Option<Slot> {
        let slot = self.next;
        self.next = match slot {
            Slot::ClassWord => Slot::Field(0),
            Slot::Field(index) if index < self.strong => Slot::Field(index + 1),
            Slot::Field(_) => return None,
        };
        Some(slot)
    }
}
