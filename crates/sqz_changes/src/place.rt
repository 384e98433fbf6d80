//! Where two partners can differ.

ghost use Rattle.std.specs.Prelude.{◌≡◌};

use sqz_image::Slot;

/// Where two partners are compared, in this order.
#[derive(Clone, Copy, Debug, PartialEq, Eq)]
pub enum Place {
    /// The kind of header, the size, the format, the compact class index or the number of traced
    /// fields. For two methods only the compact class index and the number of traced fields.
    Header,
    /// The identity hash.
    Hash,
    /// The words after the traced fields; of byte objects their bytes. For two methods their
    /// bytecodes, which end before the trailer.
    Words,
    /// For two methods the kind of header, the size, the format or the bytes after the traced
    /// fields, trailer included. Other objects never differ here.
    Trailer,
    /// A slot that both have: the class word, or one of the traced fields. Two slots are the same
    /// if they lead to partners, or if neither leads to an object and both hold the same word.
    Slot(Slot),
}

/// A place where two partners differ.
#[derive(Clone, Copy, Debug, PartialEq, Eq)]
pub struct Difference {
    /// The index of the pair in the matching.
    pub pair: u32,
    pub place: Place,
}

impl Place {
    /// Returns this place of a pair.
    pub(crate) fn of(self, pair: u32) -> Difference
        ensures { result ≡ record { pair = pair; place = self } }
    {
        Difference { pair, place: self }
    }
}
