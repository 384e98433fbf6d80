//! The layout of an object's fields.

ghost use Rattle.std.specs.Prelude.{◌≡◌};
ghost use Rattle.sqz_object.specs.Layout.{layout_of};

use crate::base::Base;

/// The layout of an object's fields, given by the format and the compact class index in its base
/// header.
#[derive(Clone, Copy, Debug, PartialEq, Eq)]
pub enum Layout {
    /// Slots only: formats 0 to 3, except contexts.
    Fields,
    /// Slots; those after the fixed ones are weak: format 4.
    Weak,
    /// The slots of a context (an activation record), up to the top of its stack: format 3 with
    /// compact class index 13 or 14.
    Context,
    /// Words that are not slots: formats 5 to 7.
    Words,
    /// Bytes; the last `unused` bytes of the last word are padding: formats 8 to 11.
    Bytes { unused: u32 },
    /// A compiled method: its header word, its literals, and then bytes: formats 12 to 15.
    Method,
}

impl Layout {
    /// Returns the layout that the fields of a base header give.
    pub fn of(base: &Base) -> Layout
        ensures { result ≡ layout_of base.now }
    {
        match base.format {
            3 if base.compact == 13 || base.compact == 14 => Layout::Context,
            0..=3 => Layout::Fields,
            4 => Layout::Weak,
            5..=7 => Layout::Words,
            8..=11 => Layout::Bytes {
                unused: base.format - 8,
            },
            _ => Layout::Method,
        }
    }
}
