//! The policy on weak slots.

ghost use Rattle.std.specs.Prelude.{◌≡◌};
ghost use Rattle.sqz_trace.specs.WeakSlots.{weak_of};

/// What happens to the weak slots of an object of format 4: its fields that are not fixed.
#[derive(Clone, Copy, Debug, PartialEq, Eq)]
pub enum Weak {
    /// They are like other slots: they keep their targets alive.
    Keep,
    /// They keep nothing alive: a weak slot whose target no path of strong slots reaches is
    /// changed to point to nil.
    Clear,
}

impl Weak {
    /// Weak slots are cleared if `clear`, and kept otherwise.
    pub fn clear_if(clear: bool) -> Weak
        ensures { result ≡ weak_of clear }
    {
        if clear { Weak::Clear } else { Weak::Keep }
    }
}
