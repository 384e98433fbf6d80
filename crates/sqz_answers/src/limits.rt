//! Which part of a dominator tree has rows.

ghost use Rattle.std.specs.Prelude.{◌≤◌};
ghost use Rattle.sqz_answers.specs.Limits.{most_depth};

use sqz_object::ObjectIndex;

/// The part of a dominator tree that has rows.
#[derive(Clone, Copy, Debug, PartialEq, Eq)]
pub struct TopLimits {
    /// The object of the first row.
    pub root: ObjectIndex,
    /// The depth of the deepest rows, at most `MOST_DEPTH`.
    pub depth: u32,
    /// The least number of bytes that a row for one object retains.
    pub bytes: u64,
    ghost shallow: { depth ≤ most_depth },
}

/// The maximum depth of a row.
pub const MOST_DEPTH: u32 = 100;
