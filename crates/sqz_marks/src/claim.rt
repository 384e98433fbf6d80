//! The outcome of a claim.

use sqz_object::ObjectIndex;

/// The outcome of a claim.
#[derive(Clone, Copy, Debug, PartialEq, Eq)]
pub enum Claim {
    /// The object was white. It is grey now, and no other pass wins it.
    Won(ObjectIndex),
    /// The object was marked before.
    Seen(ObjectIndex),
    /// The slot is weak, or points to no object.
    Nothing,
}
