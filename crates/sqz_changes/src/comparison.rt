//! What is compared.

ghost use Rattle.sqz_alike.specs.Walk.{IsWalk};

use sqz_alike::{Matching, Pair};
use sqz_trace::{Live, Marks};

/// Two images with the partners of their objects, as they are compared.
#[derive(Drop)]
pub struct Comparison<'a> {
    pub old: &'a Live<'a>,
    pub new: &'a Live<'a>,
    /// The partners.
    pub matching: &'a Matching,
    /// Pairs with equal names. Those of them that are partners own differences.
    pub named: &'a [Pair],
    /// The objects of the old image whose differences are quiet.
    pub old_quiet: &'a Marks,
    /// The objects of the new image whose differences are quiet.
    pub new_quiet: &'a Marks,
    ghost walk: { ∥ IsWalk old.now new.now matching.now ∥₁ },
}
