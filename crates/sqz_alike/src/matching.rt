//! The pairs of objects that must correspond, as far as they were found.

ghost use Rattle.std.specs.Prelude.{◌≡◌, ◌<◌, length, [], IfOk, OnOk};
ghost use Rattle.sqz_alike.specs.Matching.{IsMatching, Joins, partner_in, with_pair};

use sqz_object::ObjectIndex;
use std::alloc::{AllocError, Global};

/// An object of the old image, and one of the new image.
#[derive(Clone, Copy)]
pub struct Pair {
    pub old: ObjectIndex,
    pub new: ObjectIndex,
}

/// Pairs of objects: no object is in two of them.
#[derive(Drop)]
pub struct Matching {
    /// The pairs, in the order in which they were found.
    pub pairs: Vec<Pair>,
    /// The partner of each object of the old image.
    pub(crate) new_of: Vec<Option<ObjectIndex>>,
    /// The partner of each object of the new image.
    pub(crate) old_of: Vec<Option<ObjectIndex>>,
}

impl Matching {
    /// Returns an empty matching for images with these numbers of objects.
    pub(crate) fn new(alloc: Global, old: u32, new: u32) -> Result<Self, AllocError>
        ensures none { IfOk result (λ matching. matching.pairs.items ≡ []) }
        ensures matching { IfOk result (λ matching. IsMatching matching.pairs.items
            matching.new_of.items matching.old_of.items) }
        ensures old { IfOk result (λ matching. length matching.new_of.items ≡ old) }
        ensures new { IfOk result (λ matching. length matching.old_of.items ≡ new) }
    {
        let pairs = Vec::new(alloc);
        let new_of = vec![in alloc; None; old as usize]?;
        let old_of = vec![in alloc; None; new as usize]?;
        Ok(Matching {
            pairs,
            new_of,
            old_of,
        })
    }

    /// Pairs two objects if neither has a partner. Returns whether they are a pair then.
    pub(crate) fn join(&mut self, pair: Pair) -> Result<bool, AllocError>
        requires matching { IsMatching self.old.pairs.items self.old.new_of.items
            self.old.old_of.items }
        requires old { pair.old < length self.old.new_of.items }
        requires new { pair.new < length self.old.old_of.items }
        ensures joins { IfOk result (Joins pair self.old.pairs.items self.new.pairs.items) }
        ensures pairs { OnOk result (self.new.pairs.items ≡ with_pair self.old.pairs.items pair) }
        ensures matching { OnOk result (IsMatching self.new.pairs.items self.new.new_of.items
            self.new.old_of.items) }
        ensures old { OnOk result (length self.new.new_of.items ≡ length self.old.new_of.items) }
        ensures new { OnOk result (length self.new.old_of.items ≡ length self.old.old_of.items) }
    {
        let (old, new) = (pair.old as usize, pair.new as usize);
        match (self.new_of[old], self.old_of[new]) {
            (None, None) => {
                self.pairs.push(pair)?;
                self.new_of[old] = Some(pair.new);
                self.old_of[new] = Some(pair.old);
                Ok(true)
            }
            (Some(partner), _) => Ok(partner == pair.new),
            (None, Some(_)) => Ok(false),
        }
    }

    /// Returns the partner of an object of the old image. None if it has none.
    pub fn new_of(&self, old: ObjectIndex) -> Option<ObjectIndex>
        ensures { result ≡ partner_in self.now.new_of.items old }
    {
        self.new_of.get(old as usize).copied().flatten()
    }

    /// Returns the partner of an object of the new image. None if it has none.
    pub fn old_of(&self, new: ObjectIndex) -> Option<ObjectIndex>
        ensures { result ≡ partner_in self.now.old_of.items new }
    {
        self.old_of.get(new as usize).copied().flatten()
    }
}
