//! The objects without names that retain more.

ghost use Rattle.std.specs.Prelude.{ℕ, ◌≡◌, IfOk, OnOk, IfSome, All, ◌<◌};
ghost use Rattle.std.specs.List.Sorted.{IsPermutation, IsSortedBy, IsStableBy};
ghost use Rattle.sqz_image.specs.Objects.{object_count};
ghost use Rattle.sqz_alike.specs.Holders.{AreHolders, grows_more, growth_of};
ghost use Rattle.sqz_alike.specs.Holders.{holder_at, is_outermost};

use crate::growth::Growth;
use crate::holder::Holder;
use sqz_object::ObjectIndex;
use std::alloc::{AllocError, Global};
use std::cmp::Reverse;

/// Returns the live objects of the new image that have no name and retain more than their partners
/// in the old image, or are new: those that grew most first, and on a tie those with lower indexes.
/// Of new objects, those are left out whose immediate dominator is a new object without a name.
/// Takes time linear in the objects but for the sorting. Fails only if out of memory.
pub fn find_holders(alloc: Global, growth: &Growth<'_>) -> Result<Vec<Holder>, AllocError>
    ensures holders { IfOk result (λ holders. AreHolders growth.now holders.items) }
    ensures inside { IfOk result (λ holders. All (λ holder.
        holder.object < object_count growth.now.live.now.graph.heap.now) holders.items) }
{
    let live = growth.live;
    let mut found = Vec::new(alloc);
    for object in 0..live.graph.heap.len() {
        if let Some(holder) = growth.holder(object) {
            found.push(holder)?;
        }
    }
    sort_by_growth(&mut found)?;
    Ok(found)
}

/// Sorts holders by how much they grew, most first. On a tie they keep their order.
fn sort_by_growth(holders: &mut Vec<Holder>) -> Result<(), AllocError>
    ensures permutation { IsPermutation holders.old.items holders.new.items }
    ensures sorted { OnOk result (IsSortedBy grows_more holders.new.items) }
    ensures stable { IsStableBy grows_more holders.old.items holders.new.items }
    ensures inside { (count : ℕ) → All (λ holder. holder.object < count) holders.old.items
        → All (λ holder. holder.object < count) holders.new.items }
{
    holders.sort_by_key(
        |holder: &Holder| -> Reverse<u64>
            ensures { result ≡ record { 0 = growth_of holder.now } }
        { Reverse(growth_of(holder)) },
    )?;
    Ok(())
}

/// Returns by how many bytes what a holder retains grew.
fn growth_of(holder: &Holder) -> u64
    ensures { result ≡ growth_of holder.now }
{
    match holder.old {
        Some(old) => holder.new.saturating_sub(old),
        None => holder.new,
    }
}

impl Growth<'_> {
    /// Returns the holder that an object is.
    fn holder(&self, object: ObjectIndex) -> Option<Holder>
        ensures holder { result ≡ holder_at self.now object }
        ensures object { IfSome result (λ holder. holder.object ≡ object) }
    {
        let live = self.live;
        if !live.marks.has(object) || self.named.has(object) {
            return None;
        }
        let new = self.new.retained(object).bytes;
        match self.partners.old_of(object) {
            Some(partner) => {
                let old = self.old.retained(partner).bytes;
                (old < new).then_some(Holder {
                    object,
                    old: Some(old),
                    new,
                })
            }
            None => self.is_outermost(object).then_some(Holder {
                object,
                old: None,
                new,
            }),
        }
    }

    /// Returns whether the immediate dominator of an object has a name or a partner, or there is
    /// none.
    fn is_outermost(&self, object: ObjectIndex) -> bool
        ensures { result ≡ is_outermost self.now object }
    {
        match self.new.immediate(object) {
            Some(above) => self.named.has(above) || self.partners.old_of(above).is_some(),
            None => true,
        }
    }
}
