//! The partners of the objects of two images, and what the objects retain.

ghost use Rattle.std.specs.Prelude.{IfOk};
ghost use Rattle.sqz_alike.specs.Walk.{IsWalk};
ghost use Rattle.sqz_look_diff.specs.Matched.{AreMatched, ArePartners, AreSharesOfNew};

use crate::kinds::Kinds;
use crate::texts::{Age, Texts};
use sqz_alike::{Matching, Pair, Sides, mark_new, partners_of};
use sqz_dominators::{Dominators, SharedDominators, dominators_of, dominators_with};
use sqz_look_view::Inspector;
use std::alloc::AllocError;

/// The partners of the objects of two images, and what the objects retain.
#[derive(Drop)]
pub(crate) struct Matched {
    pub(crate) partners: Matching,
    /// What the objects of the old image retain.
    pub(crate) old: Dominators,
    /// What the objects of the new image retain, and how much of it are objects without partners.
    pub(crate) new: SharedDominators,
}

impl Matched {
    /// Returns the partners of the objects of two images, found from those with equal names, and
    /// what the objects retain.
    pub(crate) fn between(
        old: &Inspector<'_>,
        new: &Inspector<'_>,
        texts: &mut Texts,
        named: &[Pair],
    ) -> Result<Self, AllocError>
        ensures matched { IfOk result (AreMatched old.now.live new.now.live) }
        ensures walk { IfOk result (λ found. IsWalk old.now.live new.now.live found.partners) }
    {
        let partners = partners_between(old, new, texts, named)?;
        let new = shares_of_new(new, &partners.pairs)?;
        let old = dominators_of(old.alloc, old.live.graph)?;
        Ok(Matched { partners, old, new })
    }
}

/// Returns the partners of the objects of two images, found from those with equal names.
fn partners_between(
    old: &Inspector<'_>,
    new: &Inspector<'_>,
    texts: &mut Texts,
    named: &[Pair],
) -> Result<Matching, AllocError>
    ensures partners { IfOk result (λ found.
        ArePartners old.now.live new.now.live found.pairs.items) }
    ensures walk { IfOk result (IsWalk old.now.live new.now.live) }
{
    let mut kinds = Kinds::new(old.alloc);
    let old_kinds = kinds.of(old, texts, Age::Old)?;
    let new_kinds = kinds.of(new, texts, Age::New)?;
    let sides = Sides {
        old: &old.live,
        new: &new.live,
        old_kinds: &old_kinds,
        new_kinds: &new_kinds,
    };
    partners_of(old.alloc, &sides, named)
}

/// Returns the dominators of the new image, and what they retain of its objects without partners.
fn shares_of_new(new: &Inspector<'_>, pairs: &[Pair]) -> Result<SharedDominators, AllocError>
    ensures { IfOk result (AreSharesOfNew new.now.live pairs.now) }
{
    let marks = mark_new(new.alloc, &new.live, pairs)?;
    dominators_with(new.alloc, new.live.graph, &marks)
}
