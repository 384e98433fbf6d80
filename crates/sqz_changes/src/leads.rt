//! By which steps the walk comes to the pairs.

ghost use Rattle.std.specs.Prelude.{◌≡◌, ◌+◌, ◌<◌, ◌∷◌, ◌++◌, [], ℕ, List, IfOk, IfSome};
ghost use Rattle.std.specs.Prelude.{if◌then◌else◌, length};
ghost use Rattle.sqz_image.specs.Objects.{object_count};
ghost use Rattle.sqz_changes.specs.declared.leads.Step.{Step as AStep};
ghost use Rattle.sqz_changes.specs.Compared.{compared};
ghost use Rattle.sqz_changes.specs.Differences.{common_slots};
ghost use Rattle.sqz_changes.specs.Owners.{leads, through};
ghost use Rattle.sqz_changes.specs.Leads.{AreFirst, target_pair};

use crate::anchors::anchored;
use crate::comparison::Comparison;
use sqz_alike::{Pair, seen_target};
use sqz_image::Slot;
use std::alloc::{AllocError, Global};

/// A step of the walk: from a pair through a slot of both objects.
#[derive(Clone, Copy, Debug, PartialEq, Eq)]
pub struct Step {
    /// The index of the pair in the matching.
    pub pair: u32,
    pub slot: Slot,
}

/// Returns the lead of each pair: the first step from a pair before it that leads to its objects.
/// None for an anchor.
pub(crate) fn leads_of(
    alloc: Global,
    comparison: &Comparison<'_>,
) -> Result<Vec<Option<Step>>, AllocError>
    ensures { IfOk result (λ found. found.items ≡ leads (compared comparison.now)) }
{
    let anchored = anchored(alloc, comparison)?;
    let old = comparison.old;
    let mut found = vec![in alloc; None; old.graph.heap.len() as usize]?;
    let mut leads = Vec::new(alloc);
    for index in 0..comparison.pair_count() {
        let object = comparison.pair_at(index).old as usize;
        leads.push(unless(anchored[object], found[object]))?;
        follow(&mut found, comparison, index);
    }
    Ok(leads)
}

/// Returns the first step that leads to a pair, unless the pair is an anchor.
fn unless(is_anchor: bool, found: Option<Step>) -> Option<Step>
    ensures { result ≡ (if is_anchor then None else found) }
{
    if is_anchor { None } else { found }
}

/// Notes the steps from a pair as the first ones that lead to pairs, if none did before.
fn follow(found: &mut Vec<Option<Step>>, comparison: &Comparison<'_>, index: u32)
    requires sized { length found.old.items ≡ object_count comparison.now.old.now.graph.heap.now }
    requires inside { index < length comparison.now.matching.now.pairs.items }
    ensures first { (steps : List AStep) → AreFirst (compared comparison.now) steps found.old.items
        → AreFirst (compared comparison.now)
        (steps ++ through index (common_slots (compared comparison.now) index)) found.new.items }
    ensures sized { length found.new.items ≡ length found.old.items }
{
    let count = comparison.common_fields(comparison.pair_at(index));
    let slot = Slot::ClassWord;
    note(found, comparison, Step { pair: index, slot });
    for field in 0..count {
        let slot = Slot::Field(field);
        note(found, comparison, Step { pair: index, slot });
    }
}

/// Notes a step as the first one that leads to a pair, if none did before.
fn note(found: &mut Vec<Option<Step>>, comparison: &Comparison<'_>, step: Step)
    requires sized { length found.old.items ≡ object_count comparison.now.old.now.graph.heap.now }
    requires inside { step.pair < length comparison.now.matching.now.pairs.items }
    ensures first { (steps : List AStep) → AreFirst (compared comparison.now) steps found.old.items
        → AreFirst (compared comparison.now) (steps ++ step ∷ []) found.new.items }
    ensures sized { length found.new.items ≡ length found.old.items }
{
    match target_pair(comparison, step) {
        Some(pair) => {
            let object = pair.old as usize;
            if found[object].is_none() {
                found[object] = Some(step);
            }
        }
        None => {}
    }
}

/// Returns the pair that a step leads to. None if it leads to no pair.
fn target_pair(comparison: &Comparison<'_>, step: Step) -> Option<Pair>
    requires { step.pair < length comparison.now.matching.now.pairs.items }
    ensures pair { result ≡ target_pair (compared comparison.now) step }
    ensures inside { IfSome result (λ pair.
        pair.old < object_count comparison.now.old.now.graph.heap.now) }
{
    let from = comparison.pair_at(step.pair);
    let found = seen_target(comparison.old, from.old, step.slot);
    let other = seen_target(comparison.new, from.new, step.slot);
    match (found, other) {
        (Some(old), Some(new)) => comparison
            .are_partners(old, new)
            .then_some(Pair { old, new }),
        (Some(_), None) => None,
        (None, Some(_)) => None,
        (None, None) => None,
    }
}
