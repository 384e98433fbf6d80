//! What differs between two maps from names.

ghost use Rattle.std.specs.Prelude.{◌≡◌, ◌||◌, ℕ, false, IfOk, IfSome, List, MatchOption, OnOk, is_some, string_bytes};
ghost use Rattle.std.specs.BTreeMap.{get_by_text};
ghost use Rattle.std.specs.BTreeSet.{contains_text};
ghost use Rattle.sqz_answers.specs.Changes.{AreChanges, IsChange, differ};

use std::alloc::{AllocError, Global};
use std::collections::{BTreeMap, BTreeSet};

/// What has a name in the old map, in the new one, or in both.
#[derive(Drop)]
pub struct Change<V> {
    pub name: String,
    /// None if only the new map has the name.
    pub old: Option<V>,
    /// None if only the old map has the name.
    pub new: Option<V>,
}

/// Returns the names whose values differ, or that one map alone has, with their values, in order of
/// the bytes of the names.
pub fn changes_of<V: Copy + PartialEq>(
    alloc: Global,
    old: &BTreeMap<String, V>,
    new: &BTreeMap<String, V>,
) -> Result<Vec<Change<V>>, AllocError>
    ensures { IfOk result (λ changes. AreChanges V.eq old.now new.now changes.items) }
{
    let mut names = BTreeSet::new(alloc);
    add_names(&mut names, old)?;
    add_names(&mut names, new)?;
    let mut changes = Vec::new(alloc);
    for name in names.iter() {
        if let Some(change) = change_of(alloc, name.as_str(), old, new)? {
            changes.push(change)?;
        }
    }
    Ok(changes)
}

/// Adds the names of a map to others.
fn add_names<V>(names: &mut BTreeSet<String>, map: &BTreeMap<String, V>) -> Result<(), AllocError>
    ensures { OnOk result ((name : List ℕ) → contains_text names.new name
        ≡ (contains_text names.old name || is_some (get_by_text map.now name))) }
{
    for name in map.keys() {
        names.insert(name.clone()?)?;
    }
    Ok(())
}

/// Returns what two maps hold by a name, if it differs.
fn change_of<V: Copy + PartialEq>(
    alloc: Global,
    name: &str,
    old: &BTreeMap<String, V>,
    new: &BTreeMap<String, V>,
) -> Result<Option<Change<V>>, AllocError>
    ensures named { IfOk result (λ change. MatchOption change
        (differ V.eq (get_by_text old.now name.now) (get_by_text new.now name.now) ≡ false)
        (λ change. string_bytes change.name ≡ name.now)) }
    ensures is { IfOk result (λ change. IfSome change (IsChange V.eq old.now new.now)) }
{
    let one = old.get(name).copied();
    let other = new.get(name).copied();
    if !differ(one, other) {
        return Ok(None);
    }
    Ok(Some(Change {
        name: String::from_str(alloc, name)?,
        old: one,
        new: other,
    }))
}

/// Returns whether one of two values is missing, or they are not the same.
fn differ<V: Copy + PartialEq>(one: Option<V>, other: Option<V>) -> bool
    ensures { result ≡ differ V.eq one other }
{
    match (one, other) {
        (None, None) => false,
        (Some(one), Some(other)) => !(one == other),
        _ => true,
    }
}
