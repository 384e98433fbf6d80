//! The variables that retain more or less.

ghost use Rattle.std.specs.Prelude.{IfSome};
ghost use Rattle.sqz_look_view.specs.Inspectors.{IsObjectOf};

use crate::keys::variable_key;
use crate::matched::Matched;
use crate::texts::{Age, Texts};
use sqz_answers::{Change, changes_of, sort_by_difference};
use sqz_dominators::Dominators;
use sqz_look_view::Inspector;
use sqz_names::{Known, Label};
use sqz_object::ObjectIndex;
use std::alloc::{AllocError, Global};
use std::collections::{BTreeMap, BTreeSet};

/// What the variables of an image hold, by their keys.
#[derive(Drop)]
struct Holdings {
    /// The bytes that the associations retain.
    bytes: BTreeMap<String, u64>,
    /// Those of these bytes that the shares count.
    shares: BTreeMap<String, u64>,
    /// The variables whose values are not all nil.
    set: BTreeSet<String>,
}

/// The variables that were added or removed, or retain more or less, by their keys.
#[derive(Drop)]
pub(crate) struct VariableChanges {
    /// Largest change first.
    pub(crate) changes: Vec<Change<u64>>,
    /// The variables whose values are not nil in the old image, and in the new one.
    old_set: BTreeSet<String>,
    new_set: BTreeSet<String>,
    /// The bytes of new objects that the variables of the new image retain.
    new_bytes: BTreeMap<String, u64>,
}

impl VariableChanges {
    /// Returns the variables that were added or removed, or retain more or less.
    pub(crate) fn between(
        old: &Inspector<'_>,
        new: &Inspector<'_>,
        texts: &mut Texts,
        matched: &Matched,
    ) -> Result<Self, AllocError> {
        let (dominators, shares) = (&matched.new.dominators, matched.new.shares.as_slice());
        let one = Holdings::of(old, texts, Age::Old, &matched.old, &[])?;
        let other = Holdings::of(new, texts, Age::New, dominators, shares)?;
        let mut changes = changes_of(old.alloc, &one.bytes, &other.bytes)?;
        sort_by_difference(&mut changes)?;
        Ok(VariableChanges {
            changes,
            old_set: one.set,
            new_set: other.set,
            new_bytes: other.shares,
        })
    }

    /// Returns whether the value of a variable was nil.
    pub(crate) fn was_nil(&self, key: &str) -> bool {
        !self.old_set.contains(key)
    }

    /// Returns whether the value of a variable is nil now.
    pub(crate) fn is_nil(&self, key: &str) -> bool {
        !self.new_set.contains(key)
    }

    /// Returns how many of the bytes that a variable retains now are those of new objects. None if
    /// the new image has no such variable.
    pub(crate) fn new_bytes(&self, key: &str) -> Option<u64> {
        self.new_bytes.get(key).copied()
    }
}

impl Holdings {
    /// Returns what nothing holds.
    fn none(alloc: Global) -> Self {
        Holdings {
            bytes: BTreeMap::new(alloc),
            shares: BTreeMap::new(alloc),
            set: BTreeSet::new(alloc),
        }
    }

    /// Returns what the variables of an image hold. Variables with one name are added up. `shares`
    /// has bytes by object, if they are to be added up, too.
    fn of(
        inspector: &Inspector<'_>,
        texts: &mut Texts,
        age: Age,
        dominators: &Dominators,
        shares: &[u64],
    ) -> Result<Self, AllocError> {
        let mut held = Holdings::none(inspector.alloc);
        let mut last = None;
        for name in inspector.names.variables() {
            let association = name.association;
            if last == Some(association) || !inspector.live.marks.has(association) {
                continue;
            }
            last = Some(association);
            if let Some(variable) = inspector.names.variable(association)?
                && let Some(key) = variable_key(inspector, texts, age, *name)?
            {
                if !is_nil(inspector, variable.value)? {
                    held.set.insert(key.clone()?)?;
                }
                let share = shares.get(association as usize).copied();
                held.add_bytes(key, dominators.retained(association).bytes, share)?;
            }
        }
        Ok(held)
    }

    /// Adds the bytes that the association of a variable retains, and its share.
    fn add_bytes(&mut self, key: String, bytes: u64, share: Option<u64>) -> Result<(), AllocError> {
        if let Some(share) = share {
            let total = self.shares.entry(key.clone()?)?.or_insert(0);
            *total = total.saturating_add(share);
        }
        let total = self.bytes.entry(key)?.or_insert(0);
        *total = total.saturating_add(bytes);
        Ok(())
    }
}

/// Returns whether the value of a variable is nil.
fn is_nil(inspector: &Inspector<'_>, value: Option<ObjectIndex>) -> Result<bool, AllocError>
    requires { IfSome value (λ value. IsObjectOf inspector.now value) }
{
    match value {
        Some(value) => Ok(inspector.names.label_of(value)? == Label::Known(Known::Nil)),
        None => Ok(false),
    }
}
