//! What changed between two images.

ghost use Rattle.std.specs.Prelude.{◌<◌, All, IfOk};
ghost use Rattle.sqz_image.specs.Objects.{object_count};
ghost use Rattle.sqz_alike.specs.Walk.{IsWalk};

use crate::alone::Alone;
use crate::categories::{CategoryChange, category_changes};
use crate::classes::class_changes;
use crate::definitions::definition_count;
use crate::holders::holders_in;
use crate::matched::Matched;
use crate::methods::method_count;
use crate::named_objects::NamedObjects;
use crate::owners::Owners;
use crate::quiet::quiet_in;
use crate::texts::{Age, Texts};
use crate::variables::VariableChanges;
use sqz_alike::{Holder, Matching, Pair};
use sqz_answers::{Change, Size};
use sqz_changes::{Changes, Comparison, changes_between, named_pairs};
use sqz_look_view::Inspector;
use std::alloc::AllocError;
use std::collections::BTreeMap;
use std::thread::Threads;

/// What changed between two images.
#[derive(Drop)]
pub(crate) struct Found {
    pub(crate) partners: Matching,
    /// What differs between partners.
    pub(crate) changes: Changes,
    /// The owners of these differences.
    pub(crate) owners: Owners,
    /// The classes and methods whose names the old image alone has.
    pub(crate) removed: Alone,
    /// The classes and methods whose names the new image alone has.
    pub(crate) added: Alone,
    /// The number of methods of the new image.
    pub(crate) methods: usize,
    /// The classes with other categories, by their keys.
    pub(crate) categories: BTreeMap<String, CategoryChange>,
    pub(crate) classes: Vec<Change<Size>>,
    pub(crate) variables: VariableChanges,
    /// The objects of the new image that have no name and retain more, or are new.
    pub(crate) holders: Vec<Holder>,
}

impl Found {
    /// Returns what changed between two images.
    pub(crate) fn between(
        rt: &(impl Threads + Sync),
        old: &Inspector<'_>,
        new: &Inspector<'_>,
    ) -> Result<Self, AllocError>
        ensures { IfOk result (λ found. All (λ holder.
            holder.object < object_count new.now.live.graph.heap.now) found.holders.items) }
    {
        let alloc = old.alloc;
        let mut texts = Texts::new(alloc);
        let named = NamedObjects::of(old, &mut texts, Age::Old)?;
        let others = NamedObjects::of(new, &mut texts, Age::New)?;
        let pairs = named_pairs(alloc, &named.all, &others.all)?;
        let matched = Matched::between(old, new, &mut texts, &pairs)?;
        let changes = changes_of_partners(old, new, &matched, &pairs)?;
        Ok(Found {
            owners: Owners::of(old, new, &matched.partners, &changes)?,
            removed: Alone::of(alloc, &named, &others)?,
            added: Alone::of(alloc, &others, &named)?,
            methods: others.methods.len(),
            categories: category_changes(old, new, &mut texts, &pairs)?,
            classes: class_changes(rt, old, new, &mut texts)?,
            variables: VariableChanges::between(old, new, &mut texts, &matched)?,
            holders: holders_in(new, &matched)?,
            partners: matched.partners,
            changes,
        })
    }

    /// Returns whether there is no row about what changed.
    pub(crate) fn is_empty(&self) -> bool {
        self.classes.is_empty()
            && self.variables.changes.is_empty()
            && self.owners.values.is_empty()
            && definition_count(self) == 0
            && method_count(self) == 0
            && self.holders.is_empty()
    }
}

/// Returns what differs between partners.
fn changes_of_partners(
    old: &Inspector<'_>,
    new: &Inspector<'_>,
    matched: &Matched,
    named: &[Pair],
) -> Result<Changes, AllocError>
    requires { IsWalk old.now.live new.now.live matched.now.partners }
{
    let old_quiet = quiet_in(old)?;
    let new_quiet = quiet_in(new)?;
    let comparison = Comparison {
        old: &old.live,
        new: &new.live,
        matching: &matched.partners,
        named,
        old_quiet: &old_quiet,
        new_quiet: &new_quiet,
    };
    changes_between(old.alloc, &comparison)
}
