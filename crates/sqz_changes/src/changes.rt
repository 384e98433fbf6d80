//! What changed between two images.

ghost use Rattle.std.specs.Prelude.{◌≡◌, IfOk, length};
ghost use Rattle.sqz_changes.specs.Changes.{quiet_changes, shown_changes};
ghost use Rattle.sqz_changes.specs.Compared.{compared};
ghost use Rattle.sqz_changes.specs.Inside.{AreInside};
ghost use Rattle.sqz_changes.specs.Owners.{leads};

use crate::change::Changes;
use crate::comparison::Comparison;
use crate::leads::leads_of;
use crate::owners::owners_of;
use crate::tallies::Tallies;
use std::alloc::{AllocError, Global};

/// Returns what differs between partners: for each owner of a difference that is not quiet one
/// change, and likewise for quiet differences; in the order of their first differences. Owners and
/// first differences are of pairs of the matching. Takes time and memory linear in both images.
/// Fails only if out of memory.
pub fn changes_between(alloc: Global, comparison: &Comparison<'_>) -> Result<Changes, AllocError>
    ensures shown { IfOk result (λ found.
        found.shown.items ≡ shown_changes (compared comparison.now)) }
    ensures quiet { IfOk result (λ found.
        found.quiet.items ≡ quiet_changes (compared comparison.now)) }
    ensures leads { IfOk result (λ found.
        found.leads.items ≡ leads (compared comparison.now)) }
    ensures inside { IfOk result (AreInside (length comparison.now.matching.now.pairs.items)) }
{
    let count = comparison.pair_count();
    let leads = leads_of(alloc, comparison)?;
    let owners = owners_of(alloc, &leads)?;
    let mut tallies = Tallies::new(alloc, count)?;
    for pair in 0..count {
        tallies.add_pair(alloc, comparison, pair, owners[pair as usize])?;
    }
    let Tallies { shown, quiet } = tallies;
    Ok(Changes {
        leads,
        shown: shown.changes,
        quiet: quiet.changes,
    })
}
