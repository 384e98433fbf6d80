//! The sizes of classes by their names.

ghost use Rattle.std.specs.Prelude.{◌≡◌, ◌<◌, ◌^◌, ℕ, IfOk, List, sum_by};
ghost use Rattle.std.specs.BTreeMap.{get_by_text};
ghost use Rattle.sqz_answers.specs.Sizes.{size_by_name};

use crate::sizes::{NOTHING, Size};
use sqz_histogram::GroupTotal;
use std::alloc::{AllocError, Global};
use std::collections::BTreeMap;

/// A total of a class histogram with the name of its class.
#[derive(Drop)]
pub struct NamedTotal {
    pub name: String,
    pub total: GroupTotal,
}

/// Returns the sizes by name: what the totals with one name add up to.
pub fn sizes_by_name(
    alloc: Global,
    totals: &[NamedTotal],
) -> Result<BTreeMap<String, Size>, AllocError>
    requires objects { sum_by (λ named. named.total.count) totals.now < 2 ^ 64 }
    requires bytes { sum_by (λ named. named.total.bytes) totals.now < 2 ^ 64 }
    ensures { IfOk result (λ sizes. (name : List ℕ)
        → get_by_text sizes name ≡ size_by_name name totals.now) }
{
    let mut sizes = BTreeMap::new(alloc);
    for named in totals {
        let before = sizes.get(named.name.as_str()).copied().unwrap_or(NOTHING);
        let size = Size {
            objects: before.objects + u64::from(named.total.count),
            bytes: before.bytes + named.total.bytes,
        };
        sizes.insert(named.name.clone()?, size)?;
    }
    Ok(sizes)
}
