//! The objects that alone have their names.

ghost use Rattle.std.specs.Prelude.{◌≡◌, IfOk};
ghost use Rattle.std.specs.BTreeMap.{get};
ghost use Rattle.sqz_changes.specs.Named.{objects_of, single};

use crate::named::Named;
use sqz_object::ObjectIndex;
use std::alloc::{AllocError, Global};
use std::collections::BTreeMap;

/// Returns the object of each name that stands in a list. None for a name that stands there more
/// than once.
pub(crate) fn single_objects<N: Ord + Copy>(
    alloc: Global,
    listed: &[Named<N>],
) -> Result<BTreeMap<N, Option<ObjectIndex>>, AllocError>
    ensures { IfOk result (λ singles. (name : N) →
        get N.cmp singles name ≡ single (objects_of N.cmp name listed.now)) }
{
    let mut singles = BTreeMap::new(alloc);
    for named in listed {
        let single = match singles.get(&named.name) {
            None => Some(named.object),
            Some(_) => None,
        };
        singles.insert(named.name, single)?;
    }
    Ok(singles)
}
