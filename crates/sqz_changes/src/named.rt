//! Objects with names.

ghost use Rattle.std.specs.Prelude.{◌≡◌, IfOk};
ghost use Rattle.std.specs.BTreeMap.{get};
ghost use Rattle.sqz_changes.specs.Named.{both, known, named_pairs, only_in};

use crate::singles::single_objects;
use sqz_alike::Pair;
use sqz_object::ObjectIndex;
use std::alloc::{AllocError, Global};
use std::collections::BTreeMap;

/// An object with its name.
#[derive(Clone, Copy)]
pub struct Named<N> {
    pub name: N,
    pub object: ObjectIndex,
}

/// Returns the pairs of objects with equal names, in the order of `old`. A name makes a pair if it
/// stands once in `old` and once in `new`. Takes n log n time. Fails only if out of memory.
pub fn named_pairs<N: Ord + Copy>(
    alloc: Global,
    old: &[Named<N>],
    new: &[Named<N>],
) -> Result<Vec<Pair>, AllocError>
    ensures { IfOk result (λ pairs. pairs.items ≡ named_pairs N.cmp old.now new.now) }
{
    let olds = single_objects(alloc, old)?;
    let news = single_objects(alloc, new)?;
    let mut pairs = Vec::new(alloc);
    for named in old {
        match pair_of(&olds, &news, named.name) {
            Some(pair) => pairs.push(pair)?,
            None => {}
        }
    }
    Ok(pairs)
}

/// Returns the pair of a name, given the only objects of names in either list.
fn pair_of<N: Ord + Copy>(
    olds: &BTreeMap<N, Option<ObjectIndex>>,
    news: &BTreeMap<N, Option<ObjectIndex>>,
    name: N,
) -> Option<Pair>
    ensures { result ≡ both (known (get N.cmp olds.now name)) (known (get N.cmp news.now name)) }
{
    match (olds.get(&name), news.get(&name)) {
        (Some(Some(old)), Some(Some(new))) => Some(Pair {
            old: *old,
            new: *new,
        }),
        _ => None,
    }
}

/// Returns those of `one` whose names do not stand in `other`, in order. Takes n log n time. Fails
/// only if out of memory.
pub fn only_in<N: Ord + Copy>(
    alloc: Global,
    one: &[Named<N>],
    other: &[Named<N>],
) -> Result<Vec<Named<N>>, AllocError>
    ensures { IfOk result (λ found. found.items ≡ only_in N.cmp one.now other.now) }
{
    let others = single_objects(alloc, other)?;
    let mut found = Vec::new(alloc);
    for named in one {
        if others.get(&named.name).is_none() {
            found.push(*named)?;
        }
    }
    Ok(found)
}
