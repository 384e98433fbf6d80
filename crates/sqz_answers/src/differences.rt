//! The order of changes by how much they differ.

ghost use Rattle.std.specs.Prelude.{◌≡◌, OnOk};
ghost use Rattle.std.specs.List.Sorted.{IsPermutation, IsSortedBy, IsStableBy};
ghost use Rattle.sqz_answers.specs.Differences.{bytes_or_none, difference, differs_more};

use crate::changes::Change;
use crate::sizes::InBytes;
use std::alloc::AllocError;
use std::cmp::Reverse;

/// Sorts changes by how many bytes their values differ: those that differ most first. On a tie
/// they keep their order. If out of memory, none has moved.
pub fn sort_by_difference<V: Copy + InBytes>(changes: &mut Vec<Change<V>>) -> Result<(), AllocError>
    ensures permutation { IsPermutation changes.old.items changes.new.items }
    ensures sorted { OnOk result (IsSortedBy (differs_more V.bytes_of) changes.new.items) }
    ensures stable { IsStableBy (differs_more V.bytes_of) changes.old.items changes.new.items }
{
    changes.sort_by_key(
        |change: &Change<V>| -> Reverse<u64>
            ensures { result ≡ record { 0 = difference V.bytes_of change.now } }
        { Reverse(difference_of(change)) },
    )?;
    Ok(())
}

/// Returns by how many bytes the values of a change differ.
fn difference_of<V: Copy + InBytes>(change: &Change<V>) -> u64
    ensures { result ≡ difference V.bytes_of change.now }
{
    bytes_or_none(change.old).abs_diff(bytes_or_none(change.new))
}

/// Returns the number of bytes of a value. A value that is missing has none.
pub fn bytes_or_none<V: Copy + InBytes>(value: Option<V>) -> u64
    ensures { result ≡ bytes_or_none V.bytes_of value }
{
    match value {
        Some(value) => value.bytes(),
        None => 0,
    }
}
