//! The groups that have marked objects, in order.

ghost use Rattle.std.specs.Prelude.{◌≡◌, length, IfOk};
ghost use Rattle.sqz_histogram.specs.Tallies.{FitWords};
ghost use Rattle.sqz_histogram.specs.Shares.{AreShares, AreSharesInOrder, total_at};

use crate::group::{Group, GroupTotal};
use crate::tallies::Tally;
use std::alloc::{AllocError, Global};
use std::cmp::Reverse;

/// The marked objects of the group with a key: their number, and their total length in words.
#[derive(Clone, Copy)]
pub(crate) struct Share {
    pub(crate) key: u32,
    pub(crate) count: u32,
    pub(crate) words: u32,
}

impl Share {
    /// Returns the total of the group. `objects` is the number of objects.
    pub(crate) fn total(&self, objects: u32) -> GroupTotal
        ensures { result ≡ total_at objects self.now }
    {
        let group = if self.key < objects {
            Group::Class(self.key)
        } else {
            Group::Compact(self.key - objects)
        };
        GroupTotal {
            group,
            count: self.count,
            bytes: 4 * u64::from(self.words),
        }
    }
}

/// Returns the shares of the groups that have marked objects: those with more words come first, and
/// on a tie those with lower keys.
pub(crate) fn shares_of(alloc: Global, tallies: &[Tally]) -> Result<Vec<Share>, AllocError>
    requires { FitWords tallies.now }
    ensures { IfOk result (λ shares. AreSharesInOrder tallies.now shares.items) }
{
    let mut shares = shares_by_key(alloc, tallies)?;
    shares.sort_unstable_by_key(
        |share: &Share| -> (Reverse<u32>, u32)
            ensures { result ≡ (record { 0 = share.now.words }, share.now.key) }
        { (Reverse(share.words), share.key) },
    );
    Ok(shares)
}

/// Returns the shares of the groups that have marked objects, by key.
fn shares_by_key(alloc: Global, tallies: &[Tally]) -> Result<Vec<Share>, AllocError>
    requires { FitWords tallies.now }
    ensures { IfOk result (λ shares. AreShares tallies.now (length tallies.now) shares.items) }
{
    let mut shares = Vec::new(alloc);
    for (key, tally) in tallies.iter().enumerate() {
        if tally.count > 0 {
            shares.push(Share {
                key: key as u32,
                count: tally.count,
                words: tally.words,
            })?;
        }
    }
    Ok(shares)
}
