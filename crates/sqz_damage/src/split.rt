//! The object before which words were lost.

ghost use Rattle.std.specs.Prelude.{◌≡◌, ◌+◌, ◌^◌, ◌<◌, ◌≤◌, if◌then◌else◌, length};
ghost use Rattle.sqz_damage.specs.Counting.{IsBestSplitAt, IsSplit};
ghost use Rattle.sqz_damage.specs.Losses.{IsLossBefore};

use crate::fit::Fit;
use sqz_object::WordIndex;

/// How many more objects must fit if words were lost before some than if they were not.
const MORE: u32 = 16;

/// A place among objects.
#[derive(Clone, Copy)]
pub(crate) struct Split {
    /// The index of the first object after it.
    pub(crate) at: usize,
    /// How many of the objects after it fit where they are.
    pub(crate) stays: u32,
    /// How many of them fit if words were lost before them.
    pub(crate) moves: u32,
}

/// Returns the word before which words were lost, by the objects of a reading. None if that is not
/// clear.
pub(crate) fn place_of(fits: &[Fit]) -> Option<WordIndex>
    requires { length fits.now < 2 ^ 30 }
    ensures { IsLossBefore fits.now result }
{
    let split = best_split(fits);
    let after = fits.len() - split.at;
    if split.stays + MORE <= split.moves && after < 2 * split.moves as usize {
        Some(fits[split.at].first)
    } else {
        None
    }
}

/// Returns the place before which words were lost if most objects are to fit, the last such one.
fn best_split(fits: &[Fit]) -> Split
    requires { length fits.now < 2 ^ 30 }
    ensures { IsBestSplitAt fits.now result }
{
    let at = fits.len();
    let mut split = Split {
        at,
        stays: 0,
        moves: 0,
    };
    let mut best = split;
    while split.at > 0 {
        split = before(fits, split);
        if best.moves + split.stays < split.moves + best.stays {
            best = split;
        }
    }
    best
}

/// Returns the place one object before another one.
fn before(fits: &[Fit], split: Split) -> Split
    requires few { length fits.now < 2 ^ 30 }
    requires some { 0 < split.at }
    requires split { IsSplit fits.now split }
    ensures split { IsSplit fits.now result }
    ensures at { result.at + 1 ≡ split.at }
{
    let at = split.at - 1;
    let fit = fits[at];
    Split {
        at,
        stays: split.stays + one_if(fit.stays),
        moves: split.moves + one_if(fit.moves),
    }
}

/// Returns 1 if something is true, and 0 if not.
fn one_if(is_true: bool) -> u32
    ensures one { result ≡ if is_true then 1 else 0 }
    ensures few { result ≤ 1 }
{
    if is_true { 1 } else { 0 }
}
