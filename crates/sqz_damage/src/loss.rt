//! Where data words were lost.

ghost use Rattle.std.specs.Prelude.{◌≡◌, ◌+◌, ◌-◌, ◌*◌, ◌^◌, ◌<◌, ◌≤◌, ◌||◌, ℕ, false, length, slice_index_or, IfOk};
ghost use Rattle.sqz_damage.specs.Losses.{IsLoss};

use crate::fits::fits_of;
use crate::reading::best_reading;
use crate::split::place_of;
use crate::votes::vote_by_words;
use sqz_object::{Address, WordIndex, Words};
use std::alloc::{AllocError, Global};

/// Returns the index of the data word before which `lost` words were lost. `base` is the address of
/// the first data word. None if it is not clear where they were lost, as if they were the last ones.
///
/// Where chunks lie does not depend on addresses. So the data are read twice, as `gaps_of` reads
/// them, but an address is a vote for two words: the one at the address if the words were lost
/// after it, and the one at the address if they were lost before it. Slots of the first reading
/// lead to an object of the second one where it is, or only if the words were lost before it, or
/// not at all. The words were lost before the object for which slots lead to most objects, the last
/// such one. That is clear if slots then lead to at least 16 objects more than if the words were
/// lost at the end, and to more than half of the objects from there on.
///
/// Fails only if out of memory.
pub fn loss_in(
    alloc: Global,
    base: Address,
    words: &Words<'_>,
    lost: u32,
) -> Result<Option<WordIndex>, AllocError>
    requires few { length words.now + lost < 2 ^ 30 }
    requires within { base + 4 * (length words.now + lost) ≤ 2 ^ 32 }
    ensures { IfOk result (IsLoss base words.now lost) }
{
    let count = words.len() + lost as usize;
    let mut votes = vec![in alloc; false; count]?;
    vote_by_words(&mut votes, base, words);
    let either = either_votes(alloc, &votes, words.len())?;
    let first = best_reading(alloc, base, words, &either, count)?;
    let either = either_votes(alloc, &first.votes, words.len())?;
    let fits = fits_of(alloc, words, &either, &first.votes)?;
    Ok(place_of(&fits))
}

/// Returns whether each of the first `count` words has a vote, or the word after it by as many words
/// as `votes` has more.
fn either_votes(alloc: Global, votes: &[bool], count: usize) -> Result<Vec<bool>, AllocError>
    requires { count ≤ length votes.now }
    ensures sized { IfOk result (λ either. length either.items ≡ count) }
    ensures each { IfOk result (λ either. (k : ℕ) → k < count → slice_index_or either.items k false
        ≡ (slice_index_or votes.now k false
        || slice_index_or votes.now (k + (length votes.now - count)) false)) }
{
    let lost = votes.len() - count;
    let mut found = vec![in alloc; false; count]?;
    for k in 0..count {
        found[k] = has_either_vote(votes, k, lost);
    }
    Ok(found)
}

/// Returns whether word `k` has a vote, or the word that is `lost` words after it.
fn has_either_vote(votes: &[bool], k: usize, lost: usize) -> bool
    requires { k + lost < length votes.now }
    ensures { result ≡ (slice_index_or votes.now k false
        || slice_index_or votes.now (k + lost) false) }
{
    votes[k] || votes[k + lost]
}
