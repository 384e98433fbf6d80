//! Data words with the votes for them.

ghost use Rattle.std.specs.Prelude.{◌≡◌, ◌-◌, ◌^◌, ◌<◌, ◌≤◌, length, IfOk};
ghost use Rattle.sqz_damage.specs.Counting.{AreLaterVotes, IsVoted};
ghost use Rattle.sqz_damage.specs.Votes.{sum_from, votes_of};

use sqz_object::Words;
use std::alloc::{AllocError, Global};

/// Data words, and the votes for them.
#[derive(Clone, Copy)]
pub(crate) struct VotedWords<'a> {
    pub(crate) words: &'a Words<'a>,
    /// Of each word, whether it has a vote.
    pub(crate) votes: &'a [bool],
    /// For the index of each word, and for the end, the number of votes for the words from there
    /// on.
    pub(crate) later: &'a [u32],
}

impl VotedWords<'_> {
    /// Returns the number of votes for the words from `first` up to `end`.
    pub(crate) fn between(&self, first: usize, end: usize) -> u32
        requires voted { IsVoted self.now }
        requires ordered { first ≤ end }
        requires inside { end ≤ length self.now.words.now }
        ensures votes { result ≡ sum_from (votes_of self.now.votes.now) first (end - first) }
        ensures few { result < 2 ^ 30 }
    {
        self.later[first] - self.later[end]
    }

    /// Returns the number of votes for word `k`: 1 or 0.
    pub(crate) fn at(&self, k: usize) -> u32
        requires voted { IsVoted self.now }
        requires inside { k < length self.now.words.now }
        ensures votes { result ≡ votes_of self.now.votes.now k }
        ensures few { result ≤ 1 }
    {
        if self.votes[k] { 1 } else { 0 }
    }
}

/// Returns for the index of each data word, and for the end, the number of votes for the words
/// from there on.
pub(crate) fn later_votes(alloc: Global, votes: &[bool]) -> Result<Vec<u32>, AllocError>
    requires { length votes.now < 2 ^ 30 }
    ensures { IfOk result (λ later. AreLaterVotes (votes_of votes.now) (length votes.now)
        later.items) }
{
    let count = votes.len();
    let mut later = vec![in alloc; 0u32; count + 1]?;
    let mut k = count;
    while k > 0 {
        k -= 1;
        later[k] = if votes[k] {
            later[k + 1] + 1
        } else {
            later[k + 1]
        };
    }
    Ok(later)
}
