//! The best reading of data words, by the votes for them.

ghost use Rattle.std.specs.Prelude.{◌≡◌, ◌+◌, ◌*◌, ◌^◌, ◌<◌, ◌≤◌, length, IfOk};
ghost use Rattle.sqz_damage.specs.Counting.{IsReadBy, IsVoted};
ghost use Rattle.sqz_damage.specs.Steps.{AreSteps};
ghost use Rattle.sqz_damage.specs.Votes.{votes_of};

use crate::gap::Gap;
use crate::step::Step;
use crate::steps::steps_of;
use crate::voted::{VotedWords, later_votes};
use crate::votes::vote_by_chunk;
use sqz_object::{Address, Words};
use std::alloc::{AllocError, Global};

/// A reading of data words.
#[derive(Drop)]
pub(crate) struct Reading {
    pub(crate) gaps: Vec<Gap>,
    /// Of each word from the first data word on, whether a slot of an object of the reading holds its
    /// address.
    pub(crate) votes: Vec<bool>,
}

/// Returns the best reading of data words, of which `base` is the address of the first one, if
/// `votes` says of each whether it has a vote. The votes of its slots are noted for `count` words.
pub(crate) fn best_reading(
    alloc: Global,
    base: Address,
    words: &Words<'_>,
    votes: &[bool],
    count: usize,
) -> Result<Reading, AllocError>
    requires few { length words.now < 2 ^ 30 }
    requires within { base + 4 * count ≤ 2 ^ 32 }
    requires sized { length votes.now ≡ length words.now }
    ensures { IfOk result (IsReadBy base count (votes_of votes.now) words.now) }
{
    let later = later_votes(alloc, votes)?;
    let voted = VotedWords {
        words,
        votes,
        later: &later,
    };
    let steps = steps_of(alloc, &voted)?;
    walk(alloc, base, &voted, &steps, count)
}

/// Returns the reading that the best steps make from the first word on.
fn walk(
    alloc: Global,
    base: Address,
    voted: &VotedWords<'_>,
    steps: &[Step],
    count: usize,
) -> Result<Reading, AllocError>
    requires voted { IsVoted voted.now }
    requires within { base + 4 * count ≤ 2 ^ 32 }
    requires steps { AreSteps (votes_of voted.now.votes.now) voted.now.words.now 0 steps.now }
    ensures { IfOk result (IsReadBy base count (votes_of voted.now.votes.now)
        voted.now.words.now) }
{
    let words = voted.words;
    let mut votes = vec![in alloc; false; count]?;
    let mut gaps = Vec::new(alloc);
    let mut p = 0;
    while p < words.len() {
        let step = steps[p];
        let end = step.end as usize;
        if step.is_gap {
            let first = p as u32;
            let words = step.end - first;
            gaps.push(Gap { first, words })?;
        } else {
            vote_by_chunk(&mut votes, base, words, p, end);
        }
        p = end;
    }
    Ok(Reading { gaps, votes })
}
