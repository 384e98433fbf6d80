//! The objects of a reading of data words, and whether slots lead to them.

ghost use Rattle.std.specs.Prelude.{◌≡◌, ◌+◌, ◌-◌, ◌^◌, ◌<◌, ◌≤◌, ℕ, List, false, length, take, drop, slice_index_or, IfOk};
ghost use Rattle.std.specs.Option.{option_to_list};
ghost use Rattle.sqz_object.specs.Chunk.{IsChunk};
ghost use Rattle.sqz_damage.specs.Counting.{AreFits, IsVoted};
ghost use Rattle.sqz_damage.specs.Losses.{fits_at};
ghost use Rattle.sqz_damage.specs.Readings.{Chunk as Read};
ghost use Rattle.sqz_damage.specs.Steps.{AreSteps};
ghost use Rattle.sqz_damage.specs.Votes.{votes_of};

use crate::fit::Fit;
use crate::step::Step;
use crate::steps::steps_of;
use crate::voted::{VotedWords, later_votes};
use sqz_object::{Kind, Words, known_chunk};
use std::alloc::{AllocError, Global};

/// Returns the objects of the best reading of data words, if `votes` says of each whether it has a
/// vote. `slots` says of each word whether a slot leads to it, and has as many words more as were
/// lost.
pub(crate) fn fits_of(
    alloc: Global,
    words: &Words<'_>,
    votes: &[bool],
    slots: &[bool],
) -> Result<Vec<Fit>, AllocError>
    requires few { length words.now < 2 ^ 30 }
    requires sized { length votes.now ≡ length words.now }
    requires more { length words.now ≤ length slots.now }
    ensures { IfOk result (λ fits. AreFits (votes_of votes.now) slots.now words.now fits.items) }
{
    let later = later_votes(alloc, votes)?;
    let voted = VotedWords {
        words,
        votes,
        later: &later,
    };
    let steps = steps_of(alloc, &voted)?;
    walk(alloc, &voted, slots, &steps)
}

/// Returns the objects of the reading that the best steps make from the first word on.
fn walk(
    alloc: Global,
    voted: &VotedWords<'_>,
    slots: &[bool],
    steps: &[Step],
) -> Result<Vec<Fit>, AllocError>
    requires voted { IsVoted voted.now }
    requires more { length voted.now.words.now ≤ length slots.now }
    requires steps { AreSteps (votes_of voted.now.votes.now) voted.now.words.now 0 steps.now }
    ensures { IfOk result (λ fits. AreFits (votes_of voted.now.votes.now) slots.now
        voted.now.words.now fits.items) }
{
    let words = voted.words;
    let mut fits = Vec::new(alloc);
    let mut p = 0;
    while p < words.len() {
        let step = steps[p];
        let end = step.end as usize;
        if !step.is_gap {
            if let Some(fit) = fit_of(words, slots, p, end) {
                fits.push(fit)?;
            }
        }
        p = end;
    }
    Ok(fits)
}

/// Returns whether slots lead to the chunk from word `p` up to `end`. None if it is free.
fn fit_of(words: &Words<'_>, slots: &[bool], p: usize, end: usize) -> Option<Fit>
    requires few { length words.now < 2 ^ 30 }
    requires more { length words.now ≤ length slots.now }
    requires ordered { p < end }
    requires inside { end ≤ length words.now }
    requires chunk { IsChunk (take (end - p) (drop p words.now)) }
    ensures { option_to_list result ≡ fits_at (λ k. slice_index_or slots.now k false)
        (length slots.now - length words.now) p (Read (take (end - p) (drop p words.now))) }
{
    let lost = slots.len() - words.len();
    let chunk = known_chunk(words, p);
    match chunk.kind {
        Kind::Free => None,
        _ => {
            let base = p + chunk.before as usize;
            Some(Fit {
                first: p as u32,
                stays: slots[base],
                moves: slots[base + lost],
            })
        }
    }
}
