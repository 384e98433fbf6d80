//! The best reading of the data words from each word on, found in one pass from the end.

ghost use Rattle.std.specs.Prelude.{◌≡◌, ◌+◌, ◌*◌, ◌^◌, ◌<◌, ◌≤◌, false, suc, length, take, drop};
ghost use Rattle.std.specs.Prelude.{IfOk};
ghost use Rattle.sqz_object.specs.Reading.{BeginsWith};
ghost use Rattle.sqz_damage.specs.Readings.{kept_votes, part_cost};
ghost use Rattle.sqz_damage.specs.Readings.{Chunk as Read};
ghost use Rattle.sqz_damage.specs.Steps.{AreSteps, IsStep, IsWayOn, cost_at};
ghost use Rattle.sqz_damage.specs.Counting.{IsVoted};
ghost use Rattle.sqz_damage.specs.Votes.{votes_of, sum_from};

use crate::step::{Step, WayOn};
use crate::voted::VotedWords;
use sqz_object::{Chunk, Kind, chunk_in};
use std::alloc::{AllocError, Global};

/// What a contradicted vote costs. A skipped word costs 1.
const VOTE: u64 = 1 << 30;

/// What a gap costs besides the words that it skips.
const GAP: u64 = 4 * VOTE;

/// Returns for each data word the first step of the best reading from there on, and one step more
/// for the end, of cost 0.
pub(crate) fn steps_of(alloc: Global, voted: &VotedWords<'_>) -> Result<Vec<Step>, AllocError>
    requires { IsVoted voted.now }
    ensures { IfOk result (λ steps. AreSteps (votes_of voted.now.votes.now)
        voted.now.words.now 0 steps.items) }
{
    let count = voted.words.len();
    let end = count as u32;
    let none = Step {
        cost: 0,
        end,
        is_gap: false,
    };
    let mut steps = vec![in alloc; none; count + 1]?;
    let mut way = WayOn { cost: 0, end };
    let mut p = count;
    while p > 0 {
        p -= 1;
        let skipped = skip(voted, p, way);
        let step = best_step(voted, &steps, p, skipped);
        steps[p] = step;
        way = end_or_skip(p, step, skipped);
    }
    Ok(steps)
}

/// Returns the best way on from word `p` within a gap that skips it. `way` is the best one from the
/// next word.
fn skip(voted: &VotedWords<'_>, p: usize, way: WayOn) -> WayOn
    requires voted { IsVoted voted.now }
    requires inside { p < length voted.now.words.now }
    requires cheap { way.cost < 2 ^ 62 }
    ensures cost { result.cost
        ≡ votes_of voted.now.votes.now p * 2 ^ 30 + 1 + way.cost }
    ensures end { result.end ≡ way.end }
{
    WayOn {
        cost: voted.at(p) as u64 * VOTE + 1 + way.cost,
        end: way.end,
    }
}

/// Returns the best way on from word `p` within a gap: the gap ends before it if this costs no
/// more than to skip it. `step` is the best step from `p`, and `skipped` the best way that skips
/// it.
fn end_or_skip(p: usize, step: Step, skipped: WayOn) -> WayOn
    requires { p < 2 ^ 32 }
    ensures ends { step.cost ≤ skipped.cost → result ≡ record { cost = step.cost; end = p } }
    ensures skips { skipped.cost < step.cost → result ≡ skipped }
{
    if step.cost <= skipped.cost {
        WayOn {
            cost: step.cost,
            end: p as u32,
        }
    } else {
        skipped
    }
}

/// Returns the first step of the best reading from word `p` on. `steps` has those of later words,
/// and `skipped` is the best way on within a gap that skips word `p`.
fn best_step(voted: &VotedWords<'_>, steps: &[Step], p: usize, skipped: WayOn) -> Step
    requires voted { IsVoted voted.now }
    requires inside { p < length voted.now.words.now }
    requires steps { AreSteps (votes_of voted.now.votes.now)
        voted.now.words.now (suc p) steps.now }
    requires way { IsWayOn (votes_of voted.now.votes.now) voted.now.words.now
        (cost_at steps.now) p (suc p) skipped }
    ensures { IsStep (votes_of voted.now.votes.now) voted.now.words.now
        (cost_at steps.now) p result }
{
    let gap = Step {
        cost: GAP + skipped.cost,
        end: skipped.end,
        is_gap: true,
    };
    match chunk_in(voted.words, p) {
        Ok(chunk) => {
            let read = read_chunk(voted, steps, p, chunk);
            if read.cost <= gap.cost { read } else { gap }
        }
        Err(_) => gap,
    }
}

/// Returns the step that reads the chunk at word `p`. `steps` has the best steps of later words.
fn read_chunk(voted: &VotedWords<'_>, steps: &[Step], p: usize, chunk: Chunk) -> Step
    requires voted { IsVoted voted.now }
    requires begins { BeginsWith (drop p voted.now.words.now) chunk }
    requires steps { AreSteps (votes_of voted.now.votes.now)
        voted.now.words.now (suc p) steps.now }
    ensures cost { let words = voted.now.words.now in result.cost
        ≡ part_cost (votes_of voted.now.votes.now) p (Read (take chunk.length (drop p words)))
        + cost_at steps.now (p + chunk.length) }
    ensures end { result.end ≡ p + chunk.length }
    ensures read { result.is_gap ≡ false }
{
    let end = p + chunk.length as usize;
    let contradicted = voted.between(p, end) - kept_votes(voted, p, chunk);
    Step {
        cost: contradicted as u64 * VOTE + steps[end].cost,
        end: end as u32,
        is_gap: false,
    }
}

/// Returns the number of votes that the chunk at word `p` does not contradict.
fn kept_votes(voted: &VotedWords<'_>, p: usize, chunk: Chunk) -> u32
    requires voted { IsVoted voted.now }
    requires begins { BeginsWith (drop p voted.now.words.now) chunk }
    ensures kept { let words = voted.now.words.now in result
        ≡ kept_votes (votes_of voted.now.votes.now) p (take chunk.length (drop p words)) }
    ensures some { result
        ≤ sum_from (votes_of voted.now.votes.now) p chunk.length }
{
    match chunk.kind {
        Kind::Free => 0,
        _ => voted.at(p + chunk.before as usize),
    }
}
