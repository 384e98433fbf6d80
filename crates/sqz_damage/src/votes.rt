//! The votes for data words: a word has a vote if some voter is its address.

ghost use Rattle.std.specs.Prelude.{◌≡◌, ◌≢◌, ◌+◌, ◌*◌, ◌-◌, ◌^◌, ◌<◌, ◌≤◌, ℕ, [], ◌∷◌, length, take, drop};
ghost use Rattle.std.specs.Prelude.{MatchOption};
ghost use Rattle.sqz_object.specs.Chunk.{IsChunk};
ghost use Rattle.sqz_damage.specs.Readings.{slot_words, voters_of};
ghost use Rattle.sqz_damage.specs.Readings.{Chunk as Read};
ghost use Rattle.sqz_damage.specs.Votes.{Casts};

use sqz_image::Object;
use sqz_object::{Address, Kind, Words, known_chunk};
use sqz_trace::{class_address, traced_fields};

/// Notes the votes of the slots of the chunk from word `p` up to `end`, if it is an object. `votes`
/// says of each data word whether it has a vote, and `base` is the address of the first one.
pub(crate) fn vote_by_chunk(
    votes: &mut [bool],
    base: Address,
    words: &Words<'_>,
    p: usize,
    end: usize,
)
    requires within { base + 4 * length votes.old ≤ 2 ^ 32 }
    requires few { length words.now < 2 ^ 30 }
    requires ordered { p < end }
    requires inside { end ≤ length words.now }
    requires chunk { IsChunk (take (end - p) (drop p words.now)) }
    ensures { Casts base (voters_of (Read (take (end - p) (drop p words.now)))) votes.old
        votes.new }
{
    let chunk = known_chunk(words, p);
    match chunk.kind {
        Kind::Free => {}
        _ => vote_by_slots(votes, base, &Object::new(chunk, words.part(p, end))),
    }
}

/// Notes the votes of the slots of an object.
fn vote_by_slots(votes: &mut [bool], base: Address, object: &Object<'_>)
    requires { base + 4 * length votes.old ≤ 2 ^ 32 }
    ensures { Casts base (slot_words object.now) votes.old votes.new }
{
    if let Some(address) = class_address(object) {
        vote(votes, base, address);
    }
    let (traced, _) = object.fields().split_at(traced_fields(object) as usize);
    vote_by_words(votes, base, &traced);
}

/// Notes the vote of each word.
pub(crate) fn vote_by_words(votes: &mut [bool], base: Address, words: &Words<'_>)
    requires { base + 4 * length votes.old ≤ 2 ^ 32 }
    ensures { Casts base words.now votes.old votes.new }
{
    for k in 0..words.len() {
        vote(votes, base, words.at(k));
    }
}

/// Notes the vote for the data word with this address, if there is one.
fn vote(votes: &mut [bool], base: Address, address: Address)
    requires { base + 4 * length votes.old ≤ 2 ^ 32 }
    ensures { Casts base (address ∷ []) votes.old votes.new }
{
    if let Some(k) = index_at(base, votes.len(), address) {
        votes[k] = true;
    }
}

/// Returns the index of the data word with this address, if there is one. `base` is the address of
/// the first one, and `count` their number.
fn index_at(base: Address, count: usize, address: Address) -> Option<usize>
    requires within { base + 4 * count ≤ 2 ^ 32 }
    ensures { MatchOption result ((k : ℕ) → k < count → address ≢ base + 4 * k)
        (λ k. (k < count) × (address ≡ base + 4 * k)) }
{
    if address < base || (address - base) % 4 != 0 {
        return None;
    }
    let k = ((address - base) / 4) as usize;
    if k < count { Some(k) } else { None }
}
