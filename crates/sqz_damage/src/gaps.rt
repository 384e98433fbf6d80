//! The gaps of damaged data words.

ghost use Rattle.std.specs.Prelude.{◌+◌, ◌*◌, ◌^◌, ◌<◌, ◌≤◌, length, IfOk};
ghost use Rattle.sqz_damage.specs.Readings.{AreBestGaps};

use crate::gap::Gap;
use crate::reading::best_reading;
use crate::votes::vote_by_words;
use sqz_object::{Address, Words};
use std::alloc::{AllocError, Global};

/// Returns the gaps of the third of three readings of the data words, in ascending order. A reading
/// is a sequence of chunks and gaps. `base` is the address of the first word.
///
/// Each reading is the best one by the votes for the data words: a word has a vote if some voter is
/// its address. In the first reading each word is a voter, whatever it means. In the second and the
/// third, the voters are the words that the slots of the objects of the reading before hold. The
/// best reading contradicts the fewest votes, those for words at which no base header of an object
/// stands. A gap counts as 4 contradicted votes. Among the readings that contradict equally many,
/// the best ones skip the fewest words. If several are best, a chunk comes before a gap, and a gap
/// is short.
///
/// Fails only if out of memory.
pub fn gaps_of(alloc: Global, base: Address, words: &Words<'_>) -> Result<Vec<Gap>, AllocError>
    requires few { length words.now < 2 ^ 30 }
    requires within { base + 4 * length words.now ≤ 2 ^ 32 }
    ensures { IfOk result (λ gaps. AreBestGaps base words.now gaps.items) }
{
    let mut votes = vec![in alloc; false; words.len()]?;
    vote_by_words(&mut votes, base, words);
    let first = best_reading(alloc, base, words, &votes, words.len())?;
    let second = best_reading(alloc, base, words, &first.votes, words.len())?;
    let third = best_reading(alloc, base, words, &second.votes, words.len())?;
    Ok(third.gaps)
}
