//! The index of a number in an ascending list: a table with one bit per number, and ranks.

ghost use Rattle.std.specs.Prelude.{◌≡◌, ℕ, ◌^◌, ◌<◌, List, [], ◌∷◌, ◌++◌, length, IfOk};
ghost use Rattle.sqz_image.specs.Ranks.{IsPlaceOf, IsAbove, IsFilled, IsRanked, IsTable};

use std::alloc::AllocError;

/// The number of bits of a block.
const BLOCK_SIZE: u32 = 32;

/// A block: 32 adjacent numbers.
#[derive(Clone, Copy)]
pub(crate) struct Block {
    /// Bit `k` is set if number `k` of the block is a member of the table.
    members: u32,
    /// The number of members below the block.
    below: u32,
}

/// Adds a number to a table of `count` smaller numbers. The table has a block for each 32 numbers,
/// from 0 up to the greatest one.
pub(crate) fn add(blocks: &mut Vec<Block>, count: u32, number: u32) -> Result<(), AllocError>
    ensures { IfOk result (λ _. (numbers : List ℕ) → IsFilled numbers blocks.old.items
        → length numbers ≡ count → IsAbove numbers number
        → IsFilled (numbers ++ number ∷ []) blocks.new.items) }
{
    let block = (number / BLOCK_SIZE) as usize;
    if blocks.len() <= block {
        let empty = Block {
            members: 0,
            below: count,
        };
        blocks.resize(block + 1, empty)?;
    }
    blocks[block].members |= 1 << (number % BLOCK_SIZE);
    Ok(())
}

/// Returns the index of a number among the members of the table, if it is one. Takes constant
/// time.
pub(crate) fn place_of(blocks: &[Block], number: u32) -> Option<u32>
    requires { IsTable blocks.now }
    ensures { (numbers : List ℕ) → IsRanked numbers blocks.now → IsPlaceOf numbers number result }
{
    let block = *blocks.get((number / BLOCK_SIZE) as usize)?;
    let bit = 1 << (number % BLOCK_SIZE);
    if block.members & bit == 0 {
        return None;
    }
    Some(block.below + (block.members & (bit - 1)).count_ones())
}
