//! The blocks of a method.

use crate::special_selectors::BLOCK_COPY;
use sqz_code::{Distance, Instruction, Operation};
use std::alloc::{AllocError, Global};

/// Returns for each instruction of a method in how many blocks it is. The code of a block stands
/// after the jump that follows `blockCopy:`, and ends where this jump leads.
pub(crate) fn block_depths(
    alloc: Global,
    instructions: &[Instruction],
) -> Result<Vec<usize>, AllocError> {
    let mut depths = Vec::with_capacity(alloc, instructions.len())?;
    // where the blocks that are open end, the innermost last
    let mut ends: Vec<usize> = Vec::new(alloc);
    let mut makes_block = false;
    for instruction in instructions {
        close_blocks(&mut ends, instruction.start);
        depths.push(ends.len())?;
        if makes_block && let Operation::Jump(Distance::Ahead(distance)) = instruction.operation {
            ends.push(end_of(instruction, distance))?;
        }
        makes_block = instruction.operation == Operation::SendSpecial(BLOCK_COPY);
    }
    Ok(depths)
}

/// Closes the innermost blocks that end at a place or before it.
fn close_blocks(ends: &mut Vec<usize>, place: usize) {
    for _ in 0..ends.len() {
        match ends.last() {
            Some(end) if *end <= place => {
                ends.pop();
            }
            _ => return,
        }
    }
}

/// Returns where a jump ahead leads, as an index among the bytecodes.
pub(crate) fn end_of(instruction: &Instruction, distance: u16) -> usize {
    after(instruction).saturating_add(usize::from(distance))
}

/// Returns the index of the byte after an instruction.
pub(crate) fn after(instruction: &Instruction) -> usize {
    instruction
        .start
        .saturating_add(usize::from(instruction.length))
}
