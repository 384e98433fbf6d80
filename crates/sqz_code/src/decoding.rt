//! The instructions of bytecodes.

ghost use Rattle.std.specs.Prelude.{◌≡◌, ◌<◌, ◌≤◌, ◌+◌, IfOk, length, drop};
ghost use Rattle.std.specs.List.{flat_map};
ghost use Rattle.sqz_code.specs.Instructions.{IsDecodingOf, first_instruction, bytes_in};

use crate::instruction::Instruction;
use crate::operation::Operation;
use crate::table::{length_of, one_byte, three_bytes, two_bytes};
use std::alloc::{AllocError, Global};

/// Returns the instructions of some bytecodes, in order: what the bytecode set of the Blue Book, as
/// Squeak extends it, says of each. A code that it does not define is an unknown instruction of one
/// byte. Codes 129 and 130 are unknown instructions of two bytes if the second byte says to store
/// into a literal. If the last instruction is cut short, it is unknown, and has the bytes that are
/// left.
pub fn instructions_of(alloc: Global, bytecodes: &[u8]) -> Result<Vec<Instruction>, AllocError>
    ensures instructions { IfOk result (λ found. IsDecodingOf bytecodes.now 0 found.items) }
    // the instructions' bytes, joined, are the bytecodes
    ensures joined { IfOk result (λ found.
        flat_map (bytes_in bytecodes.now) found.items ≡ bytecodes.now) }
{
    let mut instructions = Vec::new(alloc);
    let mut start = 0;
    while start < bytecodes.len() {
        let instruction = instruction_at(bytecodes, start);
        instructions.push(instruction)?;
        start += instruction.length as usize;
    }
    Ok(instructions)
}

/// Returns the instruction whose first byte has this index.
fn instruction_at(bytecodes: &[u8], start: usize) -> Instruction
    requires { start < length bytecodes.now }
    ensures instruction { result ≡ first_instruction (drop start bytecodes.now) start }
    ensures some { 0 < result.length }
    ensures inside { start + result.length ≤ length bytecodes.now }
{
    let code = bytecodes[start];
    let length = length_of(code);
    let left = bytecodes.len() - start;
    if left < length as usize {
        return Instruction {
            start,
            length: left as u8,
            operation: Operation::Unknown,
        };
    }
    let operation = match length {
        1 => one_byte(code),
        2 => two_bytes(code, bytecodes[start + 1]),
        _ => three_bytes(bytecodes[start + 1], bytecodes[start + 2]),
    };
    Instruction {
        start,
        length,
        operation,
    }
}
