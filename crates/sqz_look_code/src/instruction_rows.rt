//! The row of an instruction.

use crate::blocks::{after, end_of};
use crate::operands::Operands;
use sqz_code::{Distance, Instruction, MethodParts, Operation, Returned};
use sqz_image::Sink;
use sqz_look_view::Out;
use std::alloc::{AllocError, Global};
use std::fmt::Write;

/// The maximum number of blocks by which an instruction is indented.
const MOST_INDENTED: usize = 20;

/// What is said of an operation.
#[derive(Drop)]
struct Said {
    operation: &'static str,
    operand: Option<String>,
    arguments: Option<u8>,
    /// Where it jumps, as an index among the bytecodes.
    jumps_to: Option<i64>,
}

impl Said {
    /// Returns what is said of an operation without an operand.
    fn plain(operation: &'static str) -> Self {
        Said {
            operation,
            operand: None,
            arguments: None,
            jumps_to: None,
        }
    }

    /// Returns what is said of an operation with an operand.
    fn with(operation: &'static str, operand: String) -> Self {
        let mut said = Said::plain(operation);
        said.operand = Some(operand);
        said
    }

    /// Returns what is said of a send.
    fn send(operation: &'static str, selector: String, arguments: Option<u8>) -> Self {
        let mut said = Said::with(operation, selector);
        said.arguments = arguments;
        said
    }

    /// Returns what is said of a jump.
    fn jump(operation: &'static str, jumps_to: i64) -> Self {
        let mut said = Said::plain(operation);
        said.jumps_to = Some(jumps_to);
        said
    }
}

/// Prints an instruction of a method, which is in this number of blocks: the program counter of a
/// context that is about to run it, which is its first byte, counted from 1 among all bytes of the
/// method; its bytes; what it does, and with what; and the program counter where it jumps.
pub(crate) fn print_instruction<C: Sink>(
    alloc: Global,
    parts: &MethodParts,
    operands: &Operands,
    instruction: &Instruction,
    blocks: usize,
    out: &mut Out<'_, C>,
) -> Result<(), AllocError> {
    let said = said_of(operands, instruction)?;
    let first = u64::from(parts.code_start) + 1;
    out.number("pc", first.saturating_add(instruction.start as u64));
    out.text("bytes", hexadecimal(alloc, &parts.bytecodes, instruction));
    out.word("operation", said.operation);
    out.text_or_null("operand", Ok(said.operand));
    out.number_or_null("arguments", said.arguments.map(u64::from));
    match said.jumps_to {
        Some(place) => out.integer("jumps_to", place.saturating_add(first as i64)),
        None => out.null("jumps_to"),
    }
    out.number("blocks", blocks as u64);
    out.indent("indent", blocks.min(MOST_INDENTED));
    out.line("{pc:>6}  {bytes:<9}  {indent}{operation}{operand/ }{jumps_to/ to }");
    Ok(())
}

/// Returns what is said of an instruction.
fn said_of(operands: &Operands, instruction: &Instruction) -> Result<Said, AllocError> {
    Ok(match instruction.operation {
        Operation::Push(source) => Said::with("push", operands.source(source)?),
        Operation::Store(target) => Said::with("store", operands.target(target)?),
        Operation::PopInto(target) => Said::with("pop into", operands.target(target)?),
        Operation::Return(returned) => return_said(returned),
        Operation::Send { literal, arguments } => {
            Said::send("send", operands.literal(literal)?, Some(arguments))
        }
        Operation::SendSuper { literal, arguments } => {
            Said::send("send super", operands.literal(literal)?, Some(arguments))
        }
        Operation::SendSpecial(index) => Said::send("send", operands.special(index)?, None),
        Operation::Pop => Said::plain("pop"),
        Operation::Duplicate => Said::plain("duplicate"),
        Operation::Jump(distance) => Said::jump("jump", place_of(instruction, distance)),
        Operation::JumpIf {
            condition,
            distance,
        } => {
            let operation = if condition {
                "jump if true"
            } else {
                "jump if false"
            };
            Said::jump(operation, place_of(instruction, Distance::Ahead(distance)))
        }
        Operation::Unknown => Said::plain("unknown"),
    })
}

/// Returns what is said of a return.
fn return_said(returned: Returned) -> Said {
    Said::plain(match returned {
        Returned::Receiver => "return self",
        Returned::True => "return true",
        Returned::False => "return false",
        Returned::Nil => "return nil",
        Returned::Top => "return top",
        Returned::BlockTop => "return top from block",
    })
}

/// Returns where a jump leads, as an index among the bytecodes.
fn place_of(instruction: &Instruction, distance: Distance) -> i64 {
    match distance {
        Distance::Ahead(bytes) => i64::try_from(end_of(instruction, bytes)).unwrap_or(i64::MAX),
        Distance::Back(bytes) => i64::try_from(after(instruction))
            .unwrap_or(i64::MAX)
            .saturating_sub(i64::from(bytes)),
    }
}

/// Returns the bytes of an instruction as hexadecimal digits.
fn hexadecimal(
    alloc: Global,
    bytecodes: &[u8],
    instruction: &Instruction,
) -> Result<String, AllocError> {
    let mut text = String::new(alloc);
    let bytes = bytecodes.iter().skip(instruction.start);
    for byte in bytes.take(usize::from(instruction.length)) {
        if !text.is_empty() {
            text.push(' ')?;
        }
        write!(text, "{byte:02x}")?;
    }
    Ok(text)
}
