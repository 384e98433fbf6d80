//! The code of a method.

ghost use Rattle.sqz_look_view.specs.Inspectors.{IsObjectOf};

use crate::blocks::block_depths;
use crate::instruction_rows::print_instruction;
use crate::operands::Operands;
use sqz_code::{MethodCode, code_of};
use sqz_image::Sink;
use sqz_look_view::{Inspector, Out, PrintError, add_method_header};
use sqz_object::ObjectIndex;
use std::alloc::{AllocError, Global};

/// Prints the code of a method: what its header says, its literals, and its instructions with the
/// program counter of each. An object that is no method is read as one.
pub fn print_method_code<C: Sink>(
    inspector: &Inspector<'_>,
    method: ObjectIndex,
    out: &mut Out<'_, C>,
) -> Result<(), PrintError>
    requires { IsObjectOf inspector.now method }
{
    let alloc = inspector.alloc;
    let code = code_of(alloc, inspector.live.graph.heap, method)?;
    let operands = Operands::of(inspector, method)?;
    out.hex("address", inspector.address(method).0);
    out.label("label", inspector, method);
    out.amount("bytes", inspector.bytes(method));
    out.part("{label} {address}, {bytes#byte}");
    add_method_header("header", code.parts.header, "", out);
    out.texts("literals", &operands.literals);
    print_literals(&operands, out);
    print_instructions(alloc, &code, &operands, out)?;
    out.end_row();
    out.end()
}

/// Prints the literals of a method, in the text form.
fn print_literals<C: Sink>(operands: &Operands, out: &mut Out<'_, C>) {
    if out.is_json() {
        return;
    }
    for (index, literal) in operands.literals.iter().enumerate() {
        out.count("number", index + 1);
        out.word("literal", literal.as_str());
        out.part("literal {number:<4} {literal}");
    }
}

/// Prints the instructions of a method.
fn print_instructions<C: Sink>(
    alloc: Global,
    code: &MethodCode,
    operands: &Operands,
    out: &mut Out<'_, C>,
) -> Result<(), AllocError> {
    let depths = block_depths(alloc, &code.instructions)?;
    out.begin_list("instructions");
    for (instruction, depth) in code.instructions.iter().zip(&depths) {
        print_instruction(alloc, &code.parts, operands, instruction, *depth, out)?;
    }
    out.end_list();
    Ok(())
}
