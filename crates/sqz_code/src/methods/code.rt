//! The code of a compiled method.

ghost use Rattle.std.specs.Prelude.{◌<◌, IfOk};
ghost use Rattle.sqz_image.specs.Objects.{object_count, chunk_words};
ghost use Rattle.sqz_code.specs.Instructions.{IsDecodingOf};
ghost use Rattle.sqz_code.specs.Parts.{ArePartsOf};

use crate::methods::parts::{MethodParts, method_parts};
use crate::{Instruction, instructions_of};
use sqz_image::Heap;
use sqz_object::ObjectIndex;
use std::alloc::{AllocError, Global};

/// The parts of a compiled method, with its bytecodes also as instructions.
#[derive(Drop)]
pub struct MethodCode {
    pub parts: MethodParts,
    /// The instructions, in order; the bytes of one are at its `start` among the bytecodes.
    pub instructions: Vec<Instruction>,
}

/// Returns the code of an object, which is read as a compiled method.
pub fn code_of(alloc: Global, heap: &Heap, object: ObjectIndex) -> Result<MethodCode, AllocError>
    requires { object < object_count heap.now }
    ensures parts { IfOk result (λ code.
        ArePartsOf heap.now.order (chunk_words heap.now object) code.parts) }
    ensures instructions { IfOk result (λ code.
        IsDecodingOf code.parts.bytecodes.items 0 code.instructions.items) }
{
    let parts = method_parts(alloc, heap, object)?;
    let instructions = instructions_of(alloc, &parts.bytecodes)?;
    Ok(MethodCode {
        parts,
        instructions,
    })
}
