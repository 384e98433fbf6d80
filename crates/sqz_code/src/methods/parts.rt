//! The parts of a compiled method.

ghost use Rattle.std.specs.Prelude.{◌≡◌, ◌+◌, ◌<◌, IfOk};
ghost use Rattle.sqz_object.specs.Bytes.{spelling_of};
ghost use Rattle.sqz_image.specs.Objects.{object_count, chunk_words};
ghost use Rattle.sqz_code.specs.Parts.{ArePartsOf, literals_in, literal_count};
ghost use Rattle.sqz_code.specs.Parts.{code_bytes, bytecodes_in};

use crate::MethodHeader;
use crate::methods::trailer::code_end;
use sqz_image::{Heap, Object};
use sqz_object::{ObjectIndex, Order, Words, base_of, put_word};
use sqz_trace::traced_fields;
use std::alloc::{AllocError, Global};

/// The parts of a compiled method.
#[derive(Drop)]
pub struct MethodParts {
    /// What field 0 says. None if it is not a SmallInteger, or if there is no field.
    pub header: Option<MethodHeader>,
    /// The number of literals, which are fields 1 to `literals`: as many as the header says, but no
    /// more than there are fields. 0 if there is no header.
    pub literals: u32,
    /// The number of bytes of the header and the literals. The program counter of a context counts
    /// the bytes of its method from 1, these included: at bytecode k it is `code_start + k + 1`.
    pub code_start: u32,
    /// The bytes after the literals without the padding in the last word, and without the trailer,
    /// which says where the source is or what temporary variables are called.
    pub bytecodes: Vec<u8>,
}

/// Returns the parts of an object, which is read as a compiled method.
pub fn method_parts(
    alloc: Global,
    heap: &Heap,
    object: ObjectIndex,
) -> Result<MethodParts, AllocError>
    requires { object < object_count heap.now }
    ensures { IfOk result (λ parts.
        ArePartsOf heap.now.order (chunk_words heap.now object) parts) }
{
    let object = heap.object(object);
    let literals = traced_fields(&object).saturating_sub(1);
    let bytecodes = bytecodes_in(alloc, heap.order(), &object, literals)?;
    Ok(MethodParts {
        header: object.fields().get(0).and_then(MethodHeader::of),
        literals,
        code_start: 4 * (literals + 1),
        bytecodes,
    })
}

/// Returns the words of the literals of an object, which is read as a compiled method.
pub fn method_literals(heap: &Heap, object: ObjectIndex) -> Words<'_>
    requires { object < object_count heap.now }
    ensures { result ≡ literals_in (chunk_words heap.now object) }
{
    let object = heap.object(object);
    let (traced, _) = object.fields().split_at(traced_fields(&object) as usize);
    let (_, literals) = traced.split_at(1usize.min(traced.len()));
    literals
}

/// Returns the bytecodes of a method with this number of literals.
fn bytecodes_in(
    alloc: Global,
    order: Order,
    method: &Object<'_>,
    literals: u32,
) -> Result<Vec<u8>, AllocError>
    requires { literals ≡ literal_count method.now }
    ensures { IfOk result (λ bytes. bytes.items ≡ bytecodes_in order method.now) }
{
    let mut bytes = code_bytes(alloc, order, method, literals)?;
    bytes.truncate(code_end(&bytes));
    Ok(bytes)
}

/// Returns the bytes after the literals of a method with this number of them, without padding.
fn code_bytes(
    alloc: Global,
    order: Order,
    method: &Object<'_>,
    literals: u32,
) -> Result<Vec<u8>, AllocError>
    requires { literals ≡ literal_count method.now }
    ensures { IfOk result (λ bytes. bytes.items ≡ code_bytes order method.now) }
{
    let fields = method.fields();
    let (_, code) = fields.split_at((literals as usize + 1).min(fields.len()));
    let mut bytes = spelling_of(alloc, order, &code)?;
    let padding = base_of(method.header().base).padding() as usize;
    bytes.truncate(bytes.len().saturating_sub(padding));
    Ok(bytes)
}

/// Returns the bytes that encode the words.
fn spelling_of(alloc: Global, order: Order, words: &Words<'_>) -> Result<Vec<u8>, AllocError>
    ensures { IfOk result (λ bytes. bytes.items ≡ spelling_of order words.now) }
{
    let mut bytes = Vec::new(alloc);
    for word in words.iter() {
        bytes.extend_from_slice(&put_word(order, word))?;
    }
    Ok(bytes)
}
