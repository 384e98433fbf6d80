//! Parts of worked methods, in an image whose first data word has the address 0x1000.

use super::images::image_with;
use sqz_code::{Instruction, MethodCode, Operation, Source, code_of, method_literals};
use sqz_image::{Fault, Heap};
use std::alloc::{AllocError, Global};
use std::process::Abort;
use std::test::Fail;

/// The base header of an object of one word, format 2 and compact class index 1.
const ONE_WORD: u32 = 0x1200 + 4 + 3;

/// The base header of a compiled method of no words, with compact class index 1. A word adds 4, and
/// a byte of padding 0x100.
const METHOD: u32 = 0x1C00 + 3;

const PADDING: u32 = 0x100;

/// The header of a method without literals, and of one with two.
const NO_LITERALS: u32 = 1;

const TWO_LITERALS: u32 = 2 * 1024 + 1;

/// The data words of an image with a method that has this base header, without its size, and these
/// fields, at most 19.
fn words_of(alloc: Global, base: u32, fields: &[u32]) -> Result<Vec<u32>, AllocError> {
    let size = 4 * fields.len().min(19) as u32 + 4;
    let mut words = Vec::new(alloc);
    words.extend_from_slice(&[ONE_WORD, base.wrapping_add(size)])?;
    words.extend_from_slice(fields)?;
    Ok(words)
}

/// The code of object 1, and the number of its literals. None unless there are two objects.
fn code_in(alloc: Global, heap: &Heap) -> Result<Option<(MethodCode, usize)>, AllocError> {
    if heap.len() != 2 {
        return Ok(None);
    }
    let code = code_of(alloc, heap, 1)?;
    Ok(Some((code, method_literals(heap, 1).len())))
}

/// The code of such a method, and the number of its literals.
fn code_and_literals(
    alloc: Global,
    base: u32,
    fields: &[u32],
) -> Result<Option<(MethodCode, usize)>, Fault> {
    let image = image_with(alloc, &words_of(alloc, base, fields)?)?;
    Ok(code_in(alloc, image.heap())?)
}

/// The code of such a method. Asserts that its parts state its literals, and where its bytecodes
/// begin.
fn code<R: Abort + AllocGlobal>(rt: &R, base: u32, fields: &[u32]) -> Result<MethodCode, Fail> {
    let found = code_and_literals(rt.alloc(), base, fields)?;
    let (code, literals) = found.expect(rt, "two objects");
    assert_eq!(rt;
        (code.parts.literals as usize, code.parts.code_start as usize),
        (literals, literals.saturating_add(1).saturating_mul(4))
    );
    Ok(code)
}

#[test]
fn literals(rt: HostRuntime) -> Result<(), Fail> {
    let code = code(&rt, METHOD, &[TWO_LITERALS, 5, 7, 0x7021_7C01])?;
    let push = |start: usize, source: Source| Instruction {
        start,
        length: 1,
        operation: Operation::Push(source),
    };
    let want = [push(0, Source::Receiver), push(1, Source::Literal(1))];
    assert!(rt; code.parts.header.is_some_and(|header| header.literals == 2));
    assert_eq!(rt;
        (code.parts.literals, code.parts.bytecodes.as_slice()),
        (2, [0x70, 0x21].as_slice())
    );
    assert_eq!(rt; code.instructions.as_slice(), want.as_slice());
    Ok(())
}

/// The base header of a method without its size, its fields, the first of which is its header, the
/// number of its literals and its bytecodes.
type Case = (u32, &'static [u32], u32, &'static [u8]);

/// Methods with a trailer.
const TRAILERS: &[Case] = &[
    // the last four bytes are a source pointer
    (
        METHOD,
        &[NO_LITERALS, 0x7020_7C78, 0x0102_03FC],
        0,
        &[0x70, 0x20, 0x7C, 0x78],
    ),
    // names of temporary variables in two bytes
    (
        METHOD,
        &[NO_LITERALS, 0x7020_7C78, 0x8709_0902],
        0,
        &[0x70, 0x20, 0x7C, 0x78, 0x87],
    ),
    // more than there are
    (METHOD, &[NO_LITERALS, 0x7020_7C09], 0, &[]),
    // one to four zeros
    (METHOD, &[NO_LITERALS, 0x7020_7C00], 0, &[0x70, 0x20, 0x7C]),
    (METHOD, &[NO_LITERALS, 0x7020_0000], 0, &[0x70, 0x20]),
    (
        METHOD,
        &[NO_LITERALS, 0x7020_7C78, 0],
        0,
        &[0x70, 0x20, 0x7C, 0x78],
    ),
    // four zeros, and no bytecodes
    (METHOD, &[NO_LITERALS, 0], 0, &[]),
    // with five zeros the last one stands alone
    (
        METHOD,
        &[NO_LITERALS, 0x7020_7C00, 0],
        0,
        &[0x70, 0x20, 0x7C, 0, 0, 0, 0],
    ),
];

/// Methods whose last word has bytes of padding.
const PADDED: &[Case] = &[
    (
        METHOD + 3 * PADDING,
        &[NO_LITERALS, 0x7020_7C78, 0x0099_9999],
        0,
        &[0x70, 0x20, 0x7C, 0x78],
    ),
    (METHOD + PADDING, &[NO_LITERALS, 0x7002_0199], 0, &[0x70]),
];

/// Methods without a header: one without fields, and one whose header is not a SmallInteger.
const WITHOUT_HEADER: &[Case] = &[
    (METHOD, &[], 0, &[]),
    (METHOD, &[TWO_LITERALS - 1, 0x7878_7801], 0, &[0x78, 0x78]),
];

/// A method with fewer literals than its header says.
const TOO_FEW: &[Case] = &[(METHOD, &[TWO_LITERALS, 5], 1, &[])];

/// Tables of methods, and whether these have a header.
const TABLES: [(&[Case], bool); 4] = [
    (TRAILERS, true),
    (PADDED, true),
    (WITHOUT_HEADER, false),
    (TOO_FEW, true),
];

#[test]
fn parts_of_methods(rt: HostRuntime) -> Result<(), Fail> {
    for (cases, has_header) in &TABLES {
        for (base, fields, literals, bytecodes) in *cases {
            let parts = code(&rt, *base, fields)?.parts;
            assert_eq!(rt; parts.bytecodes.as_slice(), *bytecodes);
            assert_eq!(rt;
                (parts.literals, parts.header.is_some()),
                (*literals, *has_header)
            );
        }
    }
    Ok(())
}
