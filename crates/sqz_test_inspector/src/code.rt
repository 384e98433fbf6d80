//! Instructions of worked bytecodes.

use sqz_code::{Distance, Instruction, Operation, Returned, Source, Target, instructions_of};
use std::alloc::{AllocError, Global};
use std::process::Abort;
use std::test::Fail;

/// Bytecodes, and what their only instruction does.
type Single = (&'static [u8], Operation);

/// Returns what the only instruction of bytecodes does. None unless there is one of all bytes.
fn single(alloc: Global, bytecodes: &[u8]) -> Result<Option<Operation>, AllocError> {
    let found = instructions_of(alloc, bytecodes)?;
    match found.as_slice() {
        [only] if only.start == 0 && only.length as usize == bytecodes.len() => {
            Ok(Some(only.operation))
        }
        _ => Ok(None),
    }
}

/// Asserts what the only instruction of bytecodes does, in each case.
fn assert_single<R: Abort + AllocGlobal>(rt: &R, cases: &[Single]) -> Result<(), Fail> {
    for (bytecodes, want) in cases {
        let found = single(rt.alloc(), bytecodes)?;
        assert_eq!(rt; found, Some(*want), "{bytecodes:?}");
    }
    Ok(())
}

/// Pushes.
const PUSHES: &[Single] = &[
    (&[0], Operation::Push(Source::InstanceVariable(0))),
    (&[15], Operation::Push(Source::InstanceVariable(15))),
    (&[31], Operation::Push(Source::Temporary(15))),
    (&[32], Operation::Push(Source::Literal(0))),
    (&[63], Operation::Push(Source::Literal(31))),
    (&[95], Operation::Push(Source::Variable(31))),
    (&[113], Operation::Push(Source::True)),
    (&[114], Operation::Push(Source::False)),
    (&[115], Operation::Push(Source::Nil)),
    (&[116], Operation::Push(Source::MinusOne)),
    (&[119], Operation::Push(Source::Two)),
    (&[137], Operation::Push(Source::ThisContext)),
];

/// Instructions that take something off the stack, or copy what is on top of it.
const STACK: &[Single] = &[
    (&[103], Operation::PopInto(Target::InstanceVariable(7))),
    (&[104], Operation::PopInto(Target::Temporary(0))),
    (&[121], Operation::Return(Returned::True)),
    (&[122], Operation::Return(Returned::False)),
    (&[123], Operation::Return(Returned::Nil)),
    (&[125], Operation::Return(Returned::BlockTop)),
    (&[135], Operation::Pop),
    (&[136], Operation::Duplicate),
];

/// Sends of special selectors.
const SPECIAL_SENDS: &[Single] = &[
    (&[176], Operation::SendSpecial(0)),
    (&[207], Operation::SendSpecial(31)),
];

/// Instructions of two or three bytes.
const EXTENDED: &[Single] = &[
    (&[128, 63], Operation::Push(Source::InstanceVariable(63))),
    (&[128, 64 + 20], Operation::Push(Source::Temporary(20))),
    (&[128, 128 + 40], Operation::Push(Source::Literal(40))),
    (&[128, 192 + 50], Operation::Push(Source::Variable(50))),
    (&[129, 9], Operation::Store(Target::InstanceVariable(9))),
    (&[129, 64 + 9], Operation::Store(Target::Temporary(9))),
    (&[130, 192 + 9], Operation::PopInto(Target::Variable(9))),
    (
        &[132, 2 * 32, 99],
        Operation::Push(Source::InstanceVariable(99)),
    ),
    (
        &[132, 3 * 32 + 31, 99],
        Operation::Push(Source::Literal(99)),
    ),
    (&[132, 4 * 32, 99], Operation::Push(Source::Variable(99))),
    (
        &[132, 5 * 32, 99],
        Operation::Store(Target::InstanceVariable(99)),
    ),
    (
        &[132, 6 * 32, 99],
        Operation::PopInto(Target::InstanceVariable(99)),
    ),
    (&[132, 7 * 32, 99], Operation::Store(Target::Variable(99))),
];

/// Jumps without a condition.
const JUMPS: &[Single] = &[
    (&[144], Operation::Jump(Distance::Ahead(1))),
    (&[151], Operation::Jump(Distance::Ahead(8))),
    (&[160, 0], Operation::Jump(Distance::Back(1024))),
    (&[163, 255], Operation::Jump(Distance::Back(1))),
    (&[164, 0], Operation::Jump(Distance::Ahead(0))),
    (&[167, 255], Operation::Jump(Distance::Ahead(1023))),
];

/// A literal is not stored into, and an instruction may be cut short.
const UNKNOWN: &[Single] = &[
    (&[129, 128], Operation::Unknown),
    (&[130, 191], Operation::Unknown),
    (&[175], Operation::Unknown),
];

#[test]
fn single_instructions(rt: HostRuntime) -> Result<(), Fail> {
    for cases in [PUSHES, STACK, SPECIAL_SENDS, EXTENDED, JUMPS, UNKNOWN] {
        assert_single(&rt, cases)?;
    }
    Ok(())
}

/// Bytecodes, and the literal and the number of arguments that their only instruction sends.
type Send = (&'static [u8], u8, u8);

/// Sends.
const SENDS: &[Send] = &[
    (&[208], 0, 0),
    (&[225], 1, 1),
    (&[255], 15, 2),
    (&[131, 3 * 32 + 17], 17, 3),
    (&[134, 2 * 64 + 63], 63, 2),
    (&[132, 9, 200], 200, 9),
];

/// Sends to the superclass.
const SUPER_SENDS: &[Send] = &[(&[133, 32 + 5], 5, 1), (&[132, 32 + 1, 5], 5, 1)];

#[test]
fn sends(rt: HostRuntime) -> Result<(), Fail> {
    for (bytecodes, literal, arguments) in SENDS {
        let (literal, arguments) = (*literal, *arguments);
        let want = Operation::Send { literal, arguments };
        assert_eq!(rt; single(rt.alloc(), bytecodes)?, Some(want));
    }
    for (bytecodes, literal, arguments) in SUPER_SENDS {
        let (literal, arguments) = (*literal, *arguments);
        let want = Operation::SendSuper { literal, arguments };
        assert_eq!(rt; single(rt.alloc(), bytecodes)?, Some(want));
    }
    Ok(())
}

/// Bytecodes, and the condition and the distance of their only instruction.
const CONDITIONAL_JUMPS: &[(&[u8], bool, u16)] = &[
    (&[159], false, 8),
    (&[169, 1], true, 257),
    (&[175, 255], false, 1023),
];

#[test]
fn conditional_jumps(rt: HostRuntime) -> Result<(), Fail> {
    for (bytecodes, condition, distance) in CONDITIONAL_JUMPS {
        let (condition, distance) = (*condition, *distance);
        let want = Operation::JumpIf {
            condition,
            distance,
        };
        assert_eq!(rt; single(rt.alloc(), bytecodes)?, Some(want));
    }
    Ok(())
}

/// Returns whether instructions follow one another from the first to the last of this many bytes,
/// and have these lengths and operations.
fn are(found: &[Instruction], bytes: usize, want: &[(u8, Operation)]) -> bool {
    let mut start: usize = 0;
    for (instruction, (length, operation)) in found.iter().zip(want) {
        let wanted = Instruction {
            start,
            length: *length,
            operation: *operation,
        };
        if *instruction != wanted {
            return false;
        }
        start = start.saturating_add(*length as usize);
    }
    found.len() == want.len() && start == bytes
}

/// Ends a branch if the value on top of the stack is false.
const UNLESS_2: Operation = Operation::JumpIf {
    condition: false,
    distance: 2,
};

/// Ends a loop if the value on top of the stack is false.
const UNLESS_6: Operation = Operation::JumpIf {
    condition: false,
    distance: 6,
};

/// An unknown instruction of one byte.
const UNKNOWN_BYTE: (u8, Operation) = (1, Operation::Unknown);

/// Bytecodes, and their instructions, by their lengths and what they do.
type Sequence = (&'static [u8], &'static [(u8, Operation)]);

/// No bytecodes; `max: x ^ self > x ifTrue: [self] ifFalse: [x]`; `[x > 0] whileTrue: [x := x - 1]`;
/// unknown bytecodes; and instructions that are cut short after a `Pop`.
const SEQUENCES: &[Sequence] = &[
    (&[], &[]),
    (
        &[0x70, 0x10, 0xB3, 0x99, 0x78, 0x10, 0x7C],
        &[
            (1, Operation::Push(Source::Receiver)),
            (1, Operation::Push(Source::Temporary(0))),
            (1, Operation::SendSpecial(3)),
            (1, UNLESS_2),
            (1, Operation::Return(Returned::Receiver)),
            (1, Operation::Push(Source::Temporary(0))),
            (1, Operation::Return(Returned::Top)),
        ],
    ),
    (
        &[16, 117, 0xB3, 0xAC, 6, 16, 118, 0xB1, 104, 0xA3, 0xF6, 120],
        &[
            (1, Operation::Push(Source::Temporary(0))),
            (1, Operation::Push(Source::Zero)),
            (1, Operation::SendSpecial(3)),
            (2, UNLESS_6),
            (1, Operation::Push(Source::Temporary(0))),
            (1, Operation::Push(Source::One)),
            (1, Operation::SendSpecial(1)),
            (1, Operation::PopInto(Target::Temporary(0))),
            (2, Operation::Jump(Distance::Back(10))),
            (1, Operation::Return(Returned::Receiver)),
        ],
    ),
    (
        &[126, 127, 138, 143],
        &[UNKNOWN_BYTE, UNKNOWN_BYTE, UNKNOWN_BYTE, UNKNOWN_BYTE],
    ),
    (&[135, 128], &[(1, Operation::Pop), UNKNOWN_BYTE]),
    (
        &[135, 132, 0],
        &[(1, Operation::Pop), (2, Operation::Unknown)],
    ),
];

#[test]
fn sequences_of_instructions(rt: HostRuntime) -> Result<(), Fail> {
    for (bytecodes, want) in SEQUENCES {
        let found = instructions_of(rt.alloc(), bytecodes)?;
        assert!(rt; are(&found, bytecodes.len(), want), "{bytecodes:?}");
    }
    Ok(())
}
