//! The table of the bytecodes: what the bytes of one instruction say.

ghost use Rattle.std.specs.Prelude.{◌≡◌, ℕ, ◌/◌, ◌%◌, ◌<◌, ◌≤◌};
ghost use Rattle.sqz_code.specs.Operations.{length_by, operation_by, push_by, target_by};
ghost use Rattle.sqz_code.specs.Operations.{extended_by};

use crate::operation::{Distance, Operation, Returned, Source, Target};

/// Returns the number of bytes of an instruction with this first byte.
pub(crate) fn length_of(code: u8) -> u8
    ensures length { result ≡ length_by code }
    ensures some { 0 < result }
{
    match code {
        132 => 3,
        128..=134 | 160..=175 => 2,
        _ => 1,
    }
}

/// Returns what an instruction of one byte does.
pub(crate) fn one_byte(code: u8) -> Operation
    requires { length_by code ≡ 1 }
    ensures { (second third : ℕ) → result ≡ operation_by code second third }
{
    match code {
        0..=119 => push_or_pop(code),
        120..=125 => Operation::Return(returned(code)),
        135 => Operation::Pop,
        136 => Operation::Duplicate,
        137 => Operation::Push(Source::ThisContext),
        144..=151 => Operation::Jump(Distance::Ahead((code - 143) as u16)),
        152..=159 => Operation::JumpIf {
            condition: false,
            distance: (code - 151) as u16,
        },
        176.. => send(code),
        _ => Operation::Unknown,
    }
}

/// Returns what an instruction of one byte that pushes a value, or pops into a variable, does.
fn push_or_pop(code: u8) -> Operation
    requires { code < 120 }
    ensures { (second third : ℕ) → result ≡ operation_by code second third }
{
    match code {
        0..=15 => Operation::Push(Source::InstanceVariable(code)),
        16..=31 => Operation::Push(Source::Temporary(code - 16)),
        32..=63 => Operation::Push(Source::Literal(code - 32)),
        64..=95 => Operation::Push(Source::Variable(code - 64)),
        96..=103 => Operation::PopInto(Target::InstanceVariable(code - 96)),
        104..=111 => Operation::PopInto(Target::Temporary(code - 104)),
        _ => Operation::Push(constant(code)),
    }
}

/// Returns what an instruction that pushes a constant pushes.
fn constant(code: u8) -> Source
    requires from { 112 ≤ code }
    requires below { code < 120 }
    ensures { (second third : ℕ) → Operation.Push result ≡ operation_by code second third }
{
    match code {
        112 => Source::Receiver,
        113 => Source::True,
        114 => Source::False,
        115 => Source::Nil,
        116 => Source::MinusOne,
        117 => Source::Zero,
        118 => Source::One,
        _ => Source::Two,
    }
}

/// Returns what a return instruction returns.
fn returned(code: u8) -> Returned
    requires from { 120 ≤ code }
    requires below { code < 126 }
    ensures { (second third : ℕ) → Operation.Return result ≡ operation_by code second third }
{
    match code {
        120 => Returned::Receiver,
        121 => Returned::True,
        122 => Returned::False,
        123 => Returned::Nil,
        124 => Returned::Top,
        _ => Returned::BlockTop,
    }
}

/// Returns what an instruction of one byte that sends does.
fn send(code: u8) -> Operation
    requires { 176 ≤ code }
    ensures { (second third : ℕ) → result ≡ operation_by code second third }
{
    match code {
        0..=207 => Operation::SendSpecial(code - 176),
        208..=223 => Operation::Send {
            literal: code - 208,
            arguments: 0,
        },
        224..=239 => Operation::Send {
            literal: code - 224,
            arguments: 1,
        },
        _ => Operation::Send {
            literal: code - 240,
            arguments: 2,
        },
    }
}

/// Returns what an instruction of two bytes does.
pub(crate) fn two_bytes(code: u8, second: u8) -> Operation
    requires { length_by code ≡ 2 }
    ensures { (third : ℕ) → result ≡ operation_by code second third }
{
    match code {
        128 => Operation::Push(source(second)),
        129 => match target(second) {
            Some(target) => Operation::Store(target),
            None => Operation::Unknown,
        },
        130 => match target(second) {
            Some(target) => Operation::PopInto(target),
            None => Operation::Unknown,
        },
        131 => Operation::Send {
            literal: second % 32,
            arguments: second / 32,
        },
        133 => Operation::SendSuper {
            literal: second % 32,
            arguments: second / 32,
        },
        134 => Operation::Send {
            literal: second % 64,
            arguments: second / 64,
        },
        _ => long_jump(code, second as u16),
    }
}

/// Returns what the second byte of an instruction pushes: the high two bits say of which kind, the
/// low six are the index.
fn source(second: u8) -> Source
    requires { second < 256 }
    ensures { result ≡ push_by (second / 64) (second % 64) }
{
    let index = second % 64;
    match second / 64 {
        0 => Source::InstanceVariable(index),
        1 => Source::Temporary(index),
        2 => Source::Literal(index),
        _ => Source::Variable(index),
    }
}

/// Returns where the second byte of an instruction says to store: the high two bits say of which
/// kind, the low six are the index. None for the kind that stands for literals.
fn target(second: u8) -> Option<Target>
    ensures { result ≡ target_by (second / 64) (second % 64) }
{
    let index = second % 64;
    match second / 64 {
        0 => Some(Target::InstanceVariable(index)),
        1 => Some(Target::Temporary(index)),
        2 => None,
        _ => Some(Target::Variable(index)),
    }
}

/// Returns what a jump of two bytes does.
fn long_jump(code: u8, second: u16) -> Operation
    requires from { 160 ≤ code }
    requires below { code < 176 }
    requires byte { second < 256 }
    ensures { (third : ℕ) → result ≡ operation_by code second third }
{
    let code = code as u16;
    match code {
        0..=163 => Operation::Jump(Distance::Back((164 - code) * 256 - second)),
        164..=167 => Operation::Jump(Distance::Ahead((code - 164) * 256 + second)),
        168..=171 => Operation::JumpIf {
            condition: true,
            distance: (code - 168) * 256 + second,
        },
        _ => Operation::JumpIf {
            condition: false,
            distance: (code - 172) * 256 + second,
        },
    }
}

/// Returns what an instruction of three bytes does: the high three bits of the second byte say
/// what, its low five bits are a number of arguments, and the third byte is an index.
pub(crate) fn three_bytes(second: u8, third: u8) -> Operation
    ensures { result ≡ extended_by (second / 32) (second % 32) third }
{
    let (literal, arguments) = (third, second % 32);
    match second / 32 {
        0 => Operation::Send { literal, arguments },
        1 => Operation::SendSuper { literal, arguments },
        2 => Operation::Push(Source::InstanceVariable(third)),
        3 => Operation::Push(Source::Literal(third)),
        4 => Operation::Push(Source::Variable(third)),
        5 => Operation::Store(Target::InstanceVariable(third)),
        6 => Operation::PopInto(Target::InstanceVariable(third)),
        _ => Operation::Store(Target::Variable(third)),
    }
}
