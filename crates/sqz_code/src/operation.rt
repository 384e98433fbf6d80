//! What the instructions of a compiled method do.

/// What an instruction does: the bytecode set of the Blue Book as Squeak extends it. Indexes count
/// from 0; index 0 of the literals is the field after the method's header.
#[derive(Clone, Copy, Debug, PartialEq, Eq)]
pub enum Operation {
    /// Push a value.
    Push(Source),
    /// Store the top of the stack, and leave it there.
    Store(Target),
    /// Store the top of the stack, and pop it.
    PopInto(Target),
    /// Return from the method or the block.
    Return(Returned),
    /// Send the selector that is this literal, with this number of arguments.
    Send { literal: u8, arguments: u8 },
    /// As `Send`, with the search for the method beginning in the superclass.
    SendSuper { literal: u8, arguments: u8 },
    /// Send the special selector with this index: 0 to 31, for codes 176 to 207.
    SendSpecial(u8),
    /// Pop the top of the stack.
    Pop,
    /// Push the top of the stack again.
    Duplicate,
    /// Jump.
    Jump(Distance),
    /// Pop the top of the stack, and jump ahead if it is this condition. The distance counts bytes
    /// from the end of the instruction.
    JumpIf { condition: bool, distance: u16 },
    /// The code is not in the table, or the instruction is cut short by the end of the method.
    Unknown,
}

/// What an instruction pushes.
#[derive(Clone, Copy, Debug, PartialEq, Eq)]
pub enum Source {
    /// The receiver, `self`.
    Receiver,
    /// An instance variable of the receiver.
    InstanceVariable(u8),
    /// A temporary variable of the method; the arguments come first.
    Temporary(u8),
    /// A literal.
    Literal(u8),
    /// The value of the association that is this literal.
    Variable(u8),
    /// `true`.
    True,
    /// `false`.
    False,
    /// `nil`.
    Nil,
    /// The SmallInteger -1.
    MinusOne,
    /// The SmallInteger 0.
    Zero,
    /// The SmallInteger 1.
    One,
    /// The SmallInteger 2.
    Two,
    /// The context that runs, `thisContext`.
    ThisContext,
}

/// Where an instruction stores.
#[derive(Clone, Copy, Debug, PartialEq, Eq)]
pub enum Target {
    /// An instance variable of the receiver.
    InstanceVariable(u8),
    /// A temporary variable of the method; the arguments come first.
    Temporary(u8),
    /// The value of the association that is this literal.
    Variable(u8),
}

/// What an instruction returns.
#[derive(Clone, Copy, Debug, PartialEq, Eq)]
pub enum Returned {
    /// The receiver, from the method.
    Receiver,
    /// `true`, from the method.
    True,
    /// `false`, from the method.
    False,
    /// `nil`, from the method.
    Nil,
    /// The top of the stack, from the method.
    Top,
    /// The top of the stack, from the block.
    BlockTop,
}

/// How far an instruction jumps, in bytes from its end.
#[derive(Clone, Copy, Debug, PartialEq, Eq)]
pub enum Distance {
    /// Towards the end of the method.
    Ahead(u16),
    /// Towards the start of the method.
    Back(u16),
}
