//! The numbers of the fields by which processes and contexts are read. Fields are counted from 0;
//! field 0 is the word after the base header.

/// The field of the special objects array that points to the association of the scheduler.
pub(crate) const SCHEDULER: u32 = 3;

/// The field of the scheduler that points to the array of the lists of ready processes.
pub(crate) const READY_LISTS: u32 = 0;

/// The field of the scheduler that points to the active process.
pub(crate) const ACTIVE_PROCESS: u32 = 1;

/// The field of a process that points to its innermost context.
pub(crate) const SUSPENDED_CONTEXT: u32 = 1;

/// The field of a process with its priority.
pub(crate) const PRIORITY: u32 = 2;

/// The field of a process that points to the list that it is in.
pub(crate) const LIST: u32 = 3;

/// The field of a context that points to the context to which it returns: its sender, or for a
/// block its caller.
pub(crate) const SENDER: u32 = 0;

/// The field of a context with its program counter.
pub(crate) const PROGRAM_COUNTER: u32 = 1;

/// The field of a method's context that points to the method. That of a block has a number of
/// arguments there.
pub(crate) const METHOD: u32 = 3;

/// The field of a method's context that points to the receiver.
pub(crate) const RECEIVER: u32 = 5;

/// The field of a block's context that points to the context of its method.
pub(crate) const HOME: u32 = 5;
