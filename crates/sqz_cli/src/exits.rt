//! The exit codes of the programs.

ghost use Rattle.std.specs.Prelude.{◌≡◌};
ghost use Rattle.sqz_cli.specs.Exits.{exit_of};

use sqz_image::Fault;

/// The image was written.
pub const DONE: u8 = 0;

/// The image is at fault.
pub const BAD_IMAGE: u8 = 1;

/// The command line is at fault.
pub const BAD_ARGUMENTS: u8 = 2;

/// A file could not be read or written.
pub const DEVICE_FAILED: u8 = 3;

/// Out of memory.
pub(crate) const OUT_OF_MEMORY: u8 = 4;

/// Returns the exit code after this fault.
pub(crate) fn exit_of(fault: &Fault) -> u8
    ensures { result ≡ exit_of fault.now }
{
    match fault {
        Fault::OutOfMemory => OUT_OF_MEMORY,
        Fault::ReadFailed | Fault::WriteFailed => DEVICE_FAILED,
        Fault::BadWorkers | Fault::BadCut => BAD_ARGUMENTS,
        Fault::TooShort
        | Fault::BadVersion
        | Fault::BadHeaderSize
        | Fault::BadDataSize
        | Fault::BadBase
        | Fault::Truncated
        | Fault::ZeroSize { .. }
        | Fault::HeaderMismatch { .. }
        | Fault::Overrun { .. }
        | Fault::BadSpecialObjects
        | Fault::NoClass { .. }
        | Fault::BadMethod { .. }
        | Fault::BadContext { .. }
        | Fault::BadWeak { .. }
        | Fault::BadPointer { .. }
        | Fault::NoNil => BAD_IMAGE,
    }
}
