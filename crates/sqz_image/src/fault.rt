//! Why a call failed.

ghost use Rattle.std.specs.Prelude.{◌≡◌};
ghost use Rattle.sqz_image.specs.declared.fault.Fault.TheVariants.{OutOfMemory};
ghost use Rattle.sqz_image.specs.Numbers.{number_of_fault};
ghost use Rattle.sqz_image.specs.Readable.{unread_word};

use crate::slot::Slot;
use sqz_object::{Address, WordIndex};
use std::alloc::{AllocError, AllocFailed};
use thiserror::Error;

/// Why a call failed: a fault of the image, an allocation failure, a device failure, or a bad
/// argument. `word` is the index of a data word, `address` the address of a base header.
#[derive(Clone, Copy, Debug, PartialEq, Eq, Error)]
pub enum Fault {
    #[error("image is shorter than its header")]
    TooShort,
    #[error("version is not 6502")]
    BadVersion,
    #[error("header size is not 64")]
    BadHeaderSize,
    #[error("data size is not a multiple of 4")]
    BadDataSize,
    #[error("base address is not valid")]
    BadBase,
    #[error("data are truncated")]
    Truncated,
    #[error("size 0 at word {word}")]
    ZeroSize { word: WordIndex },
    #[error("header words disagree at word {word}")]
    HeaderMismatch { word: WordIndex },
    #[error("chunk runs past the end at word {word}")]
    Overrun { word: WordIndex },
    #[error("special objects array not found")]
    BadSpecialObjects,
    #[error("no class for object {address:08x}")]
    NoClass { address: Address },
    #[error("bad method {address:08x}")]
    BadMethod { address: Address },
    #[error("bad context {address:08x}")]
    BadContext { address: Address },
    #[error("bad pointer in object {address:08x}, {slot}")]
    BadPointer { address: Address, slot: Slot },
    #[error("out of memory")]
    OutOfMemory,
    #[error("cannot read the image")]
    ReadFailed,
    #[error("cannot write the output")]
    WriteFailed,
    #[error("workers must be from 1 to 64")]
    BadWorkers,
    #[error("region cut is not valid")]
    BadCut,
    #[error("bad weak object {address:08x}")]
    BadWeak { address: Address },
    #[error("nil not found")]
    NoNil,
}

impl Fault {
    /// Returns the fault's number in the documentation.
    pub fn number(&self) -> u32
        ensures { result ≡ number_of_fault self.now }
    {
        match self {
            Fault::TooShort => 1,
            Fault::BadVersion => 2,
            Fault::BadHeaderSize => 3,
            Fault::BadDataSize => 4,
            Fault::BadBase => 5,
            Fault::Truncated => 6,
            Fault::ZeroSize { .. } => 7,
            Fault::HeaderMismatch { .. } => 8,
            Fault::Overrun { .. } => 9,
            Fault::BadSpecialObjects => 10,
            Fault::NoClass { .. } => 11,
            Fault::BadMethod { .. } => 12,
            Fault::BadContext { .. } => 13,
            Fault::BadPointer { .. } => 14,
            Fault::OutOfMemory => 15,
            Fault::ReadFailed => 16,
            Fault::WriteFailed => 17,
            Fault::BadWorkers => 18,
            Fault::BadCut => 19,
            Fault::BadWeak { .. } => 20,
            Fault::NoNil => 21,
        }
    }

    /// Returns the index of the first word of a chunk that cannot be read. None for other faults.
    pub fn unread_word(&self) -> Option<WordIndex>
        ensures { result ≡ unread_word self.now }
    {
        match *self {
            Fault::ZeroSize { word } => Some(word),
            Fault::HeaderMismatch { word } => Some(word),
            Fault::Overrun { word } => Some(word),
            _ => None,
        }
    }
}

impl From<AllocError> for Fault {
    ghost from_gives = { λ _ fault. fault ≡ OutOfMemory };

    fn from(_error: AllocError) -> Fault {
        Fault::OutOfMemory
    }
}

impl<T: Drop> From<AllocFailed<T>> for Fault {
    ghost from_gives = { λ _ fault. fault ≡ OutOfMemory };

    fn from(_error: AllocFailed<T>) -> Fault {
        Fault::OutOfMemory
    }
}
