//! Why a question has no answer.

ghost use Rattle.std.specs.Prelude.{◌≡◌};
ghost use Rattle.sqz_look_files.specs.Failures.{IsReadFailure, failure_of_printing};
ghost use Rattle.sqz_look_files.specs.declared.failure.Failure.TheVariants.{OutOfMemory};

use crate::loading::LoadError;
use sqz_damage::RepairError;
use sqz_look_check::ReadFailure;
use sqz_look_view::PrintError;
use std::alloc::{AllocError, Global};

/// Why a question has no answer.
#[derive(Drop)]
pub enum Failure {
    /// Memory ran out.
    OutOfMemory,
    /// The answer could not be printed.
    NotPrinted,
    /// The file of the image that the question is about cannot be read.
    NotRead(ReadFailure),
    /// The file with this path cannot be read.
    NotReadAt(String, ReadFailure),
    /// What is asked about is not there, or no image could be read.
    NotThere(String),
}

impl From<AllocError> for Failure {
    ghost from_gives = { λ _ failure. failure ≡ OutOfMemory };

    fn from(_error: AllocError) -> Failure {
        Failure::OutOfMemory
    }
}

impl From<LoadError> for Failure {
    ghost from_gives = { λ _ failure. IsReadFailure failure };

    fn from(error: LoadError) -> Failure {
        match error {
            LoadError::OutOfMemory => Failure::OutOfMemory,
            LoadError::NotRead(failure) => Failure::NotRead(failure),
        }
    }
}

impl From<PrintError> for Failure {
    ghost from_gives = { λ error failure. failure ≡ failure_of_printing error };

    fn from(error: PrintError) -> Failure {
        match error {
            PrintError::OutOfMemory => Failure::OutOfMemory,
            PrintError::WriteFailed => Failure::NotPrinted,
        }
    }
}

impl Failure {
    /// Returns the failure for which a file is not repaired.
    pub(crate) fn of_repair(alloc: Global, error: RepairError) -> Result<Self, AllocError> {
        Ok(match error {
            RepairError::OutOfMemory => Failure::OutOfMemory,
            _ => Failure::NotThere(error.to_string(alloc)?),
        })
    }
}
