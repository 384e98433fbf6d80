//! Why pointers cannot be replaced by nil.

ghost use Rattle.std.specs.Prelude.{◌≡◌};
ghost use Rattle.sqz_damage.specs.declared.dangling.nil_error.NilError.TheVariants.{OutOfMemory};

use std::alloc::{AllocError, AllocFailed};

/// Why pointers that lead nowhere cannot be replaced by nil.
#[derive(Clone, Copy, Debug, PartialEq, Eq)]
pub enum NilError {
    /// Out of memory.
    OutOfMemory,
    /// A slot dangles, and field 0 of the special objects array points to no object that is not
    /// lost.
    NoNil,
    /// The special objects array is lost.
    NoSpecialObjects,
}

impl From<AllocError> for NilError {
    ghost from_gives = { λ _ error. error ≡ OutOfMemory };

    fn from(_error: AllocError) -> NilError {
        NilError::OutOfMemory
    }
}

impl<T: Drop> From<AllocFailed<T>> for NilError {
    ghost from_gives = { λ _ error. error ≡ OutOfMemory };

    fn from(_failed: AllocFailed<T>) -> NilError {
        NilError::OutOfMemory
    }
}
