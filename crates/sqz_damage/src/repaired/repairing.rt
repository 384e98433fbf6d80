//! Files whose dangling pointers become pointers to nil.

ghost use Rattle.std.specs.Prelude.{◌≡◌, IfOk, IfErr};
ghost use Rattle.sqz_damage.specs.Soundness.{IsSound};
ghost use Rattle.sqz_damage.specs.Repairs.{IsRepaired, StopsRepair};
ghost use Rattle.sqz_damage.specs.declared.repaired.repairing.RepairError.TheVariants.{OutOfMemory, NoImage};

use crate::Patch;
use crate::repaired::patched::patched;
use crate::repaired::reading::{finding_of, sound_header};
use crate::repaired::sizes::{LiveSize, sound_size};
use sqz_image::Fault;
use sqz_trace::Weak;
use std::alloc::{AllocError, Global};
use std::fmt;
use std::thread::Threads;

/// A file in which no pointer of a live object leads nowhere.
#[derive(Drop)]
pub struct Repaired {
    /// The bytes of the file.
    pub bytes: Vec<u8>,
    /// The data words that were written anew, by object.
    pub patches: Vec<Patch>,
    /// How much was live before.
    pub before: LiveSize,
    /// How much is live now.
    pub after: LiveSize,
}

/// Why a file was not repaired.
#[derive(Clone, Copy)]
pub enum RepairError {
    /// Out of memory.
    OutOfMemory,
    /// The file holds no image, for this reason.
    NoImage(Fault),
    /// A slot dangles, and field 0 of the special objects array points to no object that is not
    /// lost.
    NoNil,
    /// The special objects array is lost.
    NoSpecialObjects,
    /// The image has this fault even if no pointer leads nowhere.
    Unsound(Fault),
}

impl From<AllocError> for RepairError {
    ghost from_gives = { λ _ error. error ≡ OutOfMemory };

    fn from(_error: AllocError) -> RepairError {
        RepairError::OutOfMemory
    }
}

impl From<Fault> for RepairError {
    ghost from_gives = { λ fault error. error ≡ NoImage fault };

    fn from(fault: Fault) -> RepairError {
        RepairError::NoImage(fault)
    }
}

impl fmt::Display for RepairError {
    fn fmt<W: fmt::Write>(&self, f: &mut fmt::Formatter<W>) -> fmt::Result {
        match self {
            RepairError::OutOfMemory => f.write_str("out of memory"),
            RepairError::NoImage(fault) | RepairError::Unsound(fault) => {
                write!(f, "fault {}: {fault}", fault.number())
            }
            RepairError::NoNil => f.write_str("no nil to which pointers could lead"),
            RepairError::NoSpecialObjects => {
                f.write_str("the special objects array cannot be traced")
            }
        }
    }
}

/// Returns a file with each pointer of a live object that leads nowhere replaced by a pointer to
/// nil, and each live object that is lost replaced by a free chunk, as `nil_patches` finds them. All
/// other bytes stay. A file that holds an image without a fault stays as it is. A compaction with
/// the same policy on weak slots accepts the file: it is checked before it is returned.
///
/// Fails with `NoImage` if the file holds no image, with `NoSpecialObjects` and `NoNil` as
/// `nil_patches` does, and with `Unsound` if the file is not sound even then. Otherwise fails only
/// if out of memory.
pub fn repair<T: Threads + Sync>(
    rt: &T,
    alloc: Global,
    file: Vec<u8>,
    weak: Weak,
) -> Result<Repaired, RepairError>
    ensures repaired { IfOk result (IsRepaired weak file.items) }
    ensures unharmed { IfOk result (λ repaired. IsSound weak file.items
        → repaired.bytes.items ≡ file.items) }
    ensures stopped { IfErr result (StopsRepair weak file.items) }
{
    let header = sound_header(&file)?;
    let found = finding_of(rt, alloc, &file, weak)?;
    let before = found.size;
    let patches = match found.patches {
        Some(patches) => patches,
        None => {
            return Ok(Repaired {
                bytes: file,
                patches: Vec::new(alloc),
                before,
                after: before,
            });
        }
    };
    let bytes = patched(file, &header, &patches);
    match sound_size(rt, alloc, &bytes, weak)? {
        Err(fault) => Err(RepairError::Unsound(fault)),
        Ok(after) => Ok(Repaired {
            bytes,
            patches,
            before,
            after,
        }),
    }
}
